use plain_edits::UnitDelta;
use rope_tree::Rope;

/// What is read of a revision.
#[derive(Drop)]
pub struct Read {
    /// What the revision shows.
    pub text: Rope,
    /// The edit of that text since then, in characters: it leads to what the head shows.
    pub units: UnitDelta,
}
