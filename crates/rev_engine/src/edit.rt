use plain_edits::{Delta, UnitDelta};

/// An edit, made for the text of a revision.
#[derive(Drop)]
pub struct Edit {
    /// The revision whose text the delta is against.
    pub rev: u64,
    pub delta: Delta,
    /// Of two insertions at one gap that of the higher priority stands right; of equal priorities that of the higher author, and of one
    /// author the later.
    pub priority: u32,
    /// Whether carets at the gap of an insertion stay left of it. The engine has no carets and passes it over.
    pub after_cursor: bool,
    pub author: u32,
    /// The undo group, from 1 up.
    pub group: u64,
}

/// An edit in characters, of a text that is known beside it.
#[derive(Drop)]
pub struct UnitEdit {
    pub units: UnitDelta,
    /// As in [`Edit`].
    pub priority: u32,
    pub author: u32,
    /// The undo group, from 1 up.
    pub group: u64,
}

/// What an edit did to the head text.
#[derive(Drop)]
pub struct Change {
    /// The new revision.
    pub rev: u64,
    /// From the head text before to the head text after, in characters.
    pub units: UnitDelta,
}
