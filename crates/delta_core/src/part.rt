use plain_text::Text;

/// What a unit delta does next: to characters of its base, or at a gap.
#[derive(Clone, Copy)]
pub enum Part<'a> {
    Keep(u64),
    Drop(u64),
    Add(&'a Text),
}
