/// Whether the text was the one that was loaded or last saved before an event, and whether it is after it.
#[derive(Clone, Copy, PartialEq, Eq)]
pub struct Pristine {
    pub before: bool,
    pub after: bool,
}

/// What an event left of the text of a view and of its styles: both are the same, the text is, or both are left of a gap.
#[derive(Clone, Copy, PartialEq, Eq)]
pub enum TextLeft {
    Same,
    Styled,
    Edited { from: u64 },
}
