/// What an event left of a text and of its styles, as far as lines go.
#[derive(Clone, Copy, PartialEq, Eq)]
pub enum Change {
    /// Both are the same.
    Nothing,
    /// The text is the same, and the styles of its characters are left of a gap.
    Styled { from: u64 },
    /// The text begins and ends with as many characters of the text before, and these have their styles.
    Edited { front: u64, back: u64 },
}
