use plain_text::Text;

/// What a book has of a view's text.
#[derive(PartialEq, Eq, Drop)]
pub struct Page {
    /// The revision that the text is of.
    pub rev: u64,
    /// Whether all of revision 0 was read.
    pub whole: bool,
    /// The text; while it is not whole, the front of revision 0.
    pub text: Text,
}
