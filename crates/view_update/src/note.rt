use plain_edits::Style;
use plain_screen::Update;
use plain_text::Text;

/// An update, and the id of the view that it is for.
#[derive(Drop)]
pub struct ViewUpdate {
    pub view: Text,
    pub update: Update,
}

/// A place of a view that is asked to be shown.
#[derive(Drop)]
pub struct Scroll {
    pub view: Text,
    /// The line's number, from 0 on.
    pub line: u64,
    /// A column in bytes.
    pub col: u64,
}

/// A style, and the number by which the triples of lines name it.
#[derive(Clone, Copy)]
pub struct NumberedStyle {
    pub id: u64,
    pub style: Style,
}
