//! Worked rows, each the contract of a function: what the definitions give in small cases.

ghost use Rattle.doc_layout.specs.Rows.{Layouts, Styles, StylesOfLayers, Wrapped};

/// A text is laid out in its logical lines, with the carets of each.
pub fn layouts()
    ensures { Layouts }
{}

/// Selected and found characters are styled, each line by its own.
pub fn styles()
    ensures { Styles }
{}

/// Styles of layers are shown beside what is selected and found, each line by its own.
pub fn styles_of_layers()
    ensures { StylesOfLayers }
{}

/// A line that is wrapped is laid out in its pieces.
pub fn wrapped()
    ensures { Wrapped }
{}
