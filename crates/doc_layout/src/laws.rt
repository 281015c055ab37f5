//! Laws of the definitions, each the contract of a function: they hold of all texts.

ghost use Rattle.doc_layout.specs.Laws.{LayoutsTell, LinesRead, PiecesRead, RegionsRead, StylesRead};

/// A layout has the characters of its text and the places of its carets, and nothing else.
pub fn layouts_tell()
    ensures { LayoutsTell }
{}

/// A line reads no styles but those of its own characters.
pub fn styles_read()
    ensures { StylesRead }
{}

/// A line reads no more of regions than the carets at its own gaps, and which of its characters are selected.
pub fn regions_read()
    ensures { RegionsRead }
{}

/// A line reads no more than its own characters and what is shown on them: lines left of where two texts of one length begin to differ are
/// the same.
pub fn lines_read()
    ensures { LinesRead }
{}

/// A line reads no more than its own characters and what is shown on them, wherever its piece stands.
pub fn pieces_read()
    ensures { PiecesRead }
{}
