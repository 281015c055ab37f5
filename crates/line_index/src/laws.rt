//! Laws of cuts, each the contract of a function: they hold of all texts.

ghost use Rattle.line_index.specs.Laws.{CutsSayPieces, EditsLeaveOtherLines, EditsReplace, EditsTouchLines, FeedsEndLines, PiecesGoOn, WidthZeroCutsNothing};

/// The cuts of a text say its pieces.
pub fn cuts_say_pieces()
    ensures { CutsSayPieces }
{}

/// Where front and middle are empty or end with LF, the cuts are those of their lines, and then those of the rest.
pub fn edits_leave_other_lines()
    ensures { EditsLeaveOtherLines }
{}

/// The cuts after an edit are those before it, but for the lines that it touches.
pub fn edits_replace()
    ensures { EditsReplace }
{}

/// The cuts after an edit are those of the lines before its first gap's and after its last gap's, and between these those of the new lines.
pub fn edits_touch_lines()
    ensures { EditsTouchLines }
{}

/// A text up to the first gap with so many LFs left of it has as many whole lines.
pub fn feeds_end_lines()
    ensures { FeedsEndLines }
{}

/// What pieces need of the cuts before them is how many lines and characters these have.
pub fn pieces_go_on()
    ensures { PiecesGoOn }
{}

/// With width 0 the pieces of a text are its logical lines, whatever the tab width.
pub fn width_zero_cuts_nothing()
    ensures { WidthZeroCutsNothing }
{}
