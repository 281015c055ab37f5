//! Laws of the definitions, each the contract of a function: they hold of all lines and texts.

ghost use Rattle.line_break.specs.Laws.{BreaksAreOne, LineEndTakesNoRoom, PiecesMakeTheLine, WrappedPiecesArePieces};

/// The breaks of a line pass the test, and nothing else does.
pub fn breaks_are_one()
    ensures { BreaksAreOne }
{}

/// The pieces of a line are the line, and each of them fits or is one cluster.
pub fn pieces_make_the_line()
    ensures { PiecesMakeTheLine }
{}

/// A line end behind a line changes no piece but the last, where each cluster of the line fits the width.
pub fn line_end_takes_no_room()
    ensures { LineEndTakesNoRoom }
{}

/// The pieces of a text for a width are pieces of it.
pub fn wrapped_pieces_are_pieces()
    ensures { WrappedPiecesArePieces }
{}
