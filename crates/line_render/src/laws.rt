//! Laws of rendered lines, each the contract of a function that does nothing.

ghost use Rattle.line_render.specs.Laws.{CaretsStandInTheirLines, PiecesRenderAlike};

/// A piece is rendered alike from its own characters and from the whole text.
pub fn pieces_render_alike()
    ensures { PiecesRenderAlike }
{}

/// A line shows the carets whose layout line it is, and no others.
pub fn carets_stand_in_their_lines()
    ensures { CaretsStandInTheirLines }
{}
