//! Worked rows of views and of update plans, each the contract of a function.

ghost use Rattle.plain_laws.specs.ViewRows.{LinesOfGaps, Pieces, PlansOfAFile, PlansWithPartners, RestyledLines, RestyledScreens, TouchedLines};

/// A text is cut into pieces, and an empty line is one of them.
pub fn pieces()
    ensures { Pieces }
{}

/// A gap between two pieces is of the later one.
pub fn lines_of_gaps()
    ensures { LinesOfGaps }
{}

/// Lines beside those that are touched have partners.
pub fn touched_lines()
    ensures { TouchedLines }
{}

/// Lines with partners are kept near the window.
pub fn plans_with_partners()
    ensures { PlansWithPartners }
{}

/// An update of old lines keeps their texts.
pub fn restyled_screens()
    ensures { RestyledScreens }
{}

/// In a long file a click restyles two lines, and an insertion sends one.
pub fn plans_of_a_file()
    ensures { PlansOfAFile }
{}

/// A caret that moves has the lines that it touches restyled, in the window or where they are requested.
pub fn restyled_lines()
    ensures { RestyledLines }
{}
