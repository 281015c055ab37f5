//! Laws of the ids of styles, each the contract of a function that does nothing.

ghost use Rattle.style_numbers.specs.Laws.{EqualStylesShareAnId, NewStylesStandAtTheEnd, StylesHaveTheirIds};

/// Each style of the spans has its id in the table after them, also one of a span of no characters.
pub fn styles_have_their_ids()
    ensures { StylesHaveTheirIds }
{}

/// The table grows at its end, by the styles that are new, which have the next ids.
pub fn new_styles_stand_at_the_end()
    ensures { NewStylesStandAtTheEnd }
{}

/// Equal styles share one id.
pub fn equal_styles_share_an_id()
    ensures { EqualStylesShareAnId }
{}
