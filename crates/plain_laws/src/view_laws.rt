//! Laws of views and of update plans, each the contract of a function: they hold of all texts and screens.

ghost use Rattle.plain_laws.specs.ViewLaws.{GapsHaveLines, PartnersStay, PiecesAreTexts, PlansKeep, PlansSend};

/// The pieces of a text are the text, however its lines are cut.
pub fn pieces_are_texts()
    ensures { PiecesAreTexts }
{}

/// Each gap belongs to one layout line, and to one logical line.
pub fn gaps_have_lines()
    ensures { GapsHaveLines }
{}

/// The screen after a plan is the layout wherever the plan keeps, restyles or sends.
pub fn plans_keep()
    ensures { PlansKeep }
{}

/// The partners of the lines of a layout rise, and the plan that they make keeps to the layout.
pub fn partners_stay()
    ensures { PartnersStay }
{}

/// A plan tells of lines of the window and the request alone: all of a line that was not there, and the carets and styles of one that was.
pub fn plans_send()
    ensures { PlansSend }
{}
