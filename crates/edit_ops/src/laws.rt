//! Laws of the definitions, each the contract of a function: they hold of all texts and replacements.

ghost use Rattle.edit_ops.specs.Laws.{DeletionsLeaveTheRest, EndsStayEnds, EditsGiveTheText, EmptyReplacementsLeaveTheText, TypingReplaces};

/// Typing over one region gives what stood left of it, the characters, and what stood right of it, with the caret after them.
pub fn typing_replaces()
    ensures { TypingReplaces }
{}

/// A deletion leaves the rest of the text, in order.
pub fn deletions_leave_the_rest()
    ensures { DeletionsLeaveTheRest }
{}

/// Where no range holds a character and no text is added, the text stays.
pub fn empty_replacements_leave_the_text()
    ensures { EmptyReplacementsLeaveTheText }
{}

/// The edit of replacements gives their text.
pub fn edits_give_the_text()
    ensures { EditsGiveTheText }
{}

/// The end of the text goes where the text after replacements ends, so this is its length.
pub fn ends_stay_ends()
    ensures { EndsStayEnds }
{}
