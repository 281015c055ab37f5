//! Laws of the definitions, each the contract of a function: they hold of all texts.

ghost use Rattle.doc_text.specs.Laws.{NoneIsLeft, NoticesLead, RevisionsGiveNothing};

/// A plugin that knows the text before a change has the text after it by the delta of the notice.
pub fn notices_lead()
    ensures { NoticesLead }
{}

/// Nothing waits that may be collected; where no session is open, no group is left that no undo reaches any more: all are collected.
pub fn none_is_left()
    ensures { NoneIsLeft }
{}

/// Where nothing waits, revisions at which no session acknowledged or ended and no group was left behind give nothing new to collect.
pub fn revisions_give_nothing()
    ensures { RevisionsGiveNothing }
{}
