//! Laws of the steps of a document. The functions do nothing: their clauses are the laws.

ghost use Rattle.document_laws.specs.Laws.{AcknowledgementsAreUnseen, AskingIsUnseen, CollectionIsUnseen, LayersFollow, NewGroupEndsRedo, ReadingGivesTheText, RedoTakesUndoBack, SavingIsSeen, StepsAreFew, UndoTakesNewest, UndoTakesRunBack};
ghost use Rattle.document_laws.specs.Marks.{LayoutsTellMarks};
ghost use Rattle.doc_session.specs.Touched.{ChangesTouchLines};

/// An undo takes a run of typing back whole: however many insertions it has, the text is the one before the first.
pub fn undo_takes_run_back()
    ensures { UndoTakesRunBack }
{}

/// A redo directly after an undo gives the text and the undo groups back.
pub fn redo_takes_undo_back()
    ensures { RedoTakesUndoBack }
{
    undo_groups::redo_takes_undo_back();
}

/// After a new group there is nothing to redo.
pub fn new_group_ends_redo()
    ensures { NewGroupEndsRedo }
{}

/// An undo takes the newest group that is left, and no other.
pub fn undo_takes_newest()
    ensures { UndoTakesNewest }
{}

/// However many undos come, at most twenty of them make a revision.
pub fn steps_are_few()
    ensures { StepsAreFew }
{}

/// What was collected is invisible to a front end: whatever it does, it is told the same.
pub fn collection_is_unseen()
    ensures { CollectionIsUnseen }
{}

/// So is what the sessions of plugins acknowledge, and their end.
pub fn acknowledgements_are_unseen()
    ensures { AcknowledgementsAreUnseen }
{}

/// Styles of plugins stay with their characters: at every event, a collection and what a session tells too, and no style comes but by spans.
pub fn layers_follow()
    ensures { LayersFollow }
{}

/// After a save the text is pristine, until there is another revision.
pub fn saving_is_seen()
    ensures { SavingIsSeen }
{}

/// What plugins only ask changes nothing, and nobody else is told of it.
pub fn asking_is_unseen()
    ensures { AskingIsUnseen }
{}

/// A plugin that reads a revision chunk by chunk has its text.
pub fn reading_gives_the_text()
    ensures { ReadingGivesTheText }
{}

/// The lines that the change of a revision touches, which are broken anew, are those that the revision touches in the history.
pub fn changes_touch_lines()
    ensures { ChangesTouchLines }
{}

/// What is told of a text tells which characters are selected and which are found, where no layer has the ids of these.
pub fn layouts_tell_marks()
    ensures { LayoutsTellMarks }
{}
