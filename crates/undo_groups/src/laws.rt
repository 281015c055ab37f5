//! The laws of stacks, as the contracts of functions that do nothing.

ghost use Rattle.undo_groups.specs.Laws.{OpeningEndsRedo, RedoTakesUndoBack, UndoTakesRedoBack};

/// A redo directly after an undo gives the groups back as they were.
pub fn redo_takes_undo_back()
    ensures { RedoTakesUndoBack }
{}

/// An undo directly after a redo gives the groups back as they were.
pub fn undo_takes_redo_back()
    ensures { UndoTakesRedoBack }
{}

/// After a new group no redo is left, and whatever was undone by then stays undone.
pub fn opening_ends_redo()
    ensures { OpeningEndsRedo }
{}
