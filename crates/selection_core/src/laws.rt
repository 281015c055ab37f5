//! The laws of selections, each the contract of a function that does nothing.

ghost use Rattle.selection_core.specs.Laws.{OrderDoesNotMatter, SelectionsFollowChanges};

/// What a step of a history makes of a selection is one thing, said by the characters that its carets stand at, and said by the change
/// of the text.
pub fn selections_follow_changes()
    ensures { SelectionsFollowChanges }
{}

/// Regions make one selection in whatever order they come.
pub fn order_does_not_matter()
    ensures { OrderDoesNotMatter }
{}
