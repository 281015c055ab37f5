//! Laws of the definitions, each the contract of a function: they hold of all texts and their pieces.

ghost use Rattle.movement_core.specs.Laws.{MotionsKeepPlaces, RightThenLeft, UpAndDownGoToNeighbours};

/// A step to the right and one to the left come back, from a boundary that is not the text's end.
pub fn right_then_left()
    ensures { RightThenLeft }
{}

/// What stands at boundaries stands at boundaries after each motion.
pub fn motions_keep_places()
    ensures { MotionsKeepPlaces }
{}

/// Up and down go to the neighbouring layout line, and not past the goal.
pub fn up_and_down_go_to_neighbours()
    ensures { UpAndDownGoToNeighbours }
{}
