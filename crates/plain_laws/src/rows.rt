//! Worked rows, each the contract of a function: what the definitions give in small cases.

ghost use Rattle.plain_laws.specs.Rows.{PrioritiesAtOneGap, FourMisfits, InsertionAfterTombstone, EldestEditDecides, UndoOfAnySet, SmallScreen, Plans, InputLines};

/// Of two insertions at one gap the one of the higher priority goes further right, in whatever order they come.
pub fn priorities_at_one_gap()
    ensures { PrioritiesAtOneGap }
{}

/// Each kind of misfit comes with its place, and a delta that says nothing fits the empty text.
pub fn four_misfits()
    ensures { FourMisfits }
{}

/// An insertion after a deleted character stands after it when it comes back.
pub fn insertion_after_a_tombstone()
    ensures { InsertionAfterTombstone }
{}

/// The eldest edit of a run decides on its whole block.
pub fn the_eldest_edit_decides()
    ensures { EldestEditDecides }
{}

/// Any set of groups may be undone.
pub fn undo_of_any_set()
    ensures { UndoOfAnySet }
{}

/// Each operation does its part to a screen.
pub fn a_small_screen()
    ensures { SmallScreen }
{}

/// An update says how each line comes to the screen.
pub fn update_plans()
    ensures { Plans }
{}

/// An input is its lines.
pub fn input_lines()
    ensures { InputLines }
{}
