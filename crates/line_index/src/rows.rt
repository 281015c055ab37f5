//! Worked rows, each the contract of a function: what the definitions give in small cases.

ghost use Rattle.line_index.specs.Rows.{FarChanges, TouchedLines};

/// How many lines one change touches, how many two, and how many where nothing changes.
pub fn lines_touched()
    ensures { TouchedLines }
{}

/// Two changes touch all lines between.
pub fn far_changes()
    ensures { FarChanges }
{}
