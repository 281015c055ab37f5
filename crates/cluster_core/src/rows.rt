//! Worked rows, each the contract of a function: what the definitions give in small cases.

ghost use Rattle.cluster_core.specs.Rows.{ColumnsBetween, TextBoundaries};

/// The boundaries of a text of two lines.
pub fn text_boundaries()
    ensures { TextBoundaries }
{}

/// The columns between two gaps of a line with a tab, and of a cluster that is cut.
pub fn columns_between()
    ensures { ColumnsBetween }
{}
