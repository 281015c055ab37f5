//! Worked rows, each the contract of a function: what the definitions give in small cases.

ghost use Rattle.edit_ops.specs.Rows.{Deleting, Empty, Following, Pointing, Tabs, Typing};

/// Several regions at once, a copy, and a region that nothing replaces.
pub fn typing()
    ensures { Typing }
{}

/// Words, clusters and the ends of a text.
pub fn deleting()
    ensures { Deleting }
{}

/// Tab stops by columns.
pub fn tabs()
    ensures { Tabs }
{}

/// Drags, ranges and toggles.
pub fn following()
    ensures { Following }
{}

/// Clicks, words, lines and numbered lines.
pub fn pointing()
    ensures { Pointing }
{}

/// Each command on the empty text.
pub fn empty()
    ensures { Empty }
{}
