//! Selections: a caret, one region more, regions in any order, the last caret alone, and what an edit makes of a selection.
//!
//! The calls are those of the trait [`Selection`] on the plain type `Sel`, which a contract sees as the list of its regions. They
//! are sorted, and no two meet: two regions that overlap, or that touch where one is a caret, become one.
//! [`laws::selections_follow_changes`] says that an edit takes them where the caret rule of histories does, and
//! [`laws::order_does_not_matter`] that regions make one selection in whatever order they come.
#![tactic(auto)]

mod gap_walk;
pub mod laws;
mod mapping;
mod merging;
mod selection;

pub use mapping::gap_after;
pub use selection::Selection;
