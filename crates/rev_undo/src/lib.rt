//! What of the present union any set of groups hides at the head.
//!
//! To a contract a list of revisions is its history, and a subset is a list of flags. [`recompute`] gives what `rev_list` defines for
//! the set. It begins at the last revision at which what was undone agrees with the set on all groups that have an edit by then: the
//! list knows what that revision shows, and the set shows the same there. For an undo or a redo of a document's stack that is the
//! revision right before the group's first edit, or right before the undo that it takes back.
#![tactic(auto)]

mod allowed;
mod carry;
mod floor;
mod hidden;
mod start;

pub use allowed::{agrees_on_collected, may_undo};
pub use hidden::{recompute, recompute_by};
