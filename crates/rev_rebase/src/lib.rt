//! Where a stale edit goes: an edit against an old revision, in the coordinates of the union that it makes.
//!
//! To a contract a list of revisions has the history in which every character is 0, and a subset is a list of flags.
//! [`rebase`] gives the insertions and deletions that `plain_edits` defines for the edit, and its text. [`laws::places`] says that
//! the places are those in every history with text, and that the text put in at them is the edit step.
#![tactic(auto)]

mod asked;
mod later;
pub mod laws;
mod order;
mod stale;

pub use asked::may_rebase;
pub use stale::{Rebased, rebase};
