//! Which floors of a list of revisions are clean, what is collected after an entry, and the list that is left of it.
//!
//! To a contract a list of revisions is its history. [`clean`] answers what `plain_edits` says of a floor, and [`collectable`] gives the
//! collection that it says comes after an entry. Both look at the revisions after the floor, and at none before it. [`collect`] gives
//! the list whose history is what is left after a collection at any clean floor, and the positions that are dropped; [`may_collect`] says
//! whether one may come.
#![tactic(auto)]

mod choice;
mod floors;
mod join;
mod later;
pub mod laws;
mod left;
mod present;
mod rest;

pub use choice::collectable;
pub use floors::clean;
pub use left::collect;
pub use rest::may_collect;
