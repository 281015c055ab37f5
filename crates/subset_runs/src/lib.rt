//! Subsets of the positions of a text, kept as runs.
//!
//! To a contract a `Subset` is a list of flags, one for each position in order: true for a member. Its `length` is that of the
//! text, and `members` is the rising list of the members; `laws::members_and_length` says that the flags are no more than these
//! two. A `Walk` is the flags that are still ahead.
//!
//! A text has at most 2^64 - 1 positions. Every transform takes the time of the runs of its operands, whatever the length;
//! `len` and `count` take O(1), and `contains` takes the logarithm of the number of runs.
#![tactic(auto)]

mod fault;
pub mod laws;
mod ranges;
mod steps;
mod stretch;
mod subset;
mod walk;

pub use fault::SubsetFault;
pub use stretch::Stretch;
pub use subset::Subset;
pub use walk::Walk;
