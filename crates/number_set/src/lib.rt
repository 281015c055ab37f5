//! Sets of numbers whose copies share all that they do not change.
//!
//! To a contract a set is the rising list of its numbers.
#![tactic(auto)]

mod set;

pub use set::NumberSet;
