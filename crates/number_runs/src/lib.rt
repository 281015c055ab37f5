//! Sets of numbers that mostly follow one another, as runs.
//!
//! To a contract a set is the rising list of its numbers.
#![tactic(auto)]

mod run;
mod set;

pub use set::NumberRuns;
