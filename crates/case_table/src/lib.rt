//! Tables of names: one text that holds names in rising order, each followed by one space.
//!
//! To a contract `Cases` is the list of its names, each a list of bytes. `find` leads each name to its own row and
//! every other name to none, and `arms!` makes the dispatch from a row to a value. Nothing here takes memory.
#![tactic(auto)]

mod arms;
mod cases;
mod places;

pub use cases::{BadCase, Cases};
