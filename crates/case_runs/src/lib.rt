//! What tables of tests of runs share: lines of a front end with what they write, and what a journal tells in short.
//!
//! To a contract a list of texts is the bytes of each in UTF-8, and a journal the list of its entries. No test stands here: the tables do.
#![tactic(auto)]

mod five;
mod found;
mod told;
mod usual;

pub use five::{FIVE_LINES, FIVE_PIECES};
pub use found::is_so;
pub use told::{callers, joined};
pub use usual::{USUAL, USUAL_WRITES};
