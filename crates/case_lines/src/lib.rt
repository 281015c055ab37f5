//! Lines of plain files that say cases: lines, words, numbers and texts, as bytes.
//!
//! To a contract a line is its bytes. A line ends with LF, but for the last one, which may end without. A word ends where a space
//! stands. A number is decimal digits below 2^64. A text has `\n` for the end of a line, `\t` for a tab, `\s` for a space and `\\` for
//! a backslash, and all else stands for itself.
#![tactic(auto)]

mod lines;
mod number;
mod quoted;

pub use lines::{Words, content_of, first_line};
pub use number::{number_of, positive_of};
pub use quoted::unquoted;
