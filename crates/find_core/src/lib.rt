//! Search: all matches of some characters in a text.
//!
//! To a contract a text is its characters, and matches are runs of characters: from the left, and none overlaps the one before. They are
//! looked for in the bytes of UTF-8, by `memchr`, and told in characters.
#![tactic(auto)]

pub mod laws;
pub mod rows;
mod search;

pub use search::matches;
