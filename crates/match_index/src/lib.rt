//! An index of the matches of some characters in a rope: a search that is kept, and that an edit makes anew around itself alone.
//!
//! To a contract a [`Matches`] is a text, the characters that are looked for in it, and whether case counts; its runs are the matches of
//! the characters in the text, from the left. They stand in a tree of strides: how far each match ends behind the one before.
#![tactic(auto)]

mod edit;
mod joined;
mod kept;
pub mod laws;
mod matches;
mod search;
mod stride;
mod tree;

pub use matches::Matches;
