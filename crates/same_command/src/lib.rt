//! Whether two commands are the same, two notes of a shelf, and two entries.
//!
//! To a contract a command is a value without texts in memory, and two are the same exactly where these values are: each call here says so
//! of its own part. The cost is linear in the shorter one.
#![tactic(auto)]

mod act;
mod command;
mod edit_act;
mod list;
mod part;

pub use command::{is_same_command, is_same_entry, is_same_note};
