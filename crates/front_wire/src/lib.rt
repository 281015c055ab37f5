//! What a line of the front end asks.
//!
//! A line is read by the grammar of JSON lines. Its method is found in the table of methods, the members of the method's row are read
//! in their order, and what they give decides the command; what the line alone does not decide, as whether a view is there, is left
//! to the session.
#![tactic(auto)]

mod act;
mod command;
mod config;
mod edit;
pub mod laws;
mod member;
mod method;

pub use command::command_of;
