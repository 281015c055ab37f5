//! The table of methods: what a front end may send, with which members.
//!
//! To a contract there are two lists of methods, each a name with its members in order: those that a line names, and those that
//! `edit` names. The calls give exactly these lists, a name by a table and a member by its place, and take no memory.
#![tactic(auto)]

mod member;
mod members;
mod names;
mod rows;

pub use member::{Kind, Member};
pub use names::{EDIT_METHODS, FRONT_METHODS, edit_cases, front_cases};
pub use rows::{edit_member, front_member};
