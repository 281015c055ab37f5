//! Laws of collection: what is left of a history without its dropped characters goes along with every step that may come, so that
//! whoever holds it can't be told apart from one that forgot nothing. Each law is the contract of a function; nothing here runs.
#![tactic(auto)]

pub mod laws;
pub mod rows;
