//! Laws of the definitions of a session, and worked rows of sessions and runs. Nothing stands on this crate.
#![tactic(auto)]

pub mod laws;
pub mod plugin_rows;
pub mod rows;
