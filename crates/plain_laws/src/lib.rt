//! Laws and worked rows of the definitions, each the contract of a function. Nothing stands on this crate.
#![tactic(auto)]

pub mod history_laws;
pub mod history_rows;
pub mod laws;
pub mod rows;
pub mod view_laws;
pub mod view_rows;
