//! A rope: a text in shared leaves. A copy is a few pointers, and an edit copies one path and shares the rest.
//!
//! To a contract a [`Rope`] is its list of characters, and its [`Chunks`] are the texts of its leaves, which join to it.
#![tactic(auto)]

mod chunks;
mod edit;
mod rope;

pub use chunks::Chunks;
pub use rope::Rope;
