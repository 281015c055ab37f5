//! The undo groups of a document, as a stack.
//!
//! To a contract a [`Stack`] is a record: `live`, the groups that an undo or a redo can reach, oldest first; `index`, how many of
//! them are not undone; `retired`, the other groups that are not forgotten, in order; `undone`, every group that is undone, in
//! order; and `given`, how many groups were given out. Groups count from 1, and at most twenty are live.
#![tactic(auto)]

mod laws;
mod stack;

pub use laws::{opening_ends_redo, redo_takes_undo_back, undo_takes_redo_back};
pub use stack::Stack;
