//! What users may rely on of undo, redo, collection and styles in a document: laws of plain documents, each the contract of a function in [`laws`].
//!
//! They are said of the steps that `doc_session` defines, and of every plain document that a document in memory may stand for.
#![tactic(auto)]

pub mod laws;
pub mod rows;
