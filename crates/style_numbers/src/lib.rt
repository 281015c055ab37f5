//! The numbers of a session's styles: which ids the styles of spans have in its table, and which of them are new.
//!
//! To a contract a table is the list of its styles, as in `span_styles`, and ids count from 2.
#![tactic(auto)]

pub mod laws;
mod numbered;

pub use numbered::{Numbered, number_spans};
