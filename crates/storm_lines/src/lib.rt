//! The lines of a storm that anyone can type again, and the words that ask for a run.
//!
//! To a contract the lines of a storm are a list that two numbers determine, and [`StormSource`] is the list of the bytes that are left.
//! `specs/Lines.antt` says the lines, `specs/Summary.antt` the six lines that are told of a storm and how they are read, and `specs/Forms.antt`
//! which words ask for what.
#![tactic(auto)]

mod form;
pub mod laws;
mod line;
mod source;
mod summary;

pub use form::{Form, form_of};
pub use line::StormLine;
pub use source::StormSource;
pub use summary::Summary;
