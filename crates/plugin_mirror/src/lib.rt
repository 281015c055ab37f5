//! A plugin's own copy of the texts of its views: it takes the lines that the plugin is given, and asks for what it lacks.
//!
//! To a contract a [`Book`] is the greatest piece, the next id, and the list of its pages in the order of openings, each with what stands
//! beside it: updates that wait, the open ask, the last acknowledgement.
#![tactic(auto)]

mod asks;
mod book;
mod fault;
pub mod laws;
mod leaf;
mod leaves;
mod page;

pub use book::Book;
pub use fault::BookFault;
pub use leaf::Leaf;
pub use page::Page;
