//! Spans of styles in the order in which they are shown, and the triples of a line: its styles in bytes, as a front end is told them.
//!
//! To a contract spans and triples are lists, and a line is its characters. A layer is a list of one optional style for each character,
//! and the spans that it shows are its longest runs of one style. Nothing here knows of an edit.
#![tactic(auto)]

mod byte_triples;
mod order;
mod places;
pub mod rows;

pub use byte_triples::triples;
pub use order::in_order;
pub use places::places_of;
