//! The nodes of a rope: a balanced tree of shared nodes over texts of at most 1,024 bytes.
//!
//! To a contract a `Node` is the texts of its leaves in order and its height; `text_of` is the text that they join to. Each node keeps
//! the [`Lengths`] of its text in every unit.
#![tactic(auto)]

mod chunk;
mod lengths;
mod node;

pub use chunk::Chunk;
pub use lengths::Lengths;
pub use node::Node;
