//! One balanced tree of shared nodes: a copy is a few pointers, and an edit copies one path and shares the rest.
//!
//! To a contract a `Tree` is its leaves in order and its height, and nearly every clause speaks of its items, which are those of
//! its leaves, one leaf after the other (`items_of`). What an item is, how much a leaf holds, and which sums are kept in each node
//! is said by a `Leaf`; a `Measure` is one number of such a sum, and `find` goes by it.
//!
//! An inner node has 4 to 8 children, and the root 2 to 8. All leaves have one depth, and none is empty. Nothing is written in
//! place, so what a tree shares with another never changes.
#![tactic(auto)]

mod batch;
mod beside;
mod cut;
mod leaf;
mod node;
mod patch;
mod row;
mod seek;
mod shared;
mod tree;
mod walk;

pub use batch::{Batch, Tally};
pub use leaf::{Count, Leaf, Measure, Summary};
pub use node::Node;
pub use tree::Tree;
pub use walk::{Leaves, Walk};
