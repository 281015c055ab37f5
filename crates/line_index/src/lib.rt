//! An index of the lines of a rope: a view of a text that looks up what stands before a line in place of walking there, and that an edit
//! changes by the lines that it touches.
//!
//! A contract sees a [`LineIndex`] as its text, its width and its tab width; its pieces are those of the text wrapped so. A [`WholeLines`]
//! is the index of a text that is not wrapped, seen as its characters. [`laws`] says how pieces stand in cuts, and which of these an edit
//! leaves as they are.
#![tactic(auto)]

mod cut;
mod cutting;
mod index;
pub mod laws;
mod offsets;
pub mod rows;
mod touched;
mod tree;
mod whole;
mod wrapped;

pub use cut::Cut;
pub use index::LineIndex;
pub use whole::WholeLines;
