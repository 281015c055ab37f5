//! Edits and histories: deltas in bytes and in characters, styles as data, and the definitions of a history: what a revision shows,
//! where a stale insertion goes, what an edit, an undo and a collection make of it, why an edit is refused, what is dropped, what stays
//! and what appears between two revisions, and where carets and styles go.
//!
//! A contract sees every type here as the record or the variants that its declaration shows.
#![tactic(auto)]

mod delta;
mod fault;
mod rank;
mod style;

pub use delta::{Added, Adds, Delta, El, Els, Misfit, UnitDelta};
pub use fault::EditFault;
pub use rank::Rank;
pub use style::{Span, Spans, Style};
