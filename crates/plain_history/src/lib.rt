//! The plain history: a slow program that is the definition.
//!
//! A history is the flat list of tagged characters, which never shrinks, and the list of revisions. Every call here answers what the
//! definitions of `plain_edits` say, by the shortest way that anyone can read; no call is fast. A contract sees a [`PlainHistory`] as
//! the record `History`, a [`Tagged`] as the record `Tagged`, and a [`Revision`] as the data `Revision` of those definitions.
#![tactic(auto)]

mod collection;
mod deltas;
mod edit;
mod history;
mod merging;
mod place;
mod revision;
mod tagged;
mod undo;
mod unit_edit;
mod visible;

pub use deltas::misfit;
pub use history::PlainHistory;
pub use merging::merged;
pub use plain_edits::EditFault;
pub use revision::Revision;
pub use tagged::Tagged;
pub use unit_edit::UnitEdit;
pub use visible::{group_of, has, is_undone, is_visible, undone};
