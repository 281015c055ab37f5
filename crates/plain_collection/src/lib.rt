//! The slow program of collection: when a floor is clean and a group at rest, what is collected, dropped and kept, and what would be
//! visible under a set of undone groups.
//!
//! It stands on the plain history: a contract sees a [`PlainHistory`](plain_history::PlainHistory) as the record `History` and a
//! [`Collection`] as the record `Collection` of `plain_edits`. Every call answers what the definition of its name says, by the
//! shortest way that anyone can read.
#![tactic(auto)]

mod choice;
mod dropped;
mod floors;
mod rest;
mod under;

pub use choice::{Collection, collection_of};
pub use dropped::{is_dropped, kept};
pub use floors::{clean_floor, is_clean};
pub use rest::{is_at_rest, may_collect};
pub use under::{is_visible_under, text_under};
