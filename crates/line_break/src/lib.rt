//! Wrapping: where the pieces of a logical line end, for a width and a tab width.
//!
//! To a contract a line is its characters, and its breaks are gaps: the ends of its pieces. A piece ends at the greatest candidate that
//! fits, or else at the greatest cluster's end that fits, or else at the first one; a candidate is the line's end, or a cluster's end
//! directly after a space, a tab or `-`. The columns of a piece are those of `cluster_core` from its start, up to its line end, which is CR LF
//! or LF, and the blanks before that.
//!
//! [`breaks`] walks: a cluster is looked at a constant number of times, whatever the width, so its time is O(characters of the line).
#![tactic(auto)]

pub mod laws;
mod line;
mod plain;
pub mod rows;
mod tail;
mod wrap;

pub use wrap::breaks;
