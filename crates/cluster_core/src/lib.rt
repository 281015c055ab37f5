//! Clusters of one logical line: where they end, how many columns they take, and the classes of characters.
//!
//! To a contract a line is its bytes, and where it speaks of gaps its characters. Its clusters are the extended grapheme clusters of
//! `unicode_segmentation`, its boundaries are the line's start and the end of each cluster, and the width of a cluster is that of
//! `unicode_width`. Offsets count bytes, gaps count characters.
//!
//! [`clusters`], [`columns`] and a whole [`Walk`] take the time of the line, [`columns_between`] that of the line up to its second gap.
//! [`next`] and [`prev`] look from the offset: over the cluster there, and back over one run of regional indicators or of marks where a
//! rule asks for it. Only [`clusters`] takes memory.
#![tactic(auto)]

mod boundaries;
mod classes;
mod first;
pub mod laws;
pub mod rows;
mod walk;
mod widths;

pub use boundaries::{clusters, next, prev};
pub use classes::{Class, class_of};
pub use walk::{Placed, Walk};
pub use widths::{columns, columns_between};
