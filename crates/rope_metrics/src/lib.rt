//! Offsets of a rope in each unit: how long a node's text is, where one offset stands in another unit, and the greatest gap within an
//! offset, in the time of the height.
//!
//! To a contract an offset of a measure is a cut of the text in two: its front is as long as the offset says.
#![tactic(auto)]

mod gap;
mod line;
mod measure;
mod offset;
mod plain;

pub use gap::gap_within;
pub use line::{InLine, convert_both, in_line};
pub use measure::Measure;
pub use offset::{convert, total};
