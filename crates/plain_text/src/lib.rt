//! Texts and lists, which every crate shares, and the definitions on them: places and gaps, byte lengths, logical lines, the lines of
//! an input, and numbers that rise.
//!
//! A contract sees a [`Text`] as its list of characters, a [`List`] as its items, [`Steps`] as a number, and every other type here as
//! the record that its declaration shows.
#![tactic(auto)]

mod list;
mod memory;
mod run;
mod selection;
mod steps;
mod text;

pub use list::List;
pub use memory::{NoMemory, TryClone};
pub use run::{Run, Runs};
pub use selection::{Region, Regions, Sel};
pub use steps::Steps;
pub use text::{Bytes, Offsets, Text, Texts, place_in, split_at_gap};
