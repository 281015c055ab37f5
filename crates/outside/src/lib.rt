//! The outside: where bytes come from, and where they go.
//!
//! To a contract a `Source` is the bytes that it has left, and a `Sink` the bytes that it holds, where they tell;
//! each also has a count of its faults. The sources and sinks in memory tell everything, and those over standard
//! input and output tell nothing but their count.
#![tactic(auto)]

mod calm_shelf;
mod calm_sink;
mod calm_source;
mod file_fault;
mod file_shelf;
mod gate;
pub mod laws;
mod mem_shelf;
mod mem_sink;
mod mem_source;
mod reading;
mod saving;
mod schedule;
mod shelf;
mod sink;
mod source;
mod std_sink;
mod std_source;

pub use calm_shelf::CalmShelf;
pub use calm_sink::CalmSink;
pub use calm_source::CalmSource;
pub use file_shelf::FileShelf;
pub use gate::{FreeGate, Gate, Point};
pub use mem_shelf::MemShelf;
pub use mem_sink::MemSink;
pub use mem_source::MemSource;
pub use shelf::{Shelf, Shelved, Stored};
pub use sink::{Pushed, Sink};
pub use source::{Pulled, Source};
pub use std_sink::StdSink;
pub use std_source::StdSource;
