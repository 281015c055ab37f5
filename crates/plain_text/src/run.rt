use crate::list::List;
use crate::memory::{NoMemory, TryClone};
use std::alloc::Global;

/// A run of characters, from `start` up to `end`, which is not included.
#[derive(Clone, Copy, PartialEq, Eq)]
pub struct Run {
    pub start: u64,
    pub end: u64,
}

/// Runs of characters, in order.
pub type Runs = List<Run>;

impl TryClone for Run {
    fn copy(&self, _alloc: Global) -> Result<Run, NoMemory> {
        Ok(*self)
    }
}
