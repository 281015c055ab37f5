use crate::list::List;
use crate::memory::{NoMemory, TryClone};
use std::alloc::Global;

/// A region of a selection: two gaps, of which the caret moves. The region is a caret alone where they are equal.
#[derive(Clone, Copy, PartialEq, Eq)]
pub struct Region {
    pub anchor: u64,
    pub caret: u64,
    /// The column that moves up and down aim at, if they set one.
    pub goal: Option<u128>,
}

/// Regions, in order.
pub type Regions = List<Region>;

/// The regions of a view.
#[derive(PartialEq, Eq, Drop)]
pub struct Sel {
    pub regions: Regions,
}

impl TryClone for Region {
    fn copy(&self, _alloc: Global) -> Result<Region, NoMemory> {
        Ok(*self)
    }
}

impl TryClone for Sel {
    fn copy(&self, alloc: Global) -> Result<Sel, NoMemory> {
        Ok(Sel {
            regions: self.regions.copy(alloc)?,
        })
    }
}
