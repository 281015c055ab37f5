use plain_text::{NoMemory, TryClone};
use std::alloc::Global;

/// A piece of a text from one gap to another, which is one line of a layout.
#[derive(Clone, Copy, Debug, PartialEq, Eq)]
pub struct Piece {
    pub start: u64,
    pub end: u64,
    /// The number of the logical line, from 1, on its first piece.
    pub ln: Option<u64>,
}

impl TryClone for Piece {
    fn copy(&self, _alloc: Global) -> Result<Piece, NoMemory> {
        Ok(*self)
    }
}
