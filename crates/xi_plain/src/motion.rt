use plain_text::{NoMemory, TryClone};
use std::alloc::Global;

/// Where a command moves a caret.
#[derive(Clone, Copy, Debug, PartialEq, Eq)]
pub enum Motion {
    Left,
    Right,
    Up,
    Down,
    WordLeft,
    WordRight,
    LineStart,
    LineEnd,
    TextStart,
    TextEnd,
}

/// What a gesture at a place selects.
#[derive(Clone, Copy, Debug, PartialEq, Eq)]
pub enum Touch {
    /// A caret there, and nothing else.
    Point,
    /// A caret there more or less.
    Toggle,
    /// What stands from the last region to there.
    Range,
    /// The word there.
    Word,
    /// The line there.
    Line,
}

impl TryClone for Motion {
    fn copy(&self, _alloc: Global) -> Result<Motion, NoMemory> {
        Ok(*self)
    }
}

impl TryClone for Touch {
    fn copy(&self, _alloc: Global) -> Result<Touch, NoMemory> {
        Ok(*self)
    }
}
