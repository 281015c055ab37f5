use plain_text::{List, NoMemory, TryClone};
use std::alloc::Global;

/// How characters look. A member that is `None` says nothing.
#[derive(Clone, Copy, PartialEq, Eq)]
pub struct Style {
    /// A colour as 0xAARRGGBB.
    pub fg_color: Option<u32>,
    pub bg_color: Option<u32>,
    /// A font weight; 400 is regular, 700 is bold.
    pub weight: Option<u32>,
    pub italic: Option<bool>,
    pub underline: Option<bool>,
}

/// A style of the characters from `start` up to `end`, which is not included; `style` is its id.
#[derive(Clone, Copy, PartialEq, Eq)]
pub struct Span {
    pub start: u64,
    pub end: u64,
    pub style: u64,
}

/// Spans, in order.
pub type Spans = List<Span>;

impl TryClone for Style {
    fn copy(&self, _alloc: Global) -> Result<Style, NoMemory> {
        Ok(*self)
    }
}

impl TryClone for Span {
    fn copy(&self, _alloc: Global) -> Result<Span, NoMemory> {
        Ok(*self)
    }
}
