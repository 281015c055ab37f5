use plain_edits::Style;
use plain_text::{List, NoMemory, TryClone};
use std::alloc::Global;

/// A style of a part of a text, as a plugin gives it: in bytes, from an offset that stands beside it.
#[derive(Clone, Copy, PartialEq, Eq)]
pub struct WireSpan {
    pub start: u64,
    pub end: u64,
    pub style: Style,
}

/// Spans of a plugin, in order.
pub type WireSpans = List<WireSpan>;

impl TryClone for WireSpan {
    fn copy(&self, _alloc: Global) -> Result<WireSpan, NoMemory> {
        Ok(*self)
    }
}
