// Offsets of a text about one logical line, each found by one way down where one leaf has them.
ghost use Rattle.std.specs.Prelude.{◌≡◌, ◌+◌, ◌*◌, ◌^◌, ◌<◌, ◌≤◌, ◌↔◌, length, None, IfNone, IfSome};
ghost use Rattle.rope_node.specs.Node.{text_of};
ghost use Rattle.rope_metrics.specs.Measure.{HasNone, IsConverted};
ghost use Rattle.rope_metrics.specs.declared.measure.Measure.TheVariants.{Bytes, Chars, Lines};

use crate::Measure;
use crate::offset::{chunk_at, convert, in_chunk, total};
use plain_text::Steps;
use rope_node::Node;
use shared_tree::{Leaf, Measure as _};
use std::sync::ledger::Ledger;

/// Where a gap stands in its logical line.
#[derive(Drop)]
pub struct InLine {
    /// How many LFs stand left of the gap: the line's index, counted from 0.
    pub line: u64,
    /// Where the line starts, in bytes.
    pub start: u64,
    /// Where the gap is, in bytes.
    pub place: u64,
}

/// Where a gap stands in its logical line; `None` where there is no such gap. It takes no memory and costs what [`crate::convert`] does, and as
/// much again where the line starts in another leaf.
pub fn in_line<L: Ledger>(node: &Node, gap: u64, steps: &mut Steps<L>) -> Option<InLine>
    ensures line { IfSome result (λ at. IsConverted Chars Lines (text_of node.now) gap at.line) }
    ensures start { IfSome result (λ at. IsConverted Lines Bytes (text_of node.now) at.line at.start) }
    ensures place { IfSome result (λ at. IsConverted Chars Bytes (text_of node.now) gap at.place) }
    ensures none { IfNone result (HasNone Chars (text_of node.now) gap) }
    ensures steps { steps.new ≤ steps.old + 2 * (node.now.height + 1) }
{
    if gap == 0 {
        return Some(InLine {
            line: 0,
            start: 0,
            place: 0,
        });
    }
    if gap > total(node, Measure::Chars) {
        return None;
    }
    let (chunk, before) = chunk_at(node, Measure::Chars, gap, steps);
    let line = in_chunk(chunk, Measure::Chars, Measure::Lines, gap, &before)?;
    let place = in_chunk(chunk, Measure::Chars, Measure::Bytes, gap, &before)?;
    let start = if before.lines < line {
        in_chunk(chunk, Measure::Lines, Measure::Bytes, line, &before)?
    } else {
        convert(node, Measure::Lines, Measure::Bytes, line, steps)?
    };
    Some(InLine { line, start, place })
}

/// The offsets in another measure of the first gap that has this one, and of the first that has one more; each is `None` where there is no
/// such gap. It takes no memory and costs what [`crate::convert`] does, and as much again where the second stands in another leaf.
pub fn convert_both<L: Ledger>(
    node: &Node,
    from: Measure,
    to: Measure,
    at: u64,
    steps: &mut Steps<L>,
) -> (Option<u64>, Option<u64>)
    requires room { at + 1 < 2 ^ 64 }
    ensures first { IfSome result.0 (λ offset. IsConverted from to (text_of node.now) at offset) }
    ensures no_first { IfNone result.0 (HasNone from (text_of node.now) at) }
    ensures second { IfSome result.1 (λ offset. IsConverted from to (text_of node.now) (at + 1) offset) }
    ensures no_second { IfNone result.1 (HasNone from (text_of node.now) (at + 1)) }
    ensures steps { steps.new ≤ steps.old + 2 * (node.now.height + 1) }
{
    if at == 0 || at > total(node, from) {
        let first = convert(node, from, to, at, steps);
        return (first, convert(node, from, to, at + 1, steps));
    }
    let (chunk, before) = chunk_at(node, from, at, steps);
    let first = in_chunk(chunk, from, to, at, &before);
    let second = if at < from.width(&before) + from.width(&chunk.summary()) {
        in_chunk(chunk, from, to, at + 1, &before)
    } else {
        convert(node, from, to, at + 1, steps)
    };
    (first, second)
}
