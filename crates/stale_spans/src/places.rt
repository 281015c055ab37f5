// Byte offsets of a text, in characters: each costs the height of the rope, and the text is not walked over.
ghost use Rattle.std.specs.Prelude.{◌≡◌, ◌+◌, ◌<◌, ◌≤◌, if◌then◌else◌, map, true, not, length, None, Some, IfOk, IfErr, OnOk};
ghost use Rattle.std.specs.List.{list_all};
ghost use Rattle.plain_text.specs.Text.{gap_at};
ghost use Rattle.span_styles.specs.Layers.{LieIn};
ghost use Rattle.stale_spans.specs.Places.{StandIn, is_span_placed, meant_range, meant_span, misplaced};
ghost use Rattle.stale_spans.specs.Refused.{IsRefused};
ghost use Rattle.stale_spans.specs.declared.fault.Misplaced.TheVariants as Members;

use crate::{AskedSpans, Misplaced, SpansFault};
use plain_edits::{Span, Spans};
use plain_text::{Run, Steps};
use rope_metrics::{Measure, convert};
use rope_tree::Rope;
use span_styles::SpannedRange;
use std::alloc::Global;
use std::marker::Brand;
use std::sync::ledger::{Blank, Ledger};

/// The range and its spans in characters of the text, or what of them is no place.
pub(crate) fn placed(
    alloc: Global,
    text: &Rope,
    asked: &AskedSpans,
) -> Result<SpannedRange, SpansFault>
    requires { StandIn asked.now.len asked.now.spans }
    ensures meant { IfOk result (λ made. made ≡ meant_range text.now asked.now.start asked.now.len asked.now.spans) }
    ensures ordered { IfOk result (λ made. made.range.start ≤ made.range.end) }
    ensures inside { IfOk result (λ made. made.range.end ≤ length text.now) }
    ensures within { IfOk result (λ made. LieIn made.range made.spans) }
    ensures accepted { OnOk result (misplaced text.now asked.now.start asked.now.len asked.now.spans ≡ None) }
    ensures refused { IfErr result (IsRefused (misplaced text.now asked.now.start asked.now.len asked.now.spans)) }
{
    let Some(start) = gap_at(text, asked.start) else {
        return Err(SpansFault::Misplaced(Misplaced::Start));
    };
    let Some(end) = gap_past(text, asked.start, asked.len) else {
        return Err(SpansFault::Misplaced(Misplaced::Len));
    };
    let spans = placed_spans(alloc, text, asked.start, asked.spans.as_slice())?;
    Ok(SpannedRange {
        range: Run { start, end },
        spans,
    })
}

// The spans in characters, or that an end of one is no place.
fn placed_spans(alloc: Global, text: &Rope, from: u64, spans: &[Span]) -> Result<Spans, SpansFault>
    ensures meant { IfOk result (λ made. made ≡ map (meant_span text.now from) spans.now) }
    ensures accepted { OnOk result (list_all (is_span_placed text.now from) spans.now ≡ true) }
    ensures refused { IfErr result (IsRefused
        (if list_all (is_span_placed text.now from) spans.now then None else Some Members.Spans)) }
{
    let mut made = Spans::new(alloc);
    for span in spans {
        let Some(placed) = placed_span(text, from, *span) else {
            return Err(SpansFault::Misplaced(Misplaced::Spans));
        };
        made.push(placed)?;
    }
    Ok(made)
}

// A span in characters, if its ends are places.
fn placed_span(text: &Rope, from: u64, span: Span) -> Option<Span>
    ensures { result ≡ (if is_span_placed text.now from span then Some (meant_span text.now from span) else None) }
{
    let start = gap_past(text, from, span.start)?;
    let end = gap_past(text, from, span.end)?;
    Some(Span {
        start,
        end,
        style: span.style,
    })
}

// The gap so many bytes past an offset, if that is a place.
fn gap_past(text: &Rope, from: u64, more: u64) -> Option<u64>
    ensures { result ≡ gap_at text.now (from + more) }
{
    let _bytes = text.byte_len();
    match from.checked_add(more) {
        Some(at) => gap_at(text, at),
        None => None,
    }
}

/// The gap whose place is this byte offset, if the offset is a place; it costs the height of the rope.
pub fn gap_at(text: &Rope, at: u64) -> Option<u64>
    ensures { result ≡ gap_at text.now at }
{
    gap_by::<Brand>(text, at, Blank::new(1))
}

fn gap_by<L: Ledger>(text: &Rope, at: u64, blank: Blank) -> Option<u64>
    requires blank { (blank.name ≡ L.name) × ((blank.parts ≡ L.parts) × (0 < blank.parts)) }
    ensures { result ≡ gap_at text.now at }
{
    let mut steps = Steps::<L>::new(blank);
    convert(text.node(), Measure::Bytes, Measure::Chars, at, &mut steps)
}
