// A range with spans, carried over an edit: as marks of a layer of its own, which the edit moves as it moves every layer. So the spans are
// resolved once, and no part of the range walks over all of them.
ghost use Rattle.std.specs.Prelude.{◌≡◌, ◌^◌, ◌<◌, ◌≤◌, map, IfOk};
ghost use Rattle.plain_edits.specs.UnitDelta.{IsUnitDelta};
ghost use Rattle.span_runs.specs.Spans.{spans_from};
ghost use Rattle.span_styles.specs.Layers.{LieIn, RiseWithin, length_after};
ghost use Rattle.stale_spans.specs.Marks.{carried_marks, marks_of, meaning_of, piece_of};

use plain_edits::{Span, Spans, UnitDelta};
use plain_text::{NoMemory, Run};
use span_styles::{Layers, SpannedRange};
use std::alloc::Global;

/// The range where the edit takes it, as pieces that rise: each is cleared, or gets the style of the last span over it. This costs the
/// spans, as often as their number can be halved, the elements of the edit, and a sort of the pieces.
pub(crate) fn brought(
    alloc: Global,
    units: &UnitDelta,
    spanned: &SpannedRange,
) -> Result<Vec<SpannedRange>, NoMemory>
    requires well_formed { IsUnitDelta units.now }
    requires ordered { spanned.now.range.start ≤ spanned.now.range.end }
    requires inside { spanned.now.range.end ≤ units.now.base }
    requires within { LieIn spanned.now.range spanned.now.spans }
    requires bound { length_after units.now < 2 ^ 64 }
    ensures rise { IfOk result (λ made. RiseWithin 0 (length_after units.now) made.items) }
    ensures pieces { IfOk result (λ made. made.items ≡ map (piece_of (meaning_of spanned.now.spans))
        (spans_from 0 (carried_marks units.now spanned.now.range (marks_of spanned.now.range spanned.now.spans)))) }
{
    let marks = marks_of(alloc, spanned.range, spanned.spans.as_slice())?;
    let carried = carried(alloc, units, spanned.range, marks.as_slice())?;
    pieces(alloc, carried.as_slice(), spanned.spans.as_slice())
}

// The range with mark 0, and over it each span with its number from 1 on.
fn marks_of(alloc: Global, range: Run, spans: &[Span]) -> Result<Spans, NoMemory>
    ensures { IfOk result (λ made. made ≡ marks_of range spans.now) }
{
    let mut made = Spans::new(alloc);
    made.push(mark(range.start, range.end, 0))?;
    for span in spans {
        let number = made.len() as u64;
        made.push(mark(span.start, span.end, number))?;
    }
    Ok(made)
}

fn mark(start: u64, end: u64, number: u64) -> Span
    ensures { result ≡ record { start = start; end = end; style = number } }
{
    Span {
        start,
        end,
        style: number,
    }
}

// The marks after an edit, as the longest runs of one.
fn carried(alloc: Global, units: &UnitDelta, range: Run, marks: &[Span]) -> Result<Spans, NoMemory>
    requires well_formed { IsUnitDelta units.now }
    requires ordered { range.start ≤ range.end }
    requires inside { range.end ≤ units.now.base }
    requires within { LieIn range marks.now }
    requires bound { length_after units.now < 2 ^ 64 }
    ensures { IfOk result (λ made. made ≡ spans_from 0 (carried_marks units.now range marks.now)) }
{
    let bare = Layers::new(alloc, 1, units.base)?;
    let marked = bare.set_range(alloc, 0, range, marks)?;
    let carried = marked.map(alloc, units)?;
    carried.spans(
        alloc,
        Run {
            start: 0,
            end: u64::MAX,
        },
    )
}

// The pieces of marks, where these are the spans that they number.
fn pieces(alloc: Global, marks: &[Span], spans: &[Span]) -> Result<Vec<SpannedRange>, NoMemory>
    ensures { IfOk result (λ made. made.items ≡ map (piece_of (meaning_of spans.now)) marks.now) }
{
    let mut made = Vec::new(alloc);
    for mark in marks {
        made.push(piece(alloc, *mark, spans)?)?;
    }
    Ok(made)
}

fn piece(alloc: Global, mark: Span, spans: &[Span]) -> Result<SpannedRange, NoMemory>
    ensures { IfOk result (λ made. made ≡ piece_of (meaning_of spans.now) mark) }
{
    let mut styled = Spans::new(alloc);
    if let Some(style) = meaning(mark.style, spans) {
        styled.push(Span {
            start: mark.start,
            end: mark.end,
            style,
        })?;
    }
    Ok(SpannedRange {
        range: Run {
            start: mark.start,
            end: mark.end,
        },
        spans: styled,
    })
}

// The style that a mark stands for, if any.
fn meaning(number: u64, spans: &[Span]) -> Option<u64>
    ensures { result ≡ meaning_of spans.now number }
{
    if number == 0 {
        return None;
    }
    match spans.get((number - 1) as usize) {
        Some(span) => Some(span.style),
        None => None,
    }
}
