ghost use Rattle.std.specs.Prelude.{◌≡◌, ◌-◌, ◌<◌, ◌≤◌, ◌^◌, pos, ◌-ℤ◌, length, map, IfOk};
ghost use Rattle.std.specs.List.{Contains};
ghost use Rattle.std.specs.List.Sorted.{IsNonDecreasing, IsPermutation};
ghost use Rattle.plain_text.specs.Text.{byte_len, place_of};
ghost use Rattle.span_runs.specs.Spans.{sorted_spans};
ghost use Rattle.span_runs.specs.Places.{ends_of, HasEnds};
ghost use Rattle.span_runs.specs.Triples.{LieInLine, triples_after, triples_of};

use crate::order::{copied, in_order};
use crate::places::places_of;
use plain_edits::Span;
use plain_screen::{Triple, Triples};
use plain_text::{NoMemory, Offsets, Text};
use std::alloc::Global;

/// The triples of spans in a line, which may come in any order. This costs the line once, and a sort of the spans and of their ends; nothing
/// where there are none. It takes memory for the spans alone.
pub fn triples(alloc: Global, line: &Text, spans: &[Span]) -> Result<Triples, NoMemory>
    requires { LieInLine (length line.now) spans.now }
    ensures { IfOk result (λ made. made ≡ triples_of line.now spans.now) }
{
    if spans.is_empty() {
        return Ok(Triples::new(alloc));
    }
    let sorted = in_order(copied(alloc, spans)?)?;
    placed(alloc, line, sorted.as_slice())
}

// The triples of spans that stand in order.
fn placed(alloc: Global, line: &Text, sorted: &[Span]) -> Result<Triples, NoMemory>
    requires { LieInLine (length line.now) sorted.now }
    ensures { IfOk result (λ made. made ≡ triples_after line.now 0 sorted.now) }
{
    let gaps = ends_of(alloc, sorted)?;
    let len = line.char_count();
    let places = places_of(alloc, line.as_str(), len, gaps.as_slice())?;
    in_sequence(alloc, line, gaps.as_slice(), places.as_slice(), sorted)
}

// The gaps at which spans start and end, in rising order.
fn ends_of(alloc: Global, spans: &[Span]) -> Result<Offsets, NoMemory>
    ensures same { IfOk result (λ gaps. IsPermutation (ends_of spans.now) gaps) }
    ensures rise { IfOk result (λ gaps. IsNonDecreasing gaps) }
{
    let mut gaps = Vec::new(alloc);
    for span in spans {
        gaps.push(span.start)?;
        gaps.push(span.end)?;
    }
    gaps.sort_unstable();
    Ok(Offsets::from_vec(gaps))
}

// The byte offset of one of these gaps, in O(log gaps).
fn place_at(line: &Text, gaps: &[u64], places: &[u64], gap: u64) -> u64
    requires rise { IsNonDecreasing gaps.now }
    requires has { Contains gaps.now gap }
    requires places { places.now ≡ map (place_of line.now) gaps.now }
    ensures place { result ≡ place_of line.now gap }
    ensures inside { result ≤ byte_len line.now }
{
    let at = gaps.partition_point(|other| *other < gap);
    places[at]
}

// The same, where these gaps are their ends and these the places of the gaps.
fn in_sequence(
    alloc: Global,
    line: &Text,
    gaps: &[u64],
    places: &[u64],
    sorted: &[Span],
) -> Result<Triples, NoMemory>
    requires inside { LieInLine (length line.now) sorted.now }
    requires rise { IsNonDecreasing gaps.now }
    requires ends { HasEnds gaps.now sorted.now }
    requires places { places.now ≡ map (place_of line.now) gaps.now }
    requires small { byte_len line.now < 2 ^ 63 }
    ensures { IfOk result (λ made. made ≡ triples_after line.now 0 sorted.now) }
{
    let mut made = Triples::new(alloc);
    let mut end: u64 = 0;
    for span in sorted {
        let start = place_at(line, gaps, places, span.start);
        let next = place_at(line, gaps, places, span.end);
        made.push(triple(end, start, next, span.style))?;
        end = next;
    }
    Ok(made)
}

// The triple of a style from one byte to another, where the span before it ends at byte `end`.
fn triple(end: u64, start: u64, next: u64, id: u64) -> Triple
    requires end { end < 2 ^ 63 }
    requires start { start < 2 ^ 63 }
    requires ordered { start ≤ next }
    ensures { result ≡ record { start = pos start -ℤ pos end; len = next - start; id = id } }
{
    Triple {
        start: start as i64 - end as i64,
        len: next - start,
        id,
    }
}
