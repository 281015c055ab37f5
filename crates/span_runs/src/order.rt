ghost use Rattle.std.specs.Prelude.{◌≡◌, IfOk};
ghost use Rattle.span_runs.specs.Spans.{sorted_spans};

use plain_edits::{Span, Spans};
use plain_text::NoMemory;
use std::alloc::Global;

pub(crate) fn copied(alloc: Global, spans: &[Span]) -> Result<Spans, NoMemory>
    ensures { IfOk result (λ made. made ≡ spans.now) }
{
    Ok(Spans::from_vec(spans.iter().copied().collect(alloc)?))
}

/// The spans by their starts, those of one start by their styles, and those by their ends. The sort takes memory.
pub fn in_order(spans: Spans) -> Result<Spans, NoMemory>
    ensures { IfOk result (λ sorted. sorted ≡ sorted_spans spans) }
{
    let mut sorted = spans.into_vec();
    sorted.sort_by_key(|span| (span.start, span.style, span.end))?;
    Ok(Spans::from_vec(sorted))
}
