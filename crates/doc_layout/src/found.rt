// What a search found, as spans.
ghost use Rattle.std.specs.Prelude.{◌≡◌, map, IfOk};
ghost use Rattle.line_render.specs.Inner.{styled_span};
ghost use Rattle.match_index.specs.Found.{runs_in, touching};

use match_index::Matches;
use plain_edits::{Span, Spans};
use plain_text::{NoMemory, Run};
use std::alloc::Global;

// The results that have a character of a run, where those that touch are one. This costs their number, and where there is none a look at the
// number of all.
pub(crate) fn found_in(alloc: Global, results: &Matches, range: Run) -> Result<Spans, NoMemory>
    ensures { IfOk result (λ spans. spans ≡ map (styled_span 1) (touching range (runs_in results.now))) }
{
    let found = results.touching(alloc, range)?;
    spans_of(alloc, found.as_slice())
}

fn spans_of(alloc: Global, runs: &[Run]) -> Result<Spans, NoMemory>
    ensures { IfOk result (λ spans. spans ≡ map (styled_span 1) runs.now) }
{
    let mut spans = Spans::new(alloc);
    for run in runs {
        spans.push(span_of(*run))?;
    }
    Ok(spans)
}

fn span_of(run: Run) -> Span
    ensures { result ≡ styled_span 1 run }
{
    Span {
        start: run.start,
        end: run.end,
        style: 1,
    }
}
