ghost use Rattle.std.specs.Prelude.{◌≡◌, ◌≤◌, ◌++◌, List, IfOk};
ghost use Rattle.plain_edits.specs.declared.style.Span.{Span as span_value};
ghost use Rattle.line_render.specs.Inner.{cut_region, onto_any, onto_some, selected_runs};

use plain_edits::{Span, Spans};
use plain_text::{NoMemory, Region, Run};
use std::alloc::Global;

// The runs of what is selected between two gaps, counted from the first.
pub(crate) fn selected_in(
    alloc: Global,
    regions: &[Region],
    start: u64,
    end: u64,
) -> Result<Spans, NoMemory>
    requires { start ≤ end }
    ensures { IfOk result (λ spans. spans ≡ selected_runs start end regions.now) }
{
    let mut spans = Spans::new(alloc);
    let mut last = None;
    for region in regions {
        last = put_run(&mut spans, last, cut(*region, start, end))?;
    }
    if let Some(run) = last {
        spans.push(selected(run))?;
    }
    Ok(spans)
}

// The region as far as it stands between two gaps, counted from the first.
fn cut(region: Region, start: u64, end: u64) -> Run
    requires { start ≤ end }
    ensures { result ≡ cut_region start end region }
{
    let from = region.anchor.min(region.caret).min(end);
    let to = region.anchor.max(region.caret).min(end);
    Run {
        start: from.saturating_sub(start),
        end: to.saturating_sub(start),
    }
}

fn selected(run: Run) -> Span
    ensures { result ≡ record { start = run.start; end = run.end; style = 0 } }
{
    Span {
        start: run.start,
        end: run.end,
        style: 0,
    }
}

// Goes on from the last run, which is put at the end of the list where the next one does not begin at its end. Gives the last one.
fn put_run(spans: &mut Spans, last: Option<Run>, run: Run) -> Result<Option<Run>, NoMemory>
    ensures { IfOk result (λ now. (rest : List span_value) → spans.new ++ onto_some now rest
        ≡ spans.old ++ onto_some last (onto_any run rest)) }
{
    if run.end <= run.start {
        return Ok(last);
    }
    match last {
        None => Ok(Some(run)),
        Some(before) => {
            if before.end == run.start {
                return Ok(Some(Run {
                    start: before.start,
                    end: run.end,
                }));
            }
            spans.push(selected(before))?;
            Ok(Some(run))
        }
    }
}
