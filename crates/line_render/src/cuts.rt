ghost use Rattle.std.specs.Prelude.{◌≡◌, ◌≤◌, ◌++◌, [], ◌∷◌, OnOk};
ghost use Rattle.line_render.specs.Rendered.{cut_spans};

use plain_edits::{Span, Spans};
use plain_text::NoMemory;

// Puts spans at the end of the list, as far as they stand between two gaps, counted from the first.
pub(crate) fn put_cuts(
    list: &mut Spans,
    spans: &[Span],
    start: u64,
    end: u64,
) -> Result<(), NoMemory>
    ensures { OnOk result (list.new ≡ list.old ++ cut_spans start end spans.now) }
{
    for span in spans {
        put_cut(list, *span, start, end)?;
    }
    Ok(())
}

fn put_cut(list: &mut Spans, span: Span, start: u64, end: u64) -> Result<(), NoMemory>
    ensures { OnOk result (list.new ≡ list.old ++ cut_spans start end (span ∷ [])) }
{
    let from = span.start.max(start);
    let to = span.end.min(end);
    if to <= from {
        return Ok(());
    }
    list.push(Span {
        start: from - start,
        end: to - start,
        style: span.style,
    })
}
