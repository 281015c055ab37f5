ghost use Rattle.std.specs.Prelude.{◌≡◌, ◌≤◌, ◌∷◌, ◌+◌, ◌-◌, ◌^◌, ◌<◌, ◌++◌, [], length, fold, take, drop, IfOk, OnOk};
ghost use Rattle.span_styles.specs.Layers.{LieIn, RiseWithin, spanned_layer, spanned_from};
ghost use Rattle.span_styles.specs.Inner.{styles_in};

use crate::overlay::overlaid;
use crate::run::StyleRuns;
use crate::walk::RunWalk;
use plain_edits::{Span, Spans};
use plain_text::{NoMemory, Run};
use std::alloc::Global;

/// Spans over a range, which is cleared first.
#[derive(Drop)]
pub struct SpannedRange {
    pub range: Run,
    pub spans: Spans,
}

// The styles that one span gives the characters of a range.
fn styled_once(alloc: Global, range: Run, span: Span) -> Result<StyleRuns, NoMemory>
    requires start { range.start ≤ span.start }
    requires ordered { span.start ≤ span.end }
    requires end { span.end ≤ range.end }
    ensures { IfOk result (λ made. made ≡ styles_in range (span ∷ [])) }
{
    let mut made = StyleRuns::unstyled(alloc, span.start - range.start)?;
    made.push(span.end - span.start, Some(span.style))?;
    made.push(range.end - span.end, None)?;
    Ok(made)
}

// The styles that spans give the characters of a range. This costs the spans, as often as their number can be halved.
pub(crate) fn styled(alloc: Global, range: Run, spans: &[Span]) -> Result<StyleRuns, NoMemory>
    requires ordered { range.start ≤ range.end }
    requires within { LieIn range spans.now }
    ensures { IfOk result (λ made. made ≡ styles_in range spans.now) }
{
    match spans {
        [] => StyleRuns::unstyled(alloc, range.end - range.start),
        [span] => styled_once(alloc, range, *span),
        _ => {
            let (earlier, later) = spans.split_at(spans.len() / 2);
            let below = styled(alloc, range, earlier)?;
            let above = styled(alloc, range, later)?;
            overlaid(alloc, &above, &below)
        }
    }
}

// Puts what stands left of a range into a layer, and then the range with these spans; the walk goes on after it.
pub(crate) fn put_range(
    made: &mut StyleRuns,
    rest: &mut RunWalk,
    alloc: Global,
    left: u64,
    range: Run,
    spans: &[Span],
) -> Result<(), NoMemory>
    requires ordered { range.start ≤ range.end }
    requires within { LieIn range spans.now }
    requires inside { left + (range.end - range.start) ≤ length rest.old }
    requires room { length made.old + left + (range.end - range.start) < 2 ^ 64 }
    ensures made { OnOk result (made.new ≡ made.old ++ (take left rest.old ++ styles_in range spans.now)) }
    ensures ahead { OnOk result (rest.new ≡ drop (left + (range.end - range.start)) rest.old) }
{
    let len = range.end - range.start;
    rest.take_into(left, made)?;
    let styles = styled(alloc, range, spans)?;
    let mut walk = styles.walk_from(0);
    walk.take_into(len, made)?;
    rest.skip(len);
    Ok(())
}

// A layer after spans over ranges that rise. This costs its runs and the spans, as often as the number of those of a range can be halved.
pub(crate) fn spanned(
    alloc: Global,
    layer: &StyleRuns,
    ranges: &[SpannedRange],
) -> Result<StyleRuns, NoMemory>
    requires { RiseWithin 0 (length layer.now) ranges.now }
    ensures { IfOk result (λ made. made ≡ fold spanned_layer layer.now ranges.now) }
{
    let len = layer.len();
    let mut made = StyleRuns::new(alloc);
    let mut rest = layer.walk_from(0);
    let mut at = 0;
    for spanned in ranges {
        let range = spanned.range;
        put_range(
            &mut made,
            &mut rest,
            alloc,
            range.start - at,
            range,
            spanned.spans.as_slice(),
        )?;
        at = range.end;
    }
    rest.take_into(len - at, &mut made)?;
    Ok(made)
}
