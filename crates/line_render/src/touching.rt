ghost use Rattle.std.specs.Prelude.{◌≡◌};
ghost use Rattle.std.specs.List.Sorted.{IsNonDecreasingBy};
ghost use Rattle.selection_core.specs.Selection.{IsSelection};
ghost use Rattle.line_render.specs.Inner.{touching_regions, touching_spans};

use plain_edits::Span;
use plain_text::Region;

// The regions that touch what stands between two gaps, by two searches.
pub(crate) fn regions_touching(regions: &[Region], start: u64, end: u64) -> &[Region]
    requires { IsSelection regions.now }
    ensures { result.now ≡ touching_regions start end regions.now }
{
    let first = regions.partition_point(|region| region.anchor.max(region.caret) < start);
    let rest = regions.split_at(first).1;
    let count = rest.partition_point(|region| region.anchor.min(region.caret) <= end);
    rest.split_at(count).0
}

// The spans that may have a character between two gaps, by two searches.
pub(crate) fn spans_touching(spans: &[Span], start: u64, end: u64) -> &[Span]
    requires starts { IsNonDecreasingBy (λ span. span.start) spans.now }
    requires ends { IsNonDecreasingBy (λ span. span.end) spans.now }
    ensures { result.now ≡ touching_spans start end spans.now }
{
    let first = spans.partition_point(|span| span.end <= start);
    let rest = spans.split_at(first).1;
    let count = rest.partition_point(|span| span.start < end);
    rest.split_at(count).0
}
