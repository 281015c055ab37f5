ghost use Rattle.std.specs.Prelude.{◌≡◌, ◌+◌, ◌-◌, ◌≤◌, ◌&&◌, if◌then◌else◌, nat_le, nat_lt, length, map, IfOk, Some, None};
ghost use Rattle.plain_text.specs.Text.{place_of};
ghost use Rattle.line_render.specs.Rendered.{carets_of};
ghost use Rattle.line_render.specs.Inner.{shown_gaps};

use plain_text::{NoMemory, Offsets, Region, Text};
use span_runs::places_of;
use std::alloc::Global;

// The byte offsets of the carets at the first `gaps` gaps of a line of so many characters that starts at gap `start`. This goes along the
// line once, up to the last of them, and takes memory for the carets alone.
pub(crate) fn cursor_in(
    alloc: Global,
    line: &Text,
    len: u64,
    start: u64,
    gaps: u64,
    regions: &[Region],
) -> Result<Offsets, NoMemory>
    requires len { len ≡ length line.now }
    requires gaps { gaps ≤ length line.now + 1 }
    ensures { IfOk result (λ cursor. cursor ≡ map (place_of line.now) (shown_gaps start gaps 0 (carets_of regions.now))) }
{
    let shown = gaps_in(alloc, start, gaps, regions)?;
    places_of(alloc, line.as_str(), len, shown.as_slice())
}

// The gaps of the carets among the first `gaps`, counted from `start`.
fn gaps_in(alloc: Global, start: u64, gaps: u64, regions: &[Region]) -> Result<Offsets, NoMemory>
    ensures { IfOk result (λ shown. shown ≡ shown_gaps start gaps 0 (carets_of regions.now)) }
{
    let mut shown = Offsets::new(alloc);
    let mut low: u64 = 0;
    for region in regions {
        if let Some(gap) = own_gap(start, gaps, low, region.caret) {
            shown.push(gap)?;
            low = gap + 1;
        }
    }
    Ok(shown)
}

// The caret's gap, counted from `start`, where it is from `low` on among the first `gaps`.
fn own_gap(start: u64, gaps: u64, low: u64, caret: u64) -> Option<u64>
    ensures { result ≡ if nat_le (start + low) caret && nat_lt caret (start + gaps) then Some (caret - start) else None }
{
    if caret < start {
        return None;
    }
    let gap = caret - start;
    if low <= gap && gap < gaps {
        Some(gap)
    } else {
        None
    }
}
