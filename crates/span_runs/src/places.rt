ghost use Rattle.std.specs.Prelude.{◌≡◌, ◌-◌, ◌≤◌, length, map, IfOk};
ghost use Rattle.std.specs.Str.{chars};
ghost use Rattle.plain_text.specs.Text.{byte_len, place_of};
ghost use Rattle.span_runs.specs.Places.{RiseUpTo};

use plain_text::{NoMemory, Offsets, place_in};
use std::alloc::Global;

/// The byte offsets of gaps that rise, in a line of so many characters. This goes along the line once, up to the last of them, and takes
/// memory for the gaps alone; a line of one byte a character is not looked at.
pub fn places_of(alloc: Global, line: &str, len: u64, gaps: &[u64]) -> Result<Offsets, NoMemory>
    requires len { len ≡ length (chars line.now) }
    requires rise { RiseUpTo 0 len gaps.now }
    ensures { IfOk result (λ places. places ≡ map (place_of (chars line.now)) gaps.now) }
{
    let mut places = Offsets::new(alloc);
    let mut rest = line;
    let mut at: u64 = 0;
    let mut place: u64 = 0;
    for gap in gaps {
        let step = place_past(rest, len - at, *gap - at);
        place += step;
        places.push(place)?;
        rest = rest.split_at(step as usize).1;
        at = *gap;
    }
    Ok(places)
}

// The place of a gap of a text of so many characters. A text of one byte a character is not looked at.
fn place_past(text: &str, len: u64, gap: u64) -> u64
    requires len { len ≡ length (chars text.now) }
    requires inside { gap ≤ len }
    ensures { result ≡ place_of (chars text.now) gap }
{
    if text.len() as u64 == len {
        gap
    } else {
        place_in(text, gap)
    }
}
