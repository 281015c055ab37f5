ghost use Rattle.std.specs.Prelude.{◌≡◌, ◌+◌, ◌<◌, ◌≤◌, None, true, length, IfOk};
ghost use Rattle.std.specs.Str.{all_scalars, chars};
ghost use Rattle.plain_screen.specs.View.{line_under};
ghost use Rattle.cluster_core.specs.Plain.{is_apart, is_plain_character};
ghost use Rattle.movement_core.specs.Nearby.{EndsPast, IsStretchOf, StartsBy, are_apart, first_apart};

use cluster_core::laws::plain_stand_alone;
use plain_screen::TextView;
use plain_text::{NoMemory, Text};
use std::alloc::Global;

/// How many characters are looked through at a time.
const STEP: u64 = 256;

/// Some characters of a logical line, and the gap where they start.
#[derive(Drop)]
pub(crate) struct Stretch {
    pub(crate) start: u64,
    pub(crate) text: Text,
}

fn is_plain(c: char) -> bool
    ensures { result ≡ is_plain_character c }
{
    c == '\t' || (' ' <= c && c <= '~')
}

fn is_apart(c: char) -> bool
    ensures { result ≡ is_apart c }
{
    is_plain(c) || c == '\n' || c == '\r'
}

/// Whether a cluster ends between two characters, whatever stands beside them; `None` where there is no first one.
fn are_apart(last: Option<char>, c: char) -> bool
    ensures { result ≡ are_apart last c }
{
    match last {
        Some(last) => is_plain(last) && is_apart(c),
        None => false,
    }
}

/// The first gap of a text between two characters that are apart.
fn first_apart(text: &str) -> Option<u64>
    ensures { result ≡ first_apart None 0 (chars text.now) }
{
    let mut at: u64 = 0;
    let mut last = None;
    for c in text.chars() {
        if are_apart(last, c) {
            return Some(at);
        }
        last = Some(c);
        at += 1;
    }
    None
}

/// A gap not right of this one from which on the line that starts at `start` has its own clusters.
fn start_by<T: TextView>(alloc: Global, view: &T, start: u64, gap: u64) -> Result<u64, NoMemory>
    requires ordered { start ≤ gap }
    requires inside { gap ≤ length (T.text_of view.now) }
    ensures { IfOk result (StartsBy (T.text_of view.now) start gap) }
{
    let mut high = gap;
    loop {
        let low = start.max(high.saturating_sub(STEP));
        let part = view.text(alloc, low, high)?;
        if let Some(at) = first_apart(part.as_str()) {
            return Ok(low + at);
        }
        if low == start {
            return Ok(start);
        }
        high = low + 1;
    }
}

/// A gap right of this one up to which the line that ends at `end` has its own clusters.
fn end_past<T: TextView>(alloc: Global, view: &T, gap: u64, end: u64) -> Result<u64, NoMemory>
    requires ordered { gap ≤ end }
    requires inside { end ≤ length (T.text_of view.now) }
    ensures { IfOk result (EndsPast (T.text_of view.now) gap end) }
{
    let mut low = gap;
    loop {
        let high = low + STEP.min(end - low);
        let part = view.text(alloc, low, high)?;
        if let Some(at) = first_apart(part.as_str()) {
            return Ok(low + at);
        }
        if high == end {
            return Ok(end);
        }
        low = high - 1;
    }
}

/// The clusters of a line between two gaps, and no more beside them than to where plain characters stand.
pub(crate) fn text_around<T: TextView>(
    alloc: Global,
    view: &T,
    line: u64,
    from: u64,
    to: u64,
) -> Result<Stretch, NoMemory>
    requires characters { all_scalars (T.text_of view.now) ≡ true }
    requires line { line < length (T.pieces_of view.now) }
    requires start { (line_under (T.text_of view.now) (T.pieces_of view.now) line).start ≤ from }
    requires ordered { from ≤ to }
    requires end { to ≤ (line_under (T.text_of view.now) (T.pieces_of view.now) line).start
        + length (line_under (T.text_of view.now) (T.pieces_of view.now) line).text }
    ensures { IfOk result (IsStretchOf (line_under (T.text_of view.now) (T.pieces_of view.now) line) from to) }
{
    plain_stand_alone();
    let own = view.logical_of(line);
    let start = start_by(alloc, view, own.start, from)?;
    let end = end_past(alloc, view, to, own.end)?;
    let text = view.text(alloc, start, end)?;
    Ok(Stretch { start, text })
}
