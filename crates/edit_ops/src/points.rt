ghost use Rattle.std.specs.Prelude.{◌≡◌, ◌+◌, ◌≤◌, min, true, length, IfOk};
ghost use Rattle.std.specs.Str.{all_scalars, chars};
ghost use Rattle.selection_core.specs.Selection.{greater_end};
ghost use Rattle.movement_core.specs.Lines.{StartAtPlaces};
ghost use Rattle.edit_ops.specs.Inner.{gaps_within};
ghost use Rattle.edit_ops.specs.Points.{gap_of_point, line_around, word_around};

use crate::editing::sum;
use movement_core::{last_gap, outward_left, piece_at, run_left, run_right, text_end};
use plain_screen::TextView;
use plain_text::{NoMemory, Region};
use std::alloc::Global;

/// The gap of a point: a layout line, from 0, and a byte offset in it. This reads the layout line up to the offset, and the boundary
/// there.
pub(crate) fn point<T: TextView>(
    alloc: Global,
    view: &T,
    line: u64,
    column: u64,
) -> Result<u64, NoMemory>
    requires characters { all_scalars (T.text_of view.now) ≡ true }
    requires starts { StartAtPlaces (T.text_of view.now) (T.pieces_of view.now) }
    ensures value { IfOk result (λ gap. gap ≡ gap_of_point (T.text_of view.now) (T.pieces_of view.now) line column) }
    ensures inside { IfOk result (λ gap. gap ≤ length (T.text_of view.now)) }
{
    let end = text_end(view);
    if line >= view.lines() {
        return Ok(end);
    }
    let start = piece_at(view, line).start;
    let to = last_gap(view, line).min(start.saturating_add(column));
    let text = view.text(alloc, start, to)?;
    let gaps = gaps_within(text.as_str(), column);
    outward_left(alloc, view, start + gaps)
}

// How many of the first characters of a text take at most so many bytes together.
fn gaps_within(text: &str, bytes: u64) -> u64
    ensures { result ≡ gaps_within bytes (chars text.now) }
{
    let mut gaps: u64 = 0;
    let mut left = bytes;
    for c in text.chars() {
        let width = c.len_utf8() as u64;
        if left < width {
            return gaps;
        }
        left -= width;
        gaps += 1;
    }
    gaps
}

/// The word at a gap. This reads at most twice its characters, or a first part.
pub(crate) fn word_at<T: TextView>(alloc: Global, view: &T, gap: u64) -> Result<Region, NoMemory>
    ensures value { IfOk result (λ word. word ≡ word_around (T.text_of view.now) gap) }
    ensures inside { IfOk result (λ word. greater_end word ≤ length (T.text_of view.now)) }
{
    let up_to = end_at(gap, text_end(view));
    let index = up_to.saturating_sub(1);
    let before = run_left(alloc, view, up_to)?;
    let after = run_right(alloc, view, index)?;
    Ok(Region {
        anchor: up_to - before,
        caret: index + after,
        goal: None,
    })
}

// The gap behind the character right of a gap, in a text with so many characters; its end where there is none.
fn end_at(gap: u64, len: u64) -> u64
    ensures { result ≡ min (gap + 1) len }
{
    if gap < len { gap + 1 } else { len }
}

/// The logical line at a gap, with its LF. This reads no text.
pub(crate) fn line_region<T: TextView>(view: &T, gap: u64) -> Region
    ensures value { result ≡ line_around (T.text_of view.now) gap }
    ensures inside { greater_end result ≤ length (T.text_of view.now) }
{
    let own = view.logical_of(view.line_of(gap));
    Region {
        anchor: own.start,
        caret: own.end,
        goal: None,
    }
}
