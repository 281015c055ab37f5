ghost use Rattle.std.specs.Prelude.{◌≡◌, ◌<◌, ◌≤◌, true, nat_le, is_some, length, Some, IfOk};
ghost use Rattle.std.specs.Str.{all_scalars};
ghost use Rattle.plain_text.specs.Text.{gap_at};
ghost use Rattle.movement_core.specs.Places.{IsGreatestPlace, left_of, outward_left, outward_right, right_of};
ghost use Rattle.movement_core.specs.Inner.{IsGapUpTo, IsNextGap};

use crate::lines::text_end;
use crate::nearby::text_around;
use cluster_core::{next, prev};
use plain_screen::TextView;
use plain_text::{NoMemory, Text};
use std::alloc::Global;

/// The gap at a place of a line.
fn gap_of(line: &Text, place: u64) -> u64
    requires { is_some (gap_at line.now place) ≡ true }
    ensures { gap_at line.now place ≡ Some result }
{
    match line.gap_at(place) {
        Some(gap) => gap,
        None => unreachable!(),
    }
}

/// The greatest boundary of a line that is not past a gap.
fn boundary_up_to(line: &Text, gap: u64) -> u64
    requires { gap ≤ length line.now }
    ensures { IsGapUpTo line.now gap result }
{
    let text = line.as_str();
    let len = line.char_count();
    if gap == len {
        return gap;
    }
    let place = line.place_of(gap + 1);
    match prev(text, place as usize) {
        Some(found) => gap_of(line, found as u64),
        None => unreachable!(),
    }
}

/// The least boundary of a line that is past a gap.
fn boundary_past(line: &Text, gap: u64) -> u64
    requires { gap < length line.now }
    ensures { IsNextGap line.now gap result }
{
    let text = line.as_str();
    let place = line.place_of(gap);
    match next(text, place as usize) {
        Some(found) => gap_of(line, found as u64),
        None => unreachable!(),
    }
}

/// The boundary at a gap, or else the one left of it. This reads the gap's logical line as far as to where plain characters stand.
pub fn outward_left<T: TextView>(alloc: Global, view: &T, gap: u64) -> Result<u64, NoMemory>
    requires characters { all_scalars (T.text_of view.now) ≡ true }
    requires inside { gap ≤ length (T.text_of view.now) }
    ensures value { IfOk result (λ place. place ≡ outward_left (T.text_of view.now) gap) }
    ensures greatest { IfOk result (IsGreatestPlace (λ place. nat_le place gap) (T.text_of view.now)) }
{
    let near = text_around(alloc, view, view.line_of(gap), gap, gap)?;
    Ok(near.start + boundary_up_to(&near.text, gap - near.start))
}

/// The boundary right of a gap; the text's end has none.
pub(crate) fn right_of<T: TextView>(alloc: Global, view: &T, gap: u64) -> Result<u64, NoMemory>
    requires characters { all_scalars (T.text_of view.now) ≡ true }
    requires inside { gap ≤ length (T.text_of view.now) }
    ensures { IfOk result (λ place. place ≡ right_of (T.text_of view.now) gap) }
{
    if gap == text_end(view) {
        return Ok(gap);
    }
    let near = text_around(alloc, view, view.line_of(gap), gap, gap)?;
    Ok(near.start + boundary_past(&near.text, gap - near.start))
}

/// The boundary left of a gap; the text's start has none.
pub(crate) fn left_of<T: TextView>(alloc: Global, view: &T, gap: u64) -> Result<u64, NoMemory>
    requires characters { all_scalars (T.text_of view.now) ≡ true }
    requires inside { gap ≤ length (T.text_of view.now) }
    ensures { IfOk result (λ place. place ≡ left_of (T.text_of view.now) gap) }
{
    if gap == 0 {
        return Ok(0);
    }
    outward_left(alloc, view, gap - 1)
}

/// The boundary at a gap, or else the one right of it.
pub(crate) fn outward_right<T: TextView>(alloc: Global, view: &T, gap: u64) -> Result<u64, NoMemory>
    requires characters { all_scalars (T.text_of view.now) ≡ true }
    requires inside { gap ≤ length (T.text_of view.now) }
    ensures { IfOk result (λ place. place ≡ outward_right (T.text_of view.now) gap) }
{
    if gap == 0 {
        return Ok(0);
    }
    right_of(alloc, view, gap - 1)
}
