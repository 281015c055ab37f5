ghost use Rattle.std.specs.Prelude.{◌≡◌, ◌<◌, ◌≤◌, true, length, IfOk};
ghost use Rattle.std.specs.Str.{all_scalars, chars};
ghost use Rattle.plain_screen.specs.View.{ArePieces};
ghost use Rattle.cluster_core.specs.Boundaries.{clusters_in};
ghost use Rattle.cluster_core.specs.Walk.{counted_anew, placed, walk_left, walk_tab};
ghost use Rattle.movement_core.specs.Lines.{StartAtPlaces, above, below, column_of, line_end, line_start, place_at_column};
ghost use Rattle.movement_core.specs.Inner.{fitting, items_past};

use crate::lines::{last_gap, piece_at, text_end};
use crate::nearby::text_around;
use crate::places::outward_left;
use cluster_core::{Walk, columns_between};
use plain_screen::TextView;
use plain_text::NoMemory;
use std::alloc::Global;

/// The column of a gap in its layout line. This reads the layout line up to the gap, and beside it as far as to where plain characters
/// stand.
pub fn column_of<T: TextView>(alloc: Global, view: &T, gap: u64, tab: u32) -> Result<u128, NoMemory>
    requires { all_scalars (T.text_of view.now) ≡ true }
    ensures { IfOk result (λ column. column ≡ column_of tab (T.text_of view.now) (T.pieces_of view.now) gap) }
{
    let line = view.line_of(gap);
    let start = piece_at(view, line).start;
    let near = text_around(alloc, view, line, start, gap.min(text_end(view)))?;
    let from = start - near.start;
    let to = gap - near.start;
    Ok(columns_between(near.text.as_str(), from, to, tab))
}

/// The least caret place of a layout line.
pub(crate) fn line_start<T: TextView>(view: &T, line: u64) -> u64
    requires characters { all_scalars (T.text_of view.now) ≡ true }
    requires starts { StartAtPlaces (T.text_of view.now) (T.pieces_of view.now) }
    requires inside { line < length (T.pieces_of view.now) }
    requires sound { ArePieces (T.text_of view.now) (T.pieces_of view.now) }
    ensures { result ≡ line_start (T.text_of view.now) (T.pieces_of view.now) line }
{
    piece_at(view, line).start
}

/// The greatest caret place of a layout line.
pub(crate) fn line_end<T: TextView>(alloc: Global, view: &T, line: u64) -> Result<u64, NoMemory>
    requires characters { all_scalars (T.text_of view.now) ≡ true }
    requires starts { StartAtPlaces (T.text_of view.now) (T.pieces_of view.now) }
    requires inside { line < length (T.pieces_of view.now) }
    requires sound { ArePieces (T.text_of view.now) (T.pieces_of view.now) }
    ensures { IfOk result (λ place. place ≡ line_end (T.text_of view.now) (T.pieces_of view.now) line) }
{
    outward_left(alloc, view, last_gap(view, line))
}

/// A walk from its first cluster that ends at this gap or past it.
fn skipped<'a>(start: Walk<'a>, from: u64) -> Walk<'a>
    ensures left { walk_left result ≡ items_past from 0 (walk_left start.entry) }
    ensures tab { walk_tab result ≡ walk_tab start.entry }
{
    let mut walk = start;
    let mut at: u64 = 0;
    while at < from {
        match walk.next() {
            Some(item) => at = item.end,
            None => return walk,
        }
    }
    walk
}

/// A walk along a line from a boundary, where columns are counted from 0.
fn walk_from(line: &str, from: u64, tab: u32) -> Walk<'_>
    ensures { walk_left result ≡ counted_anew tab 0 (items_past from 0 (placed tab 0 0 (clusters_in (chars line.now)))) }
{
    let mut walk = skipped(Walk::new(line, tab), from);
    walk.begin_piece();
    walk
}

/// The last end that a walk from `from` gives which is not past `last`, and whose column is at most `column`; else `from`.
fn last_fitting(line: &str, tab: u32, from: u64, last: u64, column: u128) -> u64
    ensures { result ≡ fitting last column from (counted_anew tab 0 (items_past from 0 (placed tab 0 0 (clusters_in (chars line.now))))) }
{
    let mut walk = walk_from(line, from, tab);
    let mut best = from;
    while let Some(item) = walk.next() {
        if item.end > last {
            return best;
        }
        if item.column <= column {
            best = item.end;
        }
    }
    best
}

/// The greatest caret place of a layout line whose column is at most this one.
fn place_at_column<T: TextView>(
    alloc: Global,
    view: &T,
    line: u64,
    column: u128,
    tab: u32,
) -> Result<u64, NoMemory>
    requires characters { all_scalars (T.text_of view.now) ≡ true }
    requires starts { StartAtPlaces (T.text_of view.now) (T.pieces_of view.now) }
    requires inside { line < length (T.pieces_of view.now) }
    requires sound { ArePieces (T.text_of view.now) (T.pieces_of view.now) }
    ensures { IfOk result (λ place. place ≡ place_at_column tab (T.text_of view.now) (T.pieces_of view.now) line column) }
{
    let end = last_gap(view, line);
    let start = piece_at(view, line).start;
    let near = text_around(alloc, view, line, start, end)?;
    let last = end - near.start;
    let from = start - near.start;
    let found = last_fitting(near.text.as_str(), tab, from, last, column);
    Ok(near.start + found)
}

/// Where a gap goes in the layout line above its own.
pub(crate) fn above<T: TextView>(
    alloc: Global,
    view: &T,
    gap: u64,
    column: u128,
    tab: u32,
) -> Result<u64, NoMemory>
    requires characters { all_scalars (T.text_of view.now) ≡ true }
    requires starts { StartAtPlaces (T.text_of view.now) (T.pieces_of view.now) }
    ensures { IfOk result (λ place. place ≡ above tab (T.text_of view.now) (T.pieces_of view.now) column gap) }
{
    let line = view.line_of(gap);
    if line == 0 {
        return Ok(0);
    }
    place_at_column(alloc, view, line - 1, column, tab)
}

/// Where a gap goes in the layout line below its own.
pub(crate) fn below<T: TextView>(
    alloc: Global,
    view: &T,
    gap: u64,
    column: u128,
    tab: u32,
) -> Result<u64, NoMemory>
    requires characters { all_scalars (T.text_of view.now) ≡ true }
    requires starts { StartAtPlaces (T.text_of view.now) (T.pieces_of view.now) }
    ensures { IfOk result (λ place. place ≡ below tab (T.text_of view.now) (T.pieces_of view.now) column gap) }
{
    let lines = view.lines();
    let line = view.line_of(gap);
    if line + 1 == lines {
        return Ok(text_end(view));
    }
    place_at_column(alloc, view, line + 1, column, tab)
}
