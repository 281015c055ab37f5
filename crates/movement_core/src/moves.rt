ghost use Rattle.std.specs.Prelude.{◌≡◌, ℕ, ◌≤◌, true, if◌then◌else◌, length, map, None, IfOk};
ghost use Rattle.std.specs.Str.{all_scalars};
ghost use Rattle.plain_screen.specs.View.{layout_line_of};
ghost use Rattle.selection_core.specs.Mapped.{AreWithin};
ghost use Rattle.selection_core.specs.Selection.{IsSelection, greater_end, lesser_end};
ghost use Rattle.movement_core.specs.Lines.{StartAtPlaces, line_end, line_start};
ghost use Rattle.xi_plain.specs.declared.motion.Motion.TheVariants.{Down, Up};
ghost use Rattle.movement_core.specs.Places.{left_of, right_of};
ghost use Rattle.movement_core.specs.Inner.{moves_caret, placed_region};
ghost use Rattle.movement_core.specs.Motions.{goal_of, region_after, regions_after};

use crate::columns::{above, below, column_of, line_end, line_start};
use crate::lines::text_end;
use crate::places::{left_of, right_of};
use crate::words::{word_left, word_right};
use selection_core::Selection;
use std::alloc::Global;
use xi_plain::{Motion, NoMemory, Region, Regions, Sel, TextView};

fn lesser(region: Region) -> u64
    ensures { result ≡ lesser_end region }
{
    region.anchor.min(region.caret)
}

fn greater(region: Region) -> u64
    ensures { result ≡ greater_end region }
{
    region.anchor.max(region.caret)
}

/// Where a move up starts.
fn upper(region: Region, extend: bool) -> u64
    ensures { result ≡ (if extend then region.caret else lesser_end region) }
{
    if extend { region.caret } else { lesser(region) }
}

/// Where a move down starts.
fn lower(region: Region, extend: bool) -> u64
    ensures { result ≡ (if extend then region.caret else greater_end region) }
{
    if extend {
        region.caret
    } else {
        greater(region)
    }
}

/// Whether a move to the left or right takes the caret, and not an end.
fn moves_caret(region: Region, extend: bool) -> bool
    ensures { result ≡ moves_caret extend region }
{
    extend || region.anchor == region.caret
}

/// The goal of a region.
fn goal_of<T: TextView>(alloc: Global, view: &T, region: Region, tab: u32) -> Result<u128, NoMemory>
    requires { all_scalars (T.text_of view.now) ≡ true }
    ensures { IfOk result (λ goal. goal ≡ goal_of tab (T.text_of view.now) (T.pieces_of view.now) region) }
{
    match region.goal {
        Some(goal) => Ok(goal),
        None => column_of(alloc, view, region.caret, tab),
    }
}

/// Where a region goes to the left.
fn to_left<T: TextView>(
    alloc: Global,
    view: &T,
    region: Region,
    extend: bool,
) -> Result<u64, NoMemory>
    requires characters { all_scalars (T.text_of view.now) ≡ true }
    requires inside { greater_end region ≤ length (T.text_of view.now) }
    ensures { IfOk result (λ gap. gap
        ≡ (if moves_caret extend region then left_of (T.text_of view.now) region.caret else lesser_end region)) }
{
    if moves_caret(region, extend) {
        return left_of(alloc, view, region.caret);
    }
    Ok(lesser(region))
}

/// Where a region goes to the right.
fn to_right<T: TextView>(
    alloc: Global,
    view: &T,
    region: Region,
    extend: bool,
) -> Result<u64, NoMemory>
    requires characters { all_scalars (T.text_of view.now) ≡ true }
    requires inside { greater_end region ≤ length (T.text_of view.now) }
    ensures { IfOk result (λ gap. gap
        ≡ (if moves_caret extend region then right_of (T.text_of view.now) region.caret else greater_end region)) }
{
    if moves_caret(region, extend) {
        return right_of(alloc, view, region.caret);
    }
    Ok(greater(region))
}

/// The start of a gap's layout line.
fn to_line_start<T: TextView>(view: &T, gap: u64) -> u64
    requires characters { all_scalars (T.text_of view.now) ≡ true }
    requires starts { StartAtPlaces (T.text_of view.now) (T.pieces_of view.now) }
    ensures { result ≡ line_start (T.text_of view.now) (T.pieces_of view.now) (layout_line_of (T.pieces_of view.now) gap) }
{
    let line = view.line_of(gap);
    line_start(view, line)
}

/// The end of a gap's layout line.
fn to_line_end<T: TextView>(alloc: Global, view: &T, gap: u64) -> Result<u64, NoMemory>
    requires characters { all_scalars (T.text_of view.now) ≡ true }
    requires starts { StartAtPlaces (T.text_of view.now) (T.pieces_of view.now) }
    ensures { IfOk result (λ place. place
        ≡ line_end (T.text_of view.now) (T.pieces_of view.now) (layout_line_of (T.pieces_of view.now) gap)) }
{
    let line = view.line_of(gap);
    line_end(alloc, view, line)
}

/// A region whose caret goes to a gap, and its anchor too unless it is extended.
fn placed(region: Region, extend: bool, caret: u64, goal: Option<u128>) -> Region
    ensures { result ≡ placed_region region extend caret goal }
{
    Region {
        anchor: if extend { region.anchor } else { caret },
        caret,
        goal,
    }
}

/// A region whose caret goes to a gap, where that is known, and which has no goal then.
fn leveled(region: Region, extend: bool, caret: Result<u64, NoMemory>) -> Result<Region, NoMemory>
    ensures { (gap : ℕ) → IfOk caret (λ found. found ≡ gap) → IfOk result (λ after. after ≡ placed_region region extend gap None) }
{
    let caret = caret?;
    Ok(placed(region, extend, caret, None))
}

/// The region after a move up.
fn up<T: TextView>(
    alloc: Global,
    view: &T,
    region: Region,
    extend: bool,
    tab: u32,
) -> Result<Region, NoMemory>
    requires characters { all_scalars (T.text_of view.now) ≡ true }
    requires starts { StartAtPlaces (T.text_of view.now) (T.pieces_of view.now) }
    ensures { IfOk result (λ after. after ≡ region_after tab (T.text_of view.now) (T.pieces_of view.now) Up extend region) }
{
    let goal = goal_of(alloc, view, region, tab)?;
    let caret = above(alloc, view, upper(region, extend), goal, tab)?;
    Ok(placed(region, extend, caret, Some(goal)))
}

/// The region after a move down.
fn down<T: TextView>(
    alloc: Global,
    view: &T,
    region: Region,
    extend: bool,
    tab: u32,
) -> Result<Region, NoMemory>
    requires characters { all_scalars (T.text_of view.now) ≡ true }
    requires starts { StartAtPlaces (T.text_of view.now) (T.pieces_of view.now) }
    ensures { IfOk result (λ after. after ≡ region_after tab (T.text_of view.now) (T.pieces_of view.now) Down extend region) }
{
    let goal = goal_of(alloc, view, region, tab)?;
    let caret = below(alloc, view, lower(region, extend), goal, tab)?;
    Ok(placed(region, extend, caret, Some(goal)))
}

/// The region after a motion; a command that deletes takes its caret.
///
/// This asks the view for the lines of a gap, and reads the logical lines in which the caret stands and to which it goes; a motion by
/// words reads at most twice the characters that it passes over, and one logical line. `tab` is the tab width in columns. Want of memory
/// is its only error.
pub fn moved_region<T: TextView>(
    alloc: Global,
    view: &T,
    region: Region,
    motion: Motion,
    extend: bool,
    tab: u32,
) -> Result<Region, NoMemory>
    requires characters { all_scalars (T.text_of view.now) ≡ true }
    requires starts { StartAtPlaces (T.text_of view.now) (T.pieces_of view.now) }
    requires inside { greater_end region ≤ length (T.text_of view.now) }
    ensures { IfOk result (λ after. after ≡ region_after tab (T.text_of view.now) (T.pieces_of view.now) motion extend region) }
{
    match motion {
        Motion::Left => leveled(region, extend, to_left(alloc, view, region, extend)),
        Motion::Right => leveled(region, extend, to_right(alloc, view, region, extend)),
        Motion::Up => up(alloc, view, region, extend, tab),
        Motion::Down => down(alloc, view, region, extend, tab),
        Motion::WordLeft => leveled(region, extend, word_left(alloc, view, region.caret)),
        Motion::WordRight => leveled(region, extend, word_right(alloc, view, region.caret)),
        Motion::LineStart => leveled(region, extend, Ok(to_line_start(view, region.caret))),
        Motion::LineEnd => leveled(region, extend, to_line_end(alloc, view, region.caret)),
        Motion::TextStart => leveled(region, extend, Ok(0)),
        Motion::TextEnd => leveled(region, extend, Ok(text_end(view))),
    }
}

/// The selection after a motion: each region is moved, and those that then meet are merged, whatever their order.
///
/// This costs [`moved_region`] for each region, and a sort of so many regions. Want of memory is its only error.
pub fn moved<T: TextView>(
    alloc: Global,
    view: &T,
    sel: &Sel,
    motion: Motion,
    extend: bool,
    tab: u32,
) -> Result<Sel, NoMemory>
    requires characters { all_scalars (T.text_of view.now) ≡ true }
    requires starts { StartAtPlaces (T.text_of view.now) (T.pieces_of view.now) }
    requires inside { AreWithin (length (T.text_of view.now)) sel.now.regions }
    ensures regions { IfOk result (λ after. after.regions
        ≡ regions_after tab (T.text_of view.now) (T.pieces_of view.now) motion extend sel.now.regions) }
    ensures sound { IfOk result (λ after. IsSelection after.regions) }
    ensures inside { IfOk result (λ after. AreWithin (length (T.text_of view.now)) after.regions) }
{
    let regions = moved_regions(alloc, view, sel.regions.as_slice(), motion, extend, tab)?;
    Sel::of_regions(alloc, regions)
}

/// The regions after a motion, in their order, and none merged.
fn moved_regions<T: TextView>(
    alloc: Global,
    view: &T,
    regions: &[Region],
    motion: Motion,
    extend: bool,
    tab: u32,
) -> Result<Regions, NoMemory>
    requires characters { all_scalars (T.text_of view.now) ≡ true }
    requires starts { StartAtPlaces (T.text_of view.now) (T.pieces_of view.now) }
    requires inside { AreWithin (length (T.text_of view.now)) regions.now }
    ensures { IfOk result (λ list. list ≡ map (region_after tab (T.text_of view.now) (T.pieces_of view.now) motion extend) regions.now) }
{
    let mut list = Regions::new(alloc);
    for region in regions {
        let after = moved_region(alloc, view, *region, motion, extend, tab)?;
        list.push(after)?;
    }
    Ok(list)
}
