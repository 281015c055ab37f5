ghost use Rattle.std.specs.Prelude.{◌≡◌, ◌≤◌, true, false, length, map, IfOk};
ghost use Rattle.std.specs.List.{AllByRecursion};
ghost use Rattle.std.specs.Str.{all_scalars};
ghost use Rattle.selection_core.specs.Mapped.{AreWithin};
ghost use Rattle.selection_core.specs.Selection.{IsSelection, greater_end};
ghost use Rattle.movement_core.specs.Lines.{StartAtPlaces};
ghost use Rattle.movement_core.specs.Motions.{target};
ghost use Rattle.edit_ops.specs.Replacements.{IsEditOf, carets_with, deleted_range, deletion_of, gap_with};

use crate::deleting::delete;
use movement_core::moved_region;
use plain_edits::UnitDelta;
use plain_screen::TextView;
use plain_text::{NoMemory, Region, Run, Runs, Sel};
use std::alloc::Global;
use xi_plain::Motion;

/// The edit that deletes each region, or from a caret alone what stands between it and where a motion takes it; and a caret at the start
/// of each, merged. `base` is how many characters the text has, and `tab` the tab width in columns. This costs the motion for each
/// caret, and a sort of so many regions.
pub fn delete_to<T: TextView>(
    alloc: Global,
    view: &T,
    base: u64,
    sel: &Sel,
    motion: Motion,
    tab: u32,
) -> Result<(UnitDelta, Sel), NoMemory>
    requires characters { all_scalars (T.text_of view.now) ≡ true }
    requires starts { StartAtPlaces (T.text_of view.now) (T.pieces_of view.now) }
    requires whole { base ≡ length (T.text_of view.now) }
    requires inside { AreWithin base sel.now.regions }
    ensures edit { IfOk result (λ made. IsEditOf base (map deletion_of (map (λ region.
        deleted_range (target tab (T.text_of view.now) (T.pieces_of view.now) motion false region) region) sel.now.regions)) made.0) }
    ensures regions { IfOk result (λ made. made.1.regions ≡ carets_with (map deletion_of (map (λ region.
        deleted_range (target tab (T.text_of view.now) (T.pieces_of view.now) motion false region) region) sel.now.regions))) }
    ensures sound { IfOk result (λ made. IsSelection made.1.regions) }
    ensures inside { IfOk result (λ made. AreWithin (gap_with (map deletion_of (map (λ region.
        deleted_range (target tab (T.text_of view.now) (T.pieces_of view.now) motion false region) region) sel.now.regions)) base)
        made.1.regions) }
{
    let ranges = ranges_to(alloc, view, sel, motion, tab)?;
    delete(alloc, base, ranges)
}

// What is deleted at each region.
fn ranges_to<T: TextView>(
    alloc: Global,
    view: &T,
    sel: &Sel,
    motion: Motion,
    tab: u32,
) -> Result<Runs, NoMemory>
    requires characters { all_scalars (T.text_of view.now) ≡ true }
    requires starts { StartAtPlaces (T.text_of view.now) (T.pieces_of view.now) }
    requires inside { AreWithin (length (T.text_of view.now)) sel.now.regions }
    ensures { IfOk result (λ ranges. ranges ≡ map (λ region.
        deleted_range (target tab (T.text_of view.now) (T.pieces_of view.now) motion false region) region) sel.now.regions) }
{
    let mut ranges = Runs::new(alloc);
    for region in sel.regions.as_slice() {
        ranges.push(range_to(alloc, view, *region, motion, tab)?)?;
    }
    Ok(ranges)
}

// What is deleted at a region.
fn range_to<T: TextView>(
    alloc: Global,
    view: &T,
    region: Region,
    motion: Motion,
    tab: u32,
) -> Result<Run, NoMemory>
    requires characters { all_scalars (T.text_of view.now) ≡ true }
    requires starts { StartAtPlaces (T.text_of view.now) (T.pieces_of view.now) }
    requires inside { greater_end region ≤ length (T.text_of view.now) }
    ensures { IfOk result (λ range. range ≡
        deleted_range (target tab (T.text_of view.now) (T.pieces_of view.now) motion false region) region) }
{
    if region.anchor != region.caret {
        return Ok(Run {
            start: region.anchor.min(region.caret),
            end: region.anchor.max(region.caret),
        });
    }
    let to = moved_region(alloc, view, region, motion, false, tab)?.caret;
    Ok(Run {
        start: region.caret.min(to),
        end: region.caret.max(to),
    })
}
