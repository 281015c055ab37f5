ghost use Rattle.std.specs.Prelude.{◌≡◌, ◌^◌, ◌<◌, ◌≤◌, map, IfOk};
ghost use Rattle.plain_edits.specs.UnitDelta.{IsUnitDelta};
ghost use Rattle.selection_core.specs.Selection.{IsSelection, greater_end, lesser_end};
ghost use Rattle.selection_core.specs.Mapped.{AreWithin, length_after, mapped_region, new_gap};
ghost use Rattle.selection_core.specs.Inner.{IsWalked};

use crate::gap_walk::{GapWalk, next_gap, walk_from_left};
use plain_edits::UnitDelta;
use plain_text::{NoMemory, Region, Regions};
use std::alloc::Global;

// The regions of a selection after an edit, in their order, and none merged.
pub(crate) fn mapped(
    alloc: Global,
    regions: &[Region],
    units: &UnitDelta,
    after: bool,
) -> Result<Regions, NoMemory>
    requires sound { IsSelection regions.now }
    requires within { AreWithin units.now.base regions.now }
    requires well_formed { IsUnitDelta units.now }
    requires bound { length_after units.now < 2 ^ 64 }
    ensures { IfOk result (λ list. list ≡ map (mapped_region units.now after) regions.now) }
{
    let mut list = Regions::new(alloc);
    let mut walk = walk_from_left(units, after);
    for region in regions {
        list.push(next_region(units, after, &mut walk, *region))?;
    }
    Ok(list)
}

// What an edit makes of a region, no end of which is left of the gaps that the walk was asked for before.
fn next_region(units: &UnitDelta, after: bool, walk: &mut GapWalk, region: Region) -> Region
    requires within { greater_end region ≤ units.now.base }
    requires well_formed { IsUnitDelta units.now }
    requires bound { length_after units.now < 2 ^ 64 }
    requires ahead { IsWalked units.now after (lesser_end region) walk.old }
    ensures region { result ≡ mapped_region units.now after region }
    ensures walked { IsWalked units.now after (greater_end region) walk.new }
{
    let from = next_gap(units, after, walk, region.anchor.min(region.caret));
    let to = next_gap(units, after, walk, region.anchor.max(region.caret));
    let (anchor, caret) = if region.anchor <= region.caret {
        (from, to)
    } else {
        (to, from)
    };
    Region {
        anchor,
        caret,
        goal: region.goal,
    }
}

/// Where an edit takes a caret at this gap: it stays left of the character right of it; `after` the edit, right of the one left of it.
/// This costs the elements of the edit, and the bytes that it adds.
pub fn gap_after(units: &UnitDelta, after: bool, gap: u64) -> u64
    requires within { gap ≤ units.now.base }
    requires well_formed { IsUnitDelta units.now }
    requires bound { length_after units.now < 2 ^ 64 }
    ensures { result ≡ new_gap units.now after gap }
{
    let mut walk = walk_from_left(units, after);
    next_gap(units, after, &mut walk, gap)
}
