ghost use Rattle.std.specs.Prelude.{◌≡◌, ◌++◌, map, not, IfOk, OnOk};
ghost use Rattle.std.specs.List.{filter, list_any};
ghost use Rattle.selection_core.specs.Selection.{IsSelection};
ghost use Rattle.edit_ops.specs.Regions.{all_but_last, dragged, has_gap, last_region, or_last, ranged, toggled, without_goal};

use plain_text::{NoMemory, Region, Regions, Sel};
use selection_core::Selection;
use std::alloc::Global;

/// The last region, whose caret goes to the gap; the others go. This takes one region's memory.
pub fn drag(alloc: Global, sel: &Sel, gap: u64) -> Result<Sel, NoMemory>
    ensures regions { IfOk result (λ after. after.regions ≡ dragged gap sel.now.regions) }
    ensures sound { IfOk result (λ after. IsSelection after.regions) }
{
    let mut regions = last(alloc, &sel.regions)?;
    follow(&mut regions, gap)?;
    Ok(Sel { regions })
}

/// The regions, of which the caret of the last one goes to the gap; those that then meet are merged. This costs what a sort of so many
/// regions costs.
pub fn range_to(alloc: Global, sel: &Sel, gap: u64) -> Result<Sel, NoMemory>
    ensures regions { IfOk result (λ after. after.regions ≡ ranged gap (map without_goal sel.now.regions)) }
    ensures sound { IfOk result (λ after. IsSelection after.regions) }
{
    let mut regions = without_goals(alloc, &sel.regions)?;
    follow(&mut regions, gap)?;
    Sel::of_regions(alloc, regions)
}

/// The regions but those that have the gap in them or at their ends, of which the last one stays where these are all; where there is
/// none of these, the regions and a caret at the gap. This costs the regions.
pub fn toggle(alloc: Global, sel: &Sel, gap: u64) -> Result<Sel, NoMemory>
    requires { IsSelection sel.now.regions }
    ensures regions { IfOk result (λ after. after.regions ≡ toggled gap (map without_goal sel.now.regions)) }
    ensures sound { IfOk result (λ after. IsSelection after.regions) }
{
    let all = Sel {
        regions: without_goals(alloc, &sel.regions)?,
    };
    if is_touched(&all.regions, gap) {
        let left = untouched(alloc, &all.regions, gap)?;
        let regions = left_or_last(alloc, &all.regions, left)?;
        Ok(Sel { regions })
    } else {
        all.add(
            alloc,
            Region {
                anchor: gap,
                caret: gap,
                goal: None,
            },
        )
    }
}

// The regions with their ends alone.
fn without_goals(alloc: Global, regions: &Regions) -> Result<Regions, NoMemory>
    ensures { IfOk result (λ list. list ≡ map without_goal regions.now) }
{
    let mut list = Regions::new(alloc);
    for region in regions.as_slice() {
        list.push(Region {
            anchor: region.anchor,
            caret: region.caret,
            goal: None,
        })?;
    }
    Ok(list)
}

// The last region alone.
fn last(alloc: Global, regions: &Regions) -> Result<Regions, NoMemory>
    ensures { IfOk result (λ list. list ≡ last_region regions.now) }
{
    let mut list = Regions::new(alloc);
    let all = regions.as_slice();
    if !all.is_empty() {
        list.push(all[all.len() - 1])?;
    }
    Ok(list)
}

// Takes the caret of the last region to the gap.
fn follow(regions: &mut Regions, gap: u64) -> Result<(), NoMemory>
    ensures { OnOk result (regions.new ≡ all_but_last regions.old ++ dragged gap regions.old) }
{
    if let Some(last) = regions.pop() {
        regions.push(Region {
            anchor: last.anchor,
            caret: gap,
            goal: None,
        })?;
    }
    Ok(())
}

// Whether a region has the gap in it or at its ends.
fn touches_gap(region: Region, gap: u64) -> bool
    ensures { result ≡ has_gap gap region }
{
    region.anchor.min(region.caret) <= gap && gap <= region.anchor.max(region.caret)
}

// Whether one of the regions has.
fn is_touched(regions: &Regions, gap: u64) -> bool
    ensures { result ≡ list_any (has_gap gap) regions.now }
{
    for region in regions.as_slice() {
        if touches_gap(*region, gap) {
            return true;
        }
    }
    false
}

// The regions that have not.
fn untouched(alloc: Global, regions: &Regions, gap: u64) -> Result<Regions, NoMemory>
    ensures { IfOk result (λ left. left ≡ filter (λ region. not (has_gap gap region)) regions.now) }
{
    let mut left = Regions::new(alloc);
    for region in regions.as_slice() {
        if !touches_gap(*region, gap) {
            left.push(*region)?;
        }
    }
    Ok(left)
}

// What is left, or the last of all regions where that is nothing.
fn left_or_last(alloc: Global, regions: &Regions, left: Regions) -> Result<Regions, NoMemory>
    ensures { IfOk result (λ list. list ≡ or_last regions.now left) }
{
    if left.is_empty() {
        return last(alloc, regions);
    }
    Ok(left)
}
