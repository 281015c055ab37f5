ghost use Rattle.std.specs.Prelude.{◌≡◌, ◌≢◌, ◌^◌, ◌<◌, List, [], ◌∷◌, IfOk};
ghost use Rattle.plain_text.specs.declared.selection.Region.{Region as region_value};
ghost use Rattle.plain_edits.specs.UnitDelta.{IsUnitDelta};
ghost use Rattle.selection_core.specs.Mapped.{AreWithin, length_after, mapped_regions};
ghost use Rattle.selection_core.specs.Selection.{IsSelection, caret_of, last_caret, selection_of, with_region};

use crate::mapping::mapped;
use crate::merging::{in_order, merged, sorted};
use plain_edits::UnitDelta;
use plain_text::{NoMemory, Region, Regions, Sel};
use std::alloc::Global;

/// What a selection does: the regions stay sorted, and no two meet.
pub trait Selection: Sized {
    /// The regions, in order.
    ghost regions_of: { Self → List region_value };

    /// The selection of one caret, at a gap.
    fn caret_at(alloc: Global, gap: u64) -> Result<Self, NoMemory>
        ensures regions { IfOk result (λ sel. regions_of sel ≡ caret_of gap ∷ []) }
        ensures sound { IfOk result (λ sel. IsSelection (regions_of sel)) };

    /// The selection with one region more, which is merged with those that it meets. This costs the regions.
    fn add(&self, alloc: Global, region: Region) -> Result<Self, NoMemory>
        requires { IsSelection (regions_of self.now) }
        ensures regions { IfOk result (λ sel. regions_of sel ≡ with_region region (regions_of self.now)) }
        ensures sound { IfOk result (λ sel. IsSelection (regions_of sel)) };

    /// The selection of regions in any order: they are sorted by their lesser and then by their greater ends, and those that meet
    /// are merged from the left. This costs what the sort of so many regions costs. In what order they come does not matter, by
    /// [`laws::order_does_not_matter`](crate::laws::order_does_not_matter).
    fn of_regions(alloc: Global, regions: Regions) -> Result<Self, NoMemory>
        ensures regions { IfOk result (λ sel. regions_of sel ≡ selection_of regions) }
        ensures sound { IfOk result (λ sel. IsSelection (regions_of sel)) };

    /// The selection of one caret, at that of the last region.
    fn collapse(&self, alloc: Global) -> Result<Self, NoMemory>
        requires sound { IsSelection (regions_of self.now) }
        requires some { regions_of self.now ≢ [] }
        ensures regions { IfOk result (λ sel. regions_of sel ≡ caret_of (last_caret (regions_of self.now)) ∷ []) }
        ensures sound { IfOk result (λ sel. IsSelection (regions_of sel)) };

    /// The selection after an edit. Each end stays left of the character right of it; `after` the edit, it stays right of the
    /// character left of it. This costs the regions, the elements of the edit, and the bytes that it adds.
    fn map(&self, alloc: Global, units: &UnitDelta, after: bool) -> Result<Self, NoMemory>
        requires sound { IsSelection (regions_of self.now) }
        requires within { AreWithin units.now.base (regions_of self.now) }
        requires well_formed { IsUnitDelta units.now }
        requires bound { length_after units.now < 2 ^ 64 }
        ensures regions { IfOk result (λ sel. regions_of sel ≡ mapped_regions units.now after (regions_of self.now)) }
        ensures sound { IfOk result (λ sel. IsSelection (regions_of sel)) };
}

impl Selection for Sel {
    ghost regions_of = { λ sel. sel.regions };

    fn caret_at(alloc: Global, gap: u64) -> Result<Sel, NoMemory> {
        let mut regions = Regions::new(alloc);
        regions.push(Region {
            anchor: gap,
            caret: gap,
            goal: None,
        })?;
        Ok(Sel { regions })
    }

    fn add(&self, alloc: Global, region: Region) -> Result<Sel, NoMemory> {
        let regions = in_order(alloc, self.regions.as_slice(), region)?;
        Ok(Sel {
            regions: merged(alloc, regions.as_slice())?,
        })
    }

    fn of_regions(alloc: Global, regions: Regions) -> Result<Sel, NoMemory> {
        let sorted = sorted(regions)?;
        Ok(Sel {
            regions: merged(alloc, sorted.as_slice())?,
        })
    }

    fn collapse(&self, alloc: Global) -> Result<Sel, NoMemory> {
        let regions = self.regions.as_slice();
        let last = regions[regions.len() - 1];
        Sel::caret_at(alloc, last.caret)
    }

    fn map(&self, alloc: Global, units: &UnitDelta, after: bool) -> Result<Sel, NoMemory> {
        let regions = mapped(alloc, self.regions.as_slice(), units, after)?;
        Ok(Sel {
            regions: merged(alloc, regions.as_slice())?,
        })
    }
}
