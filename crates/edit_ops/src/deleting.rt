ghost use Rattle.std.specs.Prelude.{◌≡◌, ◌≤◌, map, IfOk};
ghost use Rattle.std.specs.List.{AllByRecursion};
ghost use Rattle.std.specs.List.Sorted.{IsNonDecreasingBy, IsPermutation};
ghost use Rattle.selection_core.specs.Mapped.{AreWithin};
ghost use Rattle.selection_core.specs.Selection.{IsSelection};
ghost use Rattle.edit_ops.specs.Replacements.{IsEditOf, carets_with, deletion_of, gap_with};

use crate::editing::replace;
use crate::replacement::Replacement;
use plain_edits::UnitDelta;
use plain_text::{List, NoMemory, Runs, Sel, Text};
use selection_core::laws::order_does_not_matter;
use std::alloc::Global;

/// The edit that deletes ranges, which may come in any order and overlap, and a caret at the start of each, merged. `base` is how many
/// characters the text has. This costs what a sort of so many ranges costs.
pub fn delete(alloc: Global, base: u64, ranges: Runs) -> Result<(UnitDelta, Sel), NoMemory>
    requires inside { AllByRecursion (λ range. (range.start ≤ range.end) × (range.end ≤ base)) ranges }
    ensures edit { IfOk result (λ made. IsEditOf base (map deletion_of ranges) made.0) }
    ensures regions { IfOk result (λ made. made.1.regions ≡ carets_with (map deletion_of ranges)) }
    ensures sound { IfOk result (λ made. IsSelection made.1.regions) }
    ensures inside { IfOk result (λ made. AreWithin (gap_with (map deletion_of ranges) base) made.1.regions) }
{
    order_does_not_matter();
    let sorted = in_order(ranges)?;
    let replacements = deletions(alloc, &sorted)?;
    replace(alloc, base, replacements)
}

// The ranges by their starts.
fn in_order(ranges: Runs) -> Result<Runs, NoMemory>
    ensures same { IfOk result (λ list. IsPermutation ranges list) }
    ensures order { IfOk result (λ list. IsNonDecreasingBy (λ range. range.start) list) }
{
    let mut sorted = ranges.into_vec();
    sorted.sort_by_key(|range| range.start)?;
    Ok(Runs::from_vec(sorted))
}

// Each range is deleted.
fn deletions(alloc: Global, ranges: &Runs) -> Result<List<Replacement>, NoMemory>
    ensures { IfOk result (λ list. list ≡ map deletion_of ranges.now) }
{
    let mut list = List::new(alloc);
    for range in ranges.as_slice() {
        list.push(Replacement {
            range: *range,
            text: Text::new(alloc),
        })?;
    }
    Ok(list)
}
