ghost use Rattle.std.specs.Prelude.{◌≡◌, map, IfOk};
ghost use Rattle.selection_core.specs.Mapped.{AreWithin};
ghost use Rattle.selection_core.specs.Selection.{IsSelection};
ghost use Rattle.edit_ops.specs.Replacements.{IsEditOf, carets_with, gap_with, replaced_by};

use crate::editing::replace;
use crate::replacement::Replacement;
use plain_edits::UnitDelta;
use plain_text::{List, NoMemory, Region, Run, Sel, Text, TryClone};
use std::alloc::Global;

/// The edit that replaces each region by one text, and the carets after it: one behind each text. No characters delete the regions.
/// `base` is how many characters the text has. This costs what a sort of so many regions costs, and the texts that are added.
pub fn replace_regions(
    alloc: Global,
    base: u64,
    sel: &Sel,
    text: &Text,
) -> Result<(UnitDelta, Sel), NoMemory>
    requires sound { IsSelection sel.now.regions }
    requires inside { AreWithin base sel.now.regions }
    ensures edit { IfOk result (λ made. IsEditOf base (map (replaced_by text.now) sel.now.regions) made.0) }
    ensures regions { IfOk result (λ made. made.1.regions ≡ carets_with (map (replaced_by text.now) sel.now.regions)) }
    ensures sound { IfOk result (λ made. IsSelection made.1.regions) }
    ensures inside { IfOk result (λ made. AreWithin (gap_with (map (replaced_by text.now) sel.now.regions) base) made.1.regions) }
{
    let replacements = replacements_of(alloc, &sel.regions, text)?;
    replace(alloc, base, replacements)
}

// Each region is replaced by the text.
fn replacements_of(
    alloc: Global,
    regions: &List<Region>,
    text: &Text,
) -> Result<List<Replacement>, NoMemory>
    ensures { IfOk result (λ list. list ≡ map (replaced_by text.now) regions.now) }
{
    let mut list = List::new(alloc);
    for region in regions.as_slice() {
        list.push(Replacement {
            range: Run {
                start: region.anchor.min(region.caret),
                end: region.anchor.max(region.caret),
            },
            text: text.copy(alloc)?,
        })?;
    }
    Ok(list)
}
