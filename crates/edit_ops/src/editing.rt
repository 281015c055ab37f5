ghost use Rattle.std.specs.Prelude.{◌≡◌, ℕ, ◌+◌, List, [], ◌∷◌, ◌++◌, map, IfOk, OnOk};
ghost use Rattle.plain_text.specs.declared.selection.Region.{Region as region_value};
ghost use Rattle.selection_core.specs.Mapped.{AreWithin};
ghost use Rattle.selection_core.specs.Selection.{IsSelection, caret_of};
ghost use Rattle.edit_ops.specs.declared.replacement.Replacement.{Replacement as replacement_value};
ghost use Rattle.edit_ops.specs.Inner.{additions_of, kept_from, run_if};
ghost use Rattle.edit_ops.specs.Replacements.{AreInOrder, IsEditOf, carets_with, gap_with};

use crate::replacement::Replacement;
use plain_edits::{Added, Adds, UnitDelta};
use plain_text::{List, NoMemory, Region, Regions, Run, Runs, Sel};
use selection_core::Selection;
use std::alloc::Global;

/// The edit that replacements in order are, and the carets after it: one after the text of each, merged. `base` is how many characters
/// the text has. This costs what a sort of so many regions costs, and the texts that are added. A text that is longer than numbers go
/// takes more memory than there is.
pub fn replace(
    alloc: Global,
    base: u64,
    replacements: List<Replacement>,
) -> Result<(UnitDelta, Sel), NoMemory>
    requires { AreInOrder base 0 replacements }
    ensures edit { IfOk result (λ made. IsEditOf base replacements made.0) }
    ensures regions { IfOk result (λ made. made.1.regions ≡ carets_with replacements) }
    ensures sound { IfOk result (λ made. IsSelection made.1.regions) }
    ensures inside { IfOk result (λ made. AreWithin (gap_with replacements base) made.1.regions) }
{
    let all = replacements.as_slice();
    let kept = kept_runs(alloc, base, all)?;
    let carets = carets_after(alloc, base, all)?;
    let sel = Sel::of_regions(alloc, carets)?;
    let added = additions(alloc, replacements)?;
    Ok((UnitDelta { base, kept, added }, sel))
}

// The runs of the base that are in no range.
fn kept_runs(alloc: Global, base: u64, replacements: &[Replacement]) -> Result<Runs, NoMemory>
    ensures { IfOk result (λ kept. kept ≡ kept_from base 0 replacements.now) }
{
    let mut kept = Runs::new(alloc);
    let mut at = 0;
    for replacement in replacements {
        at = pass_range(&mut kept, at, replacement)?;
    }
    push_run(&mut kept, at, base)?;
    Ok(kept)
}

// Puts what is kept left of a range at the end, and goes on behind the range.
fn pass_range(kept: &mut Runs, at: u64, replacement: &Replacement) -> Result<u64, NoMemory>
    ensures { IfOk result (λ next. (base : ℕ) (rest : List replacement_value) → kept.new ++ kept_from base next rest
        ≡ kept.old ++ kept_from base at (replacement.now ∷ rest)) }
{
    let range = replacement.range;
    if range.start >= range.end {
        return Ok(at);
    }
    push_run(kept, at, range.start)?;
    Ok(at.max(range.end))
}

// Puts a run at the end, unless it is empty.
fn push_run(runs: &mut Runs, start: u64, end: u64) -> Result<(), NoMemory>
    ensures { OnOk result (runs.new ≡ runs.old ++ run_if start end) }
{
    if start < end {
        runs.push(Run { start, end })?;
    }
    Ok(())
}

// The texts that are added, each at the start of its range.
fn additions(alloc: Global, replacements: List<Replacement>) -> Result<Adds, NoMemory>
    ensures { IfOk result (λ added. added ≡ additions_of replacements) }
{
    let mut added = Adds::new(alloc);
    for replacement in replacements.into_iter() {
        push_addition(&mut added, replacement)?;
    }
    Ok(added)
}

// Puts the text of a replacement at the end, unless it is empty.
fn push_addition(added: &mut Adds, replacement: Replacement) -> Result<(), NoMemory>
    ensures { OnOk result (added.new ≡ added.old ++ additions_of (replacement ∷ [])) }
{
    let Replacement { range, text } = replacement;
    if !text.is_empty() {
        added.push(Added {
            gap: range.start,
            text,
        })?;
    }
    Ok(())
}

// A caret at the start of each range, taken through the edit.
fn carets_after(alloc: Global, base: u64, replacements: &[Replacement]) -> Result<Regions, NoMemory>
    requires { AreInOrder base 0 replacements.now }
    ensures { IfOk result (λ carets. carets ≡ map (λ r. caret_of (gap_with replacements.now r.range.start)) replacements.now) }
{
    let mut carets = Regions::new(alloc);
    let mut at: u64 = 0;
    let mut kept: u64 = 0;
    let mut added: u64 = 0;
    for replacement in replacements {
        let start = at.max(replacement.range.start);
        kept = sum(kept, start - at)?;
        added = sum(added, replacement.text.char_count())?;
        at = start.max(replacement.range.end);
        let gap = sum(kept, added)?;
        carets.push(Region {
            anchor: gap,
            caret: gap,
            goal: None,
        })?;
    }
    Ok(carets)
}

/// The sum of two numbers of characters.
pub(crate) fn sum(first: u64, second: u64) -> Result<u64, NoMemory>
    ensures { IfOk result (λ sum. sum ≡ first + second) }
{
    match first.checked_add(second) {
        Some(sum) => Ok(sum),
        None => Err(NoMemory),
    }
}
