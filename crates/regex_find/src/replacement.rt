ghost use Rattle.std.specs.Prelude.{◌≡◌, ◌++◌, length, IfOk, OnOk};
ghost use Rattle.regex_find.specs.Inner.{at_starts, rest_from};
ghost use Rattle.regex_find.specs.Replaced.{Replaces};
ghost use Rattle.regex_find.specs.Spots.{AreSpots, run_between};

use plain_edits::{Added, Adds, UnitDelta};
use plain_text::{NoMemory, Run, Runs, Text, TryClone};
use std::alloc::Global;

/// The one edit that replaces each run of the text by the new text, which is taken as it stands: no group of a pattern is filled in.
/// An empty new text deletes the runs.
///
/// Want of memory is its only error. It takes the time of the text, of the runs and of what is added.
pub fn replace_units(
    alloc: Global,
    text: &Text,
    runs: &Runs,
    with: &Text,
) -> Result<UnitDelta, NoMemory>
    requires { AreSpots (length text.now) 0 runs.now }
    ensures { IfOk result (λ units. Replaces text.now runs.now with.now units) }
{
    let base = text.char_count();
    let kept = rest(alloc, runs, base)?;
    let added = at_starts(alloc, runs, with)?;
    Ok(UnitDelta { base, kept, added })
}

/// What stands between the runs, up to the text's end.
fn rest(alloc: Global, runs: &Runs, len: u64) -> Result<Runs, NoMemory>
    ensures { IfOk result (λ kept. kept ≡ rest_from len 0 runs.now) }
{
    let mut kept = Runs::new(alloc);
    let mut at: u64 = 0;
    for run in runs.as_slice() {
        push_between(&mut kept, at, run.start)?;
        at = run.end;
    }
    push_between(&mut kept, at, len)?;
    Ok(kept)
}

/// Puts the run between two gaps at the end, unless it is empty.
pub(crate) fn push_between(runs: &mut Runs, start: u64, end: u64) -> Result<(), NoMemory>
    ensures { OnOk result (runs.new ≡ runs.old ++ run_between start end) }
{
    if start < end {
        runs.push(Run { start, end })?;
    }
    Ok(())
}

/// The text at the start of each run, unless it is empty.
fn at_starts(alloc: Global, runs: &Runs, with: &Text) -> Result<Adds, NoMemory>
    ensures { IfOk result (λ added. added ≡ at_starts with.now runs.now) }
{
    let mut added = Adds::new(alloc);
    if with.is_empty() {
        return Ok(added);
    }
    for run in runs.as_slice() {
        let text = with.copy(alloc)?;
        added.push(Added {
            gap: run.start,
            text,
        })?;
    }
    Ok(added)
}
