ghost use Rattle.std.specs.Prelude.{◌≡◌, ◌≤◌, [], ◌∷◌, ◌++◌, IfOk, OnOk};
ghost use Rattle.std.specs.List.{AllByRecursion};
ghost use Rattle.match_index.specs.Found.{joined_onto, touching};
ghost use Rattle.match_index.specs.Inner.{strides_under, with_joined};
ghost use Rattle.match_index.specs.Strides.{runs_behind};

use crate::stride::Strides;
use crate::tree::{ending_by, run_behind};
use plain_text::{NoMemory, Run, Runs};
use shared_tree::Tree;
use std::alloc::Global;

/// The matches of strides that have a character of a run, joined where one starts at the end of another.
pub(crate) fn joined_matches(
    alloc: Global,
    strides: &Tree<Strides>,
    len: u64,
    run: Run,
) -> Result<Runs, NoMemory>
    requires { AllByRecursion (λ stride. len ≤ stride) (strides_under strides.now) }
    ensures { IfOk result (λ runs. runs ≡ touching run (runs_behind len 0 (strides_under strides.now))) }
{
    // The matches can be counted.
    let _all = strides.summary();
    let mut runs = Runs::new(alloc);
    let (mut index, mut end) = ending_by(strides, run.start);
    while let Some(found) = run_behind(strides, len, index, end) {
        if found.start >= run.end {
            return Ok(runs);
        }
        put_joined(&mut runs, found)?;
        index += 1;
        end = found.end;
    }
    Ok(runs)
}

/// Puts a run behind others; where it starts at the end of the last, the two are one.
pub(crate) fn put_joined(runs: &mut Runs, run: Run) -> Result<(), NoMemory>
    ensures { OnOk result (runs.new ≡ with_joined runs.old run) }
{
    match runs.pop() {
        Some(last) => put_onto(runs, last, run),
        None => runs.push(run),
    }
}

fn put_onto(runs: &mut Runs, last: Run, run: Run) -> Result<(), NoMemory>
    ensures { OnOk result (runs.new ≡ runs.old ++ joined_onto last (run ∷ [])) }
{
    if last.end == run.start {
        return runs.push(Run {
            start: last.start,
            end: run.end,
        });
    }
    runs.push(last)?;
    runs.push(run)
}
