// Runs in order, and one more at their end.
ghost use Rattle.std.specs.Prelude.{◌≡◌, ◌≤◌, drop, length, IfOk, OnOk};
ghost use Rattle.number_runs.specs.Runs.{is_in_some, last_start, AreSeparate};
ghost use Rattle.number_runs.specs.Inner.{Adds, AddsAll, AddsUpTo, AreJoined};

use std::alloc::{AllocError, Global};
use std::collections::BTreeSet;

/// The numbers from the start to the end, the end included.
#[derive(Clone, Copy)]
pub(crate) struct NumberRun {
    pub(crate) start: u64,
    pub(crate) end: u64,
}

// Whether one of the runs has the number.
pub(crate) fn is_in_some(runs: &[NumberRun], number: u64) -> bool
    requires { AreSeparate 0 runs.now }
    ensures { result ≡ is_in_some runs.now number }
{
    let at = runs.partition_point(|run| run.end < number);
    at < runs.len() && runs[at].start <= number
}

// Puts a run after the runs, as a part of the last one where the two touch or meet.
pub(crate) fn add(runs: &mut Vec<NumberRun>, run: NumberRun) -> Result<(), AllocError>
    requires order { run.start ≤ run.end }
    requires apart { AreSeparate 0 runs.old.items }
    requires by { last_start 0 runs.old.items ≤ run.start }
    ensures { OnOk result (Adds 0 0 runs.old.items runs.new.items run) }
{
    let n = runs.len();
    if n > 0 && run.start.saturating_sub(1) <= runs[n - 1].end {
        let end = runs[n - 1].end.max(run.end);
        runs[n - 1].end = end;
        return Ok(());
    }
    runs.push(run)?;
    Ok(())
}

// Adds those from `taken` on that start by the number, and says where the others begin.
pub(crate) fn add_up_to(
    runs: &mut Vec<NumberRun>,
    more: &[NumberRun],
    taken: usize,
    number: u64,
) -> Result<usize, AllocError>
    requires apart { AreSeparate 0 runs.old.items }
    requires left { AreSeparate (last_start 0 runs.old.items) (drop taken more.now) }
    requires by { last_start 0 runs.old.items ≤ number }
    requires inside { taken ≤ length more.now }
    ensures inside { IfOk result (λ at. at ≤ length more.now) }
    ensures adds { IfOk result (λ at.
        AddsUpTo runs.old.items runs.new.items (drop taken more.now) (drop at more.now) number) }
{
    let mut at = taken;
    while at < more.len() && more[at].start <= number {
        add(runs, more[at])?;
        at += 1;
    }
    Ok(at)
}

// Adds all of these.
pub(crate) fn add_all(runs: &mut Vec<NumberRun>, more: &[NumberRun]) -> Result<(), AllocError>
    requires apart { AreSeparate 0 runs.old.items }
    requires left { AreSeparate (last_start 0 runs.old.items) more.now }
    ensures { OnOk result (AddsAll runs.old.items runs.new.items more.now) }
{
    for run in more {
        add(runs, *run)?;
    }
    Ok(())
}

// The runs of what these have and of the numbers, in order.
#[tactic(auto, using(crate::proofs::JoinLemmas::rising_of_sorted))]
pub(crate) fn joined(
    alloc: Global,
    first: &[NumberRun],
    more: &BTreeSet<u64>,
) -> Result<Vec<NumberRun>, AllocError>
    requires { AreSeparate 0 first.now }
    ensures { IfOk result (λ runs. AreJoined first.now runs.items more.now.keys) }
{
    let _count = more.len();
    let mut runs = Vec::new(alloc);
    let mut taken = 0;
    for number in more {
        taken = add_up_to(&mut runs, first, taken, *number)?;
        add(
            &mut runs,
            NumberRun {
                start: *number,
                end: *number,
            },
        )?;
    }
    add_all(&mut runs, first.split_at(taken).1)?;
    Ok(runs)
}
