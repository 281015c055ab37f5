// From where on what a set hides is worked out. The set is what is undone at the head, with the groups of `differ` turned.
ghost use Rattle.std.specs.Prelude.{◌≡◌, ℕ, ◌-◌, ◌<◌, ◌≤◌, [], ◌∷◌, true, false, IfOk, List};
ghost use Rattle.plain_text.specs.Numbers.{flipped, IsRising};
ghost use Rattle.plain_edits.specs.History.{head};
ghost use Rattle.plain_edits.specs.Undo.{undone_now};
ghost use Rattle.rev_list.specs.Hidden.{hidden_then};
ghost use Rattle.rev_undo.specs.Start.{AreOpen, IsStart, NoneBy, TurnsFirst};
ghost use Rattle.rev_undo.specs.Under.{hidden_then_under};

use crate::floor::hidden_at_floor;
use number_set::NumberSet;
use plain_text::NoMemory;
use rev_list::{RevList, RevStep};
use std::alloc::Global;
use subset_runs::Subset;

// The last revision at which what was undone agrees with the set on all groups that have an edit by then. It costs the logarithm of
// the number of groups for each group of `differ` and of the undos after that revision, and the height of the list for each revision.
pub(crate) fn start_of(alloc: Global, revs: &RevList, differ: &NumberSet) -> Result<u64, NoMemory>
    ensures { IfOk result (IsStart revs.now (flipped (undone_now revs.now) differ.now)) }
{
    let mut firsts = first_edits(alloc, revs, differ)?;
    let floor = revs.floor();
    let mut at = revs.head();
    while is_reached(floor, &firsts, at) {
        firsts = firsts_before(alloc, revs, firsts, at)?;
        at -= 1;
    }
    Ok(at)
}

// Whether one of these first edits is by the revision, and that is not the floor.
fn is_reached(floor: u64, firsts: &NumberSet, at: u64) -> bool
    ensures after { result ≡ true → floor < at }
    ensures none { result ≡ false → NoneBy floor firsts.now at }
{
    let count = firsts.len();
    at > floor && count > 0 && firsts.at(0) <= at
}

// The first edits of the groups.
fn first_edits(alloc: Global, revs: &RevList, groups: &NumberSet) -> Result<NumberSet, NoMemory>
    ensures { IfOk result (AreOpen revs.now (flipped (undone_now revs.now) groups.now) (head revs.now)) }
{
    let _undone = revs.undone();
    let mut firsts = NumberSet::new(alloc);
    for index in 0..groups.len() {
        firsts = turned_by(alloc, revs, firsts, groups.at(index))?;
    }
    Ok(firsts)
}

// The first edits of the groups in which the set differs from what was undone before a revision, where `firsts` are those after it.
fn firsts_before(
    alloc: Global,
    revs: &RevList,
    firsts: NumberSet,
    at: u64,
) -> Result<NumberSet, NoMemory>
    requires after { revs.now.floor < at }
    requires known { at ≤ head revs.now }
    ensures { IfOk result (λ made. (groups : List ℕ) → AreOpen revs.now groups at firsts
        → AreOpen revs.now groups (at - 1) made) }
{
    let _sets = revs.undone();
    match revs.revision(at) {
        RevStep::Edit(_) => Ok(firsts),
        RevStep::Undo(groups) => turned_over(alloc, revs, firsts, groups.as_slice()),
    }
}

// With the first edit of each of these groups turned.
fn turned_over(
    alloc: Global,
    revs: &RevList,
    firsts: NumberSet,
    groups: &[u64],
) -> Result<NumberSet, NoMemory>
    requires { IsRising groups.now }
    ensures { IfOk result (TurnsFirst revs.now groups.now firsts) }
{
    let mut made = firsts;
    for group in groups {
        made = turned_by(alloc, revs, made, *group)?;
    }
    Ok(made)
}

// With that of one group turned; a group without an edit turns nothing.
fn turned_by(
    alloc: Global,
    revs: &RevList,
    firsts: NumberSet,
    group: u64,
) -> Result<NumberSet, NoMemory>
    ensures { IfOk result (TurnsFirst revs.now (group ∷ []) firsts) }
{
    match revs.first_edit(group) {
        Some(first) => firsts.turned(alloc, first),
        None => Ok(firsts),
    }
}

// What the set hides where the walk begins.
#[tactic(auto, using(crate::proofs::StepLemmas::agreed))]
pub(crate) fn hidden_from(
    alloc: Global,
    revs: &RevList,
    differ: &NumberSet,
    at: u64,
) -> Result<Subset, NoMemory>
    requires { IsStart revs.now (flipped (undone_now revs.now) differ.now) at }
    ensures { IfOk result (λ dead. dead
        ≡ hidden_then_under revs.now (flipped (undone_now revs.now) differ.now) at) }
{
    if at == revs.floor() {
        return hidden_at_floor(alloc, revs, differ);
    }
    dead_then(alloc, revs, at)
}

// A revision that is kept has no other fault than want of memory.
fn dead_then(alloc: Global, revs: &RevList, at: u64) -> Result<Subset, NoMemory>
    ensures { IfOk result (λ dead. dead ≡ hidden_then revs.now at) }
{
    match revs.dead_then(alloc, at) {
        Ok(dead) => Ok(dead),
        Err(_) => Err(NoMemory),
    }
}
