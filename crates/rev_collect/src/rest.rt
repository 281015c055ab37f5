// Groups at rest at a floor.
ghost use Rattle.std.specs.List.{AllByRecursion};
ghost use Rattle.std.specs.Prelude.{◌≡◌, ℕ, ◌≤◌, ◌↔◌, false, not, ◌&&◌, [], IfOk, IsTrue};
ghost use Rattle.plain_text.specs.Numbers.{has};
ghost use Rattle.plain_edits.specs.History.{head};
ghost use Rattle.plain_edits.specs.Collection.{is_at_rest, resting_groups, MayCollect};
ghost use Rattle.rev_collect.specs.Inner.{AreMoving, IsMoved};

use crate::floors::clean;
use number_set::NumberSet;
use plain_text::NoMemory;
use rev_list::{RevList, RevStep};
use std::alloc::Global;
use std::collections::BTreeSet;

// The groups of a set that are not collected yet and are at rest at the floor: one pass over the revisions after the floor and over the
// groups that each moves, and one over the set.
pub(crate) fn resting_groups(
    alloc: Global,
    revs: &RevList,
    retired: &BTreeSet<u64>,
    floor: u64,
) -> Result<BTreeSet<u64>, NoMemory>
    requires reached { revs.now.floor ≤ floor }
    requires known { floor ≤ head revs.now }
    ensures { IfOk result (λ groups. groups.keys ≡ resting_groups revs.now retired.now.keys floor) }
{
    let moving = moving_after(alloc, revs, floor)?;
    let _count = retired.len();
    let mut groups = BTreeSet::new(alloc);
    for group in retired {
        if is_resting(revs, &moving, *group) {
            groups.insert(*group)?;
        }
    }
    Ok(groups)
}

// Whether each of the groups is collected, or has its first edit after the revision: then none is at rest up to there. It costs the logarithm
// of the number of groups for each.
pub(crate) fn none_rests(revs: &RevList, groups: &BTreeSet<u64>, most: u64) -> bool
    ensures { IsTrue result → (floor : ℕ) → floor ≤ most → resting_groups revs.now groups.now.keys floor ≡ [] }
{
    for group in groups {
        if may_rest(revs, *group, most) {
            return false;
        }
    }
    true
}

fn may_rest(revs: &RevList, group: u64, most: u64) -> bool
    ensures { result ≡ false → (floor : ℕ) → floor ≤ most
        → (not (has revs.now.collected group) && is_at_rest revs.now floor group) ≡ false }
{
    if revs.is_collected(group) {
        return false;
    }
    match revs.first_edit(group) {
        Some(first) => first <= most,
        None => true,
    }
}

fn is_resting(revs: &RevList, moving: &NumberSet, group: u64) -> bool
    ensures { result ≡ (not (has revs.now.collected group) && not (has moving.now group)) }
{
    !revs.is_collected(group) && !moving.has(group)
}

// The groups that are not at rest at the floor: those with an edit after it, and those that an undo after it turns.
fn moving_after(alloc: Global, revs: &RevList, floor: u64) -> Result<NumberSet, NoMemory>
    requires reached { revs.now.floor ≤ floor }
    requires known { floor ≤ head revs.now }
    ensures { IfOk result (AreMoving revs.now floor) }
{
    let _sets = revs.undone();
    let mut moving = NumberSet::new(alloc);
    let mut at = revs.head();
    while floor < at {
        moving = with_moved(alloc, &moving, revs.revision(at))?;
        at -= 1;
    }
    Ok(moving)
}

// With the group of an edit, or the groups that an undo turns.
fn with_moved(alloc: Global, moving: &NumberSet, revision: &RevStep) -> Result<NumberSet, NoMemory>
    ensures { IfOk result (IsMoved revision.now moving.now) }
{
    match revision {
        RevStep::Edit(edit) => moving.with(alloc, edit.group),
        RevStep::Undo(groups) => moving.with_all(alloc, groups.as_slice()),
    }
}

/// Whether a collection of these groups at this floor may come: the floor is from the present one to the head and clean, and the groups are
/// at rest there. It costs one pass over the revisions after the floor and over the groups that each moves, and a look-up for each group.
pub fn may_collect(
    alloc: Global,
    revs: &RevList,
    floor: u64,
    groups: &BTreeSet<u64>,
) -> Result<bool, NoMemory>
    ensures { IfOk result (λ may. IsTrue may ↔ MayCollect revs.now floor groups.now.keys) }
{
    if floor < revs.floor() || revs.head() < floor {
        return Ok(false);
    }
    if !clean(revs, floor) {
        return Ok(false);
    }
    let moving = moving_after(alloc, revs, floor)?;
    Ok(all_rest(&moving, groups))
}

// Whether none of the groups moves.
fn all_rest(moving: &NumberSet, groups: &BTreeSet<u64>) -> bool
    ensures { IsTrue result ↔ AllByRecursion (λ group. has moving.now group ≡ false) groups.now.keys }
{
    for group in groups {
        if moving.has(*group) {
            return false;
        }
    }
    true
}
