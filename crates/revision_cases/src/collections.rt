//! What is collected after an entry, and the list that is left of it.
ghost use Rattle.std.specs.Prelude.{IfSome};
ghost use Rattle.revision_cases.specs.Collections.{IsTakenAtHead};

use crate::made::{fails, holds};
use crate::undos::{hides, push, set_of, shows, undo};
use plain_text::NoMemory;
use rev_collect::{clean, collect, collectable};
use rev_list::{RevFault, RevList};
use std::alloc::Global;
use std::collections::BTreeSet;
use subset_runs::Subset;

type Ranges<'a> = &'a [(u64, u64)];

// A list, and what was dropped of the one before it.
type Left = (RevList, Subset);

// What is collected at the head, where these groups are retired and no session is behind.
fn taken(alloc: Global, revs: &RevList, retired: &BTreeSet<u64>) -> Option<(u64, BTreeSet<u64>)>
    ensures { IfSome result (λ found. IsTakenAtHead revs.now found.0 found.1.keys) }
{
    let _floor = revs.floor();
    match collectable(alloc, revs, revs.head(), retired) {
        Ok(found) => found,
        Err(_) => None,
    }
}

// The list that is left then, and what is dropped; none where nothing is collected.
fn left_of(alloc: Global, revs: &RevList, retired: &BTreeSet<u64>) -> Result<Left, NoMemory> {
    match taken(alloc, revs, retired) {
        Some((floor, groups)) => collect(alloc, revs, floor, &groups),
        None => Err(NoMemory),
    }
}

fn left(alloc: Global, revs: &RevList, retired: &[u64]) -> Result<Left, NoMemory> {
    match set_of(alloc, retired) {
        Ok(retired) => left_of(alloc, revs, &retired),
        Err(_) => Err(NoMemory),
    }
}

fn is_set(found: &BTreeSet<u64>, groups: &[u64]) -> bool {
    for group in groups {
        if !found.contains(group) {
            return false;
        }
    }
    found.len() == groups.len()
}

fn collects_of(
    alloc: Global,
    revs: &RevList,
    acknowledged: u64,
    retired: &BTreeSet<u64>,
    groups: &[u64],
) -> bool {
    if acknowledged < revs.floor() || revs.head() < acknowledged {
        return false;
    }
    match collectable(alloc, revs, acknowledged, retired) {
        Ok(Some((floor, found))) => floor == acknowledged && is_set(&found, groups),
        Ok(None) => groups.is_empty(),
        Err(_) => false,
    }
}

// Whether just these groups are collected, at the revision that the sessions have acknowledged, where those are retired.
fn collects(
    alloc: Global,
    revs: &RevList,
    acknowledged: u64,
    retired: &[u64],
    groups: &[u64],
) -> bool {
    match set_of(alloc, retired) {
        Ok(retired) => collects_of(alloc, revs, acknowledged, &retired, groups),
        Err(_) => false,
    }
}

// Whether the floor is clean; false where it is not kept.
fn is_clean(revs: &RevList, floor: u64) -> bool {
    revs.floor() <= floor && floor <= revs.head() && clean(revs, floor)
}

// Whether after this collection so many positions are left, and what is dropped is in these ranges.
fn drops(alloc: Global, revs: &RevList, retired: &[u64], count: u64, ranges: Ranges<'_>) -> bool {
    match left(alloc, revs, retired) {
        Ok(found) => found.0.union_len() == count && found.1.runs() == ranges,
        Err(_) => false,
    }
}

// Each of these groups types one character at the end.
fn types(alloc: Global, revs: &mut RevList, groups: u64) -> bool {
    for group in 0..groups {
        if !push(
            alloc,
            revs,
            group,
            group.saturating_add(1),
            group.saturating_add(1),
            &[(group, group.saturating_add(1))],
            &[],
        ) {
            return false;
        }
    }
    true
}

fn has_forgotten_the_first(alloc: Global, found: &mut Left) -> bool {
    let (made, dropped) = (&found.0, &found.1);
    made.floor() == 21
        && made.head() == 21
        && made.is_collected(1)
        && !made.is_collected(2)
        && made.settled_groups().len() == 20
        && dropped.count() == 0
        && shows(alloc, made, 21, &[])
        && fails(made.dead_at(alloc, 20), RevFault::Collected(21))
}

fn the_first_is_collected(alloc: Global, revs: &mut RevList) -> bool {
    types(alloc, revs, 21)
        && collects(alloc, revs, 21, &[1], &[1])
        && collects(alloc, revs, 21, &[3, 1, 2], &[1, 2, 3])
        && collects(alloc, revs, 21, &[], &[])
        && collects(alloc, revs, 20, &[1], &[1])
        && collects(alloc, revs, 1, &[2, 1], &[1])
        && collects(alloc, revs, 0, &[1], &[])
        && holds(alloc, left(alloc, revs, &[1]), has_forgotten_the_first)
}

#[test]
fn collection_after_twenty_one_groups(rt: HostRuntime) {
    let alloc = rt.alloc();
    assert!(rt; holds(alloc, RevList::start(alloc, 0), the_first_is_collected));
}

// Of `ptq` group 1 deletes `t`, group 2 inserts `E` without having seen that, and group 3 `F` without having seen `E`: `pEFq`.
fn the_eldest_decides(alloc: Global, revs: &mut RevList) -> bool {
    push(alloc, revs, 0, 1, 3, &[], &[(1, 2)])
        && push(alloc, revs, 0, 2, 4, &[(1, 2)], &[])
        && push(alloc, revs, 1, 3, 5, &[(2, 3)], &[])
        && shows(alloc, revs, 3, &[(3, 4)])
}

fn has_unclean_floors(alloc: Global, revs: &mut RevList) -> bool {
    the_eldest_decides(alloc, revs)
        && is_clean(revs, 0)
        && !is_clean(revs, 1)
        && !is_clean(revs, 2)
        && is_clean(revs, 3)
        && collects(alloc, revs, 1, &[1], &[])
        && collects(alloc, revs, 3, &[1], &[1])
}

#[test]
fn a_floor_above_a_base_is_not_clean(rt: HostRuntime) {
    let alloc = rt.alloc();
    assert!(rt; holds(alloc, RevList::start(alloc, 3), has_unclean_floors));
}

// Group 1 inserts `ab` and deletes its `a`.
fn own_characters_are_dropped(alloc: Global, revs: &mut RevList) -> bool {
    push(alloc, revs, 0, 1, 2, &[(0, 2)], &[])
        && push(alloc, revs, 1, 1, 2, &[], &[(0, 1)])
        && drops(alloc, revs, &[1], 1, &[(0, 1)])
        && undo(alloc, revs, &[1])
        && drops(alloc, revs, &[1], 0, &[(0, 2)])
}

#[test]
fn a_group_that_deleted_its_own_characters(rt: HostRuntime) {
    let alloc = rt.alloc();
    assert!(rt; holds(alloc, RevList::start(alloc, 0), own_characters_are_dropped));
}

// Whether nothing is dead where the second group is undone as well, and `b` where it is not.
fn the_second_decides(alloc: Global, found: &mut Left) -> bool {
    hides(alloc, &found.0, &[1], &[(1, 2)]) && hides(alloc, &found.0, &[1, 2], &[])
}

// Groups 1 and 2 both delete `b` of `abc`.
fn deletions_of_two_groups(alloc: Global, revs: &mut RevList) -> bool {
    push(alloc, revs, 0, 1, 3, &[], &[(1, 2)])
        && push(alloc, revs, 0, 2, 3, &[], &[(1, 2)])
        && drops(alloc, revs, &[1], 2, &[(1, 2)])
        && undo(alloc, revs, &[1])
        && drops(alloc, revs, &[1], 3, &[])
        && holds(alloc, left(alloc, revs, &[1]), the_second_decides)
}

#[test]
fn a_character_that_two_groups_deleted(rt: HostRuntime) {
    let alloc = rt.alloc();
    assert!(rt; holds(alloc, RevList::start(alloc, 3), deletions_of_two_groups));
}

// Whether the collected group stays undone, and the next edit stands in what is left.
fn stays_undone(alloc: Global, found: &mut Left) -> bool {
    let dropped = found.1.runs() == [(1, 2)].as_slice();
    let made = &mut found.0;
    dropped
        && made.undone().has(1)
        && made.union_len() == 2
        && !undo(alloc, made, &[])
        && !push(alloc, made, 1, 2, 3, &[(1, 2)], &[])
        && push(alloc, made, 2, 2, 3, &[(1, 2)], &[])
        && undo(alloc, made, &[1, 2])
        && shows(alloc, made, 3, &[])
        && shows(alloc, made, 4, &[(1, 2)])
}

// Group 1 inserts `b` in `ac` and is undone, and then it is collected.
fn an_undone_group(alloc: Global, revs: &mut RevList) -> bool {
    push(alloc, revs, 0, 1, 3, &[(1, 2)], &[])
        && undo(alloc, revs, &[1])
        && holds(alloc, left(alloc, revs, &[1]), stays_undone)
}

#[test]
fn a_collected_group_that_is_undone(rt: HostRuntime) {
    let alloc = rt.alloc();
    assert!(rt; holds(alloc, RevList::start(alloc, 2), an_undone_group));
}

// Whether group 2 is undone and redone, with all its edits up to the floor.
fn is_undone_over_the_floor(alloc: Global, found: &mut Left) -> bool {
    let made = &mut found.0;
    made.floor() == 2
        && undo(alloc, made, &[2])
        && undo(alloc, made, &[])
        && shows(alloc, made, 2, &[])
        && shows(alloc, made, 3, &[(1, 2)])
        && shows(alloc, made, 4, &[])
}

// Groups 1 and 2 type one character each, and the first is collected.
fn an_undo_below(alloc: Global, revs: &mut RevList) -> bool {
    types(alloc, revs, 2) && holds(alloc, left(alloc, revs, &[1]), is_undone_over_the_floor)
}

#[test]
fn an_undo_over_the_floor_of_a_group_below_it(rt: HostRuntime) {
    let alloc = rt.alloc();
    assert!(rt; holds(alloc, RevList::start(alloc, 0), an_undo_below));
}
