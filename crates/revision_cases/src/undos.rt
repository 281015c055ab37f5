//! Undos in the list of revisions, and what any set of groups hides.

use crate::made::holds;
use rev_list::{RevEdit, RevList};
use rev_undo::{agrees_on_collected, may_undo, recompute};
use std::alloc::{AllocError, Global};
use std::collections::BTreeSet;
use subset_runs::{Subset, SubsetFault};

type Ranges<'a> = &'a [(u64, u64)];

// The edit of a group that inserts and deletes the positions in the ranges, of `len` positions after it.
fn edit_of(
    alloc: Global,
    base: u64,
    group: u64,
    len: u64,
    inserted: Ranges<'_>,
    deleted: Ranges<'_>,
) -> Result<RevEdit, SubsetFault> {
    let inserted = Subset::of_ranges(alloc, len, inserted)?;
    let deleted = Subset::of_ranges(alloc, len, deleted)?;
    Ok(RevEdit {
        base,
        priority: 7,
        group,
        author: 0,
        inserted,
        deleted,
    })
}

// Pushes the edit where it may come; its revision.
fn put(alloc: Global, revs: &mut RevList, edit: RevEdit) -> Option<u64> {
    if revs.union_len().checked_add(edit.inserted.count()) == Some(edit.inserted.len())
        && edit.deleted.len() == edit.inserted.len()
        && revs.floor() <= edit.base
        && edit.base <= revs.head()
        && revs.head() <= 1000
        && edit.group != 0
        && !revs.is_collected(edit.group)
    {
        revs.push_edit(alloc, edit).ok()
    } else {
        None
    }
}

// Has the group insert and delete the positions in the ranges, of `len` positions after it; its revision, where it came.
pub(crate) fn pushed(
    alloc: Global,
    revs: &mut RevList,
    base: u64,
    group: u64,
    len: u64,
    inserted: Ranges<'_>,
    deleted: Ranges<'_>,
) -> Option<u64> {
    match edit_of(alloc, base, group, len, inserted, deleted) {
        Ok(edit) => put(alloc, revs, edit),
        Err(_) => None,
    }
}

// The same, and tells whether it came.
pub(crate) fn push(
    alloc: Global,
    revs: &mut RevList,
    base: u64,
    group: u64,
    len: u64,
    inserted: Ranges<'_>,
    deleted: Ranges<'_>,
) -> bool {
    pushed(alloc, revs, base, group, len, inserted, deleted).is_some()
}

pub(crate) fn set_of(alloc: Global, groups: &[u64]) -> Result<BTreeSet<u64>, AllocError> {
    let mut set = BTreeSet::new(alloc);
    for group in groups {
        set.insert(*group)?;
    }
    Ok(set)
}

// Whether these are the runs of what was made.
pub(crate) fn has_runs<E: Drop>(made: Result<Subset, E>, runs: Ranges<'_>) -> bool {
    match made {
        Ok(set) => set.runs() == runs,
        Err(_) => false,
    }
}

fn set_hides(alloc: Global, revs: &RevList, set: &BTreeSet<u64>, ranges: Ranges<'_>) -> bool {
    agrees_on_collected(revs, set) && has_runs(recompute(alloc, revs, set), ranges)
}

// Whether the groups hide at the head what is in these ranges.
pub(crate) fn hides(alloc: Global, revs: &RevList, groups: &[u64], ranges: Ranges<'_>) -> bool {
    match set_of(alloc, groups) {
        Ok(set) => set_hides(alloc, revs, &set, ranges),
        Err(_) => false,
    }
}

fn is_undone(alloc: Global, revs: &mut RevList, set: &BTreeSet<u64>) -> bool {
    if revs.head() > 1000 || !may_undo(revs, set) {
        return false;
    }
    match recompute(alloc, revs, set) {
        Ok(dead) => revs.push_undo(alloc, set, dead).is_ok(),
        Err(_) => false,
    }
}

// Undoes exactly these groups, and tells whether they may be undone.
pub(crate) fn undo(alloc: Global, revs: &mut RevList, groups: &[u64]) -> bool {
    match set_of(alloc, groups) {
        Ok(set) => is_undone(alloc, revs, &set),
        Err(_) => false,
    }
}

// Whether what is dead at the revision is in these ranges.
pub(crate) fn shows(alloc: Global, revs: &RevList, rev: u64, ranges: Ranges<'_>) -> bool {
    has_runs(revs.dead_at(alloc, rev), ranges)
}

// Group 1 inserts `abc`, group 2 deletes `b`, and group 3 inserts `X` without having seen that: `aXc`.
fn three_groups(alloc: Global, revs: &mut RevList) -> bool {
    push(alloc, revs, 0, 1, 3, &[(0, 3)], &[])
        && push(alloc, revs, 1, 2, 3, &[], &[(1, 2)])
        && push(alloc, revs, 1, 3, 4, &[(2, 3)], &[])
}

fn any_set_hides(alloc: Global, revs: &mut RevList) -> bool {
    three_groups(alloc, revs)
        && hides(alloc, revs, &[], &[(1, 2)])
        && hides(alloc, revs, &[2], &[])
        && hides(alloc, revs, &[1], &[(0, 2), (3, 4)])
        && hides(alloc, revs, &[1, 2], &[(0, 2), (3, 4)])
        && hides(alloc, revs, &[2, 3], &[(2, 3)])
        && hides(alloc, revs, &[9], &[(1, 2)])
}

#[test]
fn undo_of_any_set(rt: HostRuntime) {
    let alloc = rt.alloc();
    assert!(rt; holds(alloc, RevList::start(alloc, 0), any_set_hides));
}

// Whether the second group is undone, the first in its place, and then both.
fn three_undos(alloc: Global, revs: &mut RevList) -> bool {
    three_groups(alloc, revs)
        && undo(alloc, revs, &[2])
        && undo(alloc, revs, &[1])
        && hides(alloc, revs, &[2], &[])
        && undo(alloc, revs, &[1, 2])
        && !undo(alloc, revs, &[9])
        && hides(alloc, revs, &[], &[(1, 2)])
}

fn shows_after_undos(alloc: Global, revs: &mut RevList) -> bool {
    three_undos(alloc, revs)
        && shows(alloc, revs, 3, &[(1, 2)])
        && shows(alloc, revs, 4, &[])
        && shows(alloc, revs, 5, &[(0, 2), (3, 4)])
        && shows(alloc, revs, 6, &[(0, 2), (3, 4)])
}

#[test]
fn undo_shows_no_earlier_revision_another_way(rt: HostRuntime) {
    let alloc = rt.alloc();
    assert!(rt; holds(alloc, RevList::start(alloc, 0), shows_after_undos));
}

// Whether group 1 inserts, is undone, and then inserts and deletes without being seen.
fn a_hidden_edit(alloc: Global, revs: &mut RevList) -> bool {
    push(alloc, revs, 0, 1, 3, &[(1, 2)], &[])
        && undo(alloc, revs, &[1])
        && push(alloc, revs, 2, 1, 4, &[(3, 4)], &[(0, 1)])
        && shows(alloc, revs, 2, &[(1, 2), (3, 4)])
        && shows(alloc, revs, 3, &[(1, 2), (3, 4)])
}

// Whether all of it shows once the group is not undone any more, and not before.
fn hides_on_arrival(alloc: Global, revs: &mut RevList) -> bool {
    a_hidden_edit(alloc, revs)
        && hides(alloc, revs, &[], &[(0, 1)])
        && undo(alloc, revs, &[])
        && shows(alloc, revs, 3, &[(1, 2), (3, 4)])
        && shows(alloc, revs, 4, &[(0, 1)])
}

#[test]
fn hidden_on_arrival(rt: HostRuntime) {
    let alloc = rt.alloc();
    assert!(rt; holds(alloc, RevList::start(alloc, 2), hides_on_arrival));
}
