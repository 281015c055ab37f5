//! Collections of the revision engine: what is kept, shown, refused and undone after them.

use crate::made::{fails, gives, holds, is_made};
use crate::rows::{deletion, insertion, loaded, shows, take, takes_all};
use plain_text::NoMemory;
use rev_engine::{EditFault, Engine, UndoFault};
use rev_list::RevFault;
use std::alloc::{AllocError, Global};
use std::collections::BTreeSet;

pub(crate) fn set_of(alloc: Global, groups: &[u64]) -> Result<BTreeSet<u64>, AllocError> {
    let mut set = BTreeSet::new(alloc);
    for group in groups {
        set.insert(*group)?;
    }
    Ok(set)
}

// Undoes exactly the groups of a set; the revision.
fn undone(alloc: Global, engine: &mut Engine, set: &BTreeSet<u64>) -> Result<u64, UndoFault> {
    if !engine.may_undo(set) {
        return Err(UndoFault::NoMemory);
    }
    let change = engine.set_undone(alloc, set)?;
    Ok(change.rev)
}

// Undoes exactly these groups; the revision.
pub(crate) fn undo(alloc: Global, engine: &mut Engine, groups: &[u64]) -> Result<u64, UndoFault> {
    match set_of(alloc, groups) {
        Ok(set) => undone(alloc, engine, &set),
        Err(_) => Err(UndoFault::NoMemory),
    }
}

// Collects at the head those of a set of groups that are at rest, and tells how many those are.
fn collected(alloc: Global, engine: &mut Engine, retired: &BTreeSet<u64>) -> Result<u64, NoMemory> {
    let _floor = engine.floor();
    let head = engine.head();
    match engine.collectable(alloc, head, retired)? {
        Some((floor, groups)) => {
            engine.collect(alloc, floor, &groups)?;
            Ok(groups.len() as u64)
        }
        None => Ok(0),
    }
}

// Collects at the head those of these groups that are at rest, and tells how many those are.
pub(crate) fn collect(
    alloc: Global,
    engine: &mut Engine,
    retired: &[u64],
) -> Result<u64, NoMemory> {
    match set_of(alloc, retired) {
        Ok(retired) => collected(alloc, engine, &retired),
        Err(_) => Err(NoMemory),
    }
}

// Whether so many groups insert an LF each at the end of the text.
pub(crate) fn types_newlines(alloc: Global, engine: &mut Engine, groups: u64) -> bool {
    for at in 0..groups {
        let group = at.saturating_add(1);
        if !is_made(take(alloc, engine, insertion(at, at, at, "\n", group))) {
            return false;
        }
    }
    true
}

// Whether the groups from the last one down to the second are undone, one after the other.
fn undoes_twenty(alloc: Global, engine: &mut Engine) -> bool {
    let all = [
        21, 20, 19, 18, 17, 16, 15, 14, 13, 12, 11, 10, 9, 8, 7, 6, 5, 4, 3, 2,
    ];
    for count in 1..=all.len() {
        if !is_made(undo(alloc, engine, &all[..count])) {
            return false;
        }
    }
    true
}

// Whether nothing can be done with what is collected.
fn is_over(alloc: Global, engine: &mut Engine) -> bool {
    let (low, high) = (insertion(0, 0, 0, "a", 22), insertion(22, 21, 0, "a", 22));
    fails(take(alloc, engine, low), EditFault::Collected(21))
        && fails(take(alloc, engine, high), EditFault::Unknown(21))
        && fails(undo(alloc, engine, &[1]), UndoFault::Frozen(1))
        && fails(undo(alloc, engine, &[1, 21]), UndoFault::Frozen(1))
        && fails(engine.text_at(alloc, 20), RevFault::Collected(21))
        && fails(engine.since(alloc, 20), RevFault::Collected(21))
}

fn collects_the_oldest(alloc: Global, engine: &mut Engine) -> bool {
    types_newlines(alloc, engine, 21)
        && gives(collect(alloc, engine, &[1]), 1)
        && engine.floor() == 21
        && engine.head() == 21
        && engine.is_collected(1)
        && !engine.is_collected(2)
        && engine.kept() == 21
        && is_over(alloc, engine)
        && undoes_twenty(alloc, engine)
        && engine.head() == 41
        && shows(alloc, engine, 41, "\n")
        && engine.kept() == 21
}

#[test]
fn the_oldest_of_twenty_one_groups_is_collected(rt: HostRuntime) {
    let alloc = rt.alloc();
    assert!(rt; holds(alloc, loaded(alloc, ""), collects_the_oldest));
}

// Of `a😀é`, group 1 deletes the wide characters, group 2 puts `X` and group 3 `Y` behind, and group 3 is undone; then 1 and 3 are collected.
fn forgets(alloc: Global, engine: &mut Engine) -> bool {
    let rows = [
        deletion(0, 7, 1, 7, 1),
        insertion(1, 1, 1, "X", 2),
        insertion(2, 2, 2, "Y", 3),
    ];
    takes_all(alloc, engine, &rows)
        && gives(undo(alloc, engine, &[3]), 4)
        && engine.kept() == 5
        && gives(collect(alloc, engine, &[1, 3]), 2)
        && engine.floor() == 4
        && engine.kept() == 2
        && shows(alloc, engine, 4, "aX")
        && fails(engine.text_at(alloc, 3), RevFault::Collected(4))
}

// Whether a stale edit against the floor goes where it did, and a group whose edits lie below the floor is undone and redone.
fn goes_on(alloc: Global, engine: &mut Engine) -> bool {
    let rows = [insertion(4, 2, 0, "B", 4), insertion(4, 2, 2, "S", 5)];
    takes_all(alloc, engine, &rows)
        && shows(alloc, engine, 6, "BaXS")
        && fails(undo(alloc, engine, &[2]), UndoFault::Frozen(3))
        && fails(undo(alloc, engine, &[1, 2]), UndoFault::Frozen(1))
        && gives(undo(alloc, engine, &[2, 3]), 7)
        && shows(alloc, engine, 7, "BaS")
        && gives(undo(alloc, engine, &[3]), 8)
        && shows(alloc, engine, 8, "BaXS")
        && shows(alloc, engine, 4, "aX")
        && engine.kept() == 4
}

fn forgets_and_goes_on(alloc: Global, engine: &mut Engine) -> bool {
    forgets(alloc, engine) && goes_on(alloc, engine)
}

#[test]
fn undone_and_deleting_groups_are_collected(rt: HostRuntime) {
    let alloc = rt.alloc();
    assert!(rt; holds(alloc, loaded(alloc, "a😀é"), forgets_and_goes_on));
}

// Whether nothing is collected where no group is at rest at the head, and then nothing is lost.
fn keeps_all(alloc: Global, engine: &mut Engine) -> bool {
    types_newlines(alloc, engine, 3)
        && gives(collect(alloc, engine, &[]), 0)
        && engine.floor() == 0
        && gives(collect(alloc, engine, &[1, 2, 3]), 3)
        && engine.kept() == 3
        && gives(collect(alloc, engine, &[1, 2, 3]), 0)
        && shows(alloc, engine, 3, "\n\n\n")
}

#[test]
fn groups_that_drop_nothing_lose_nothing(rt: HostRuntime) {
    let alloc = rt.alloc();
    assert!(rt; holds(alloc, loaded(alloc, ""), keeps_all));
}
