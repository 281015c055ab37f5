//! Collections of the revision engine below its head.

use crate::collections::{set_of, types_newlines, undo};
use crate::made::{fails, gives, holds};
use crate::rows::{Row, deletion, insertion, loaded, shows, take, takes_all};
use plain_text::NoMemory;
use rev_engine::{EditFault, Engine, UndoFault};
use rev_list::RevFault;
use std::alloc::Global;
use std::collections::BTreeSet;

// Collects the groups of a set at a floor, and tells whether that may be.
fn collected(
    alloc: Global,
    engine: &mut Engine,
    floor: u64,
    groups: &BTreeSet<u64>,
) -> Result<bool, NoMemory> {
    if !engine.may_collect(alloc, floor, groups)? {
        return Ok(false);
    }
    engine.collect(alloc, floor, groups)?;
    Ok(true)
}

// Collects these groups at a floor, and tells whether that may be.
fn collect(
    alloc: Global,
    engine: &mut Engine,
    floor: u64,
    groups: &[u64],
) -> Result<bool, NoMemory> {
    match set_of(alloc, groups) {
        Ok(groups) => collected(alloc, engine, floor, &groups),
        Err(_) => Err(NoMemory),
    }
}

// Whether the floor is this, and so many characters are kept.
fn has_floor(engine: &Engine, floor: u64, kept: u64) -> bool {
    engine.floor() == floor && engine.kept() == kept
}

fn with_priority(row: Row, priority: u32) -> Row {
    let mut row = row;
    row.priority = priority;
    row
}

// `a` is undone and then `b` typed: `a` is dropped from where it rests on, and not before.
fn collects_from_where_it_rests(alloc: Global, engine: &mut Engine) -> bool {
    takes_all(alloc, engine, &[insertion(0, 0, 0, "a", 1)])
        && gives(undo(alloc, engine, &[1]), 2)
        && takes_all(
            alloc,
            engine,
            &[with_priority(insertion(2, 0, 0, "b", 2), 1)],
        )
        && gives(collect(alloc, engine, 1, &[1]), false)
        && has_floor(engine, 0, 2)
        && gives(collect(alloc, engine, 2, &[1]), true)
        && has_floor(engine, 2, 1)
        && shows(alloc, engine, 2, "")
        && fails(
            take(alloc, engine, insertion(1, 1, 0, "Z", 3)),
            EditFault::Collected(2),
        )
        && takes_all(alloc, engine, &[insertion(2, 0, 0, "Z", 3)])
        && shows(alloc, engine, 4, "Zb")
}

#[test]
fn a_group_is_collected_from_where_it_rests(rt: HostRuntime) {
    let alloc = rt.alloc();
    assert!(rt; holds(alloc, loaded(alloc, ""), collects_from_where_it_rests));
}

// Of twenty-one groups the first is collected in their midst; then at the floor that is there already, and others further on.
fn collects_in_their_midst(alloc: Global, engine: &mut Engine) -> bool {
    types_newlines(alloc, engine, 21)
        && gives(collect(alloc, engine, 5, &[1]), true)
        && has_floor(engine, 5, 21)
        && shows(alloc, engine, 5, "\n\n\n\n\n")
        && fails(
            take(alloc, engine, insertion(4, 4, 0, "a", 22)),
            EditFault::Collected(5),
        )
        && fails(undo(alloc, engine, &[1]), UndoFault::Frozen(1))
        && gives(collect(alloc, engine, 5, &[6]), false)
        && gives(collect(alloc, engine, 5, &[]), true)
        && gives(collect(alloc, engine, 4, &[]), false)
        && gives(collect(alloc, engine, 12, &[2, 3]), true)
        && has_floor(engine, 12, 21)
        && gives(undo(alloc, engine, &[21]), 22)
        && gives(collect(alloc, engine, 23, &[]), false)
}

#[test]
fn groups_are_collected_in_their_midst(rt: HostRuntime) {
    let alloc = rt.alloc();
    assert!(rt; holds(alloc, loaded(alloc, ""), collects_in_their_midst));
}

// `X` is dropped at a floor behind which others were inserted beside it, and one more comes against that floor.
fn goes_beside_what_was_dropped(alloc: Global, engine: &mut Engine) -> bool {
    let (y, u) = (insertion(2, 2, 1, "Y", 2), insertion(2, 2, 1, "U", 3));
    let v = insertion(2, 2, 1, "V", 4);
    takes_all(alloc, engine, &[insertion(0, 2, 1, "X", 1)])
        && gives(undo(alloc, engine, &[1]), 2)
        && takes_all(alloc, engine, &[with_priority(y, 2), with_priority(u, 1)])
        && gives(collect(alloc, engine, 2, &[1]), true)
        && has_floor(engine, 2, 4)
        && shows(alloc, engine, 4, "aUYb")
        && takes_all(alloc, engine, &[with_priority(v, 1)])
        && shows(alloc, engine, 5, "aUVYb")
}

// `b` is dropped at a floor, and an edit after it whose base shows none of it deletes all there is.
fn deletes_what_was_dropped(alloc: Global, engine: &mut Engine) -> bool {
    let rows = [
        deletion(0, 3, 1, 2, 1),
        insertion(1, 2, 1, "x", 2),
        deletion(1, 2, 0, 2, 3),
    ];
    takes_all(alloc, engine, &rows)
        && gives(collect(alloc, engine, 1, &[1]), true)
        && has_floor(engine, 1, 3)
        && shows(alloc, engine, 1, "ac")
        && shows(alloc, engine, 2, "axc")
        && shows(alloc, engine, 3, "x")
        && gives(undo(alloc, engine, &[2, 3]), 4)
        && shows(alloc, engine, 4, "ac")
}

#[test]
fn later_edits_stand_where_they_stood(rt: HostRuntime) {
    let alloc = rt.alloc();
    assert!(rt; holds(alloc, loaded(alloc, "ab"), goes_beside_what_was_dropped));
    assert!(rt; holds(alloc, loaded(alloc, "abc"), deletes_what_was_dropped));
}

// Group 2 is undone after the floor, and comes back by a set that has it no more.
fn goes_back_over_an_undo(alloc: Global, engine: &mut Engine) -> bool {
    let rows = [deletion(0, 3, 2, 3, 1), insertion(1, 2, 1, "d", 2)];
    takes_all(alloc, engine, &rows)
        && gives(undo(alloc, engine, &[2]), 3)
        && gives(collect(alloc, engine, 1, &[2]), false)
        && gives(collect(alloc, engine, 1, &[1]), true)
        && has_floor(engine, 1, 3)
        && shows(alloc, engine, 2, "adb")
        && shows(alloc, engine, 3, "ab")
        && gives(undo(alloc, engine, &[]), 4)
        && shows(alloc, engine, 4, "adb")
        && fails(undo(alloc, engine, &[1]), UndoFault::Frozen(1))
}

// Of `abcd`, `a` is dropped at floor 2 and then `x` at floor 3, both below the head.
fn collects_twice(alloc: Global, engine: &mut Engine) -> bool {
    let rows = [deletion(0, 4, 0, 1, 1), insertion(1, 3, 1, "x", 2)];
    takes_all(alloc, engine, &rows)
        && gives(undo(alloc, engine, &[2]), 3)
        && takes_all(alloc, engine, &[insertion(3, 3, 3, "y", 3)])
        && gives(collect(alloc, engine, 2, &[1]), true)
        && has_floor(engine, 2, 5)
        && shows(alloc, engine, 2, "bxcd")
        && gives(collect(alloc, engine, 3, &[2]), true)
        && has_floor(engine, 3, 4)
        && shows(alloc, engine, 3, "bcd")
        && shows(alloc, engine, 4, "bcdy")
        && fails(engine.text_at(alloc, 2), RevFault::Collected(3))
}

#[test]
fn undos_and_collections_follow_each_other(rt: HostRuntime) {
    let alloc = rt.alloc();
    assert!(rt; holds(alloc, loaded(alloc, "abc"), goes_back_over_an_undo));
    assert!(rt; holds(alloc, loaded(alloc, "abcd"), collects_twice));
}
