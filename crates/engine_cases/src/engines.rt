//! The revision engine, and through it the places of stale edits.

use crate::made::{fails, holds, is_made};
use crate::rows::{Row, deletion, loaded, loaded_with, shows, take, takes_all};
use plain_edits::Misfit;
use plain_text::Run;
use rev_engine::{Change, EditFault, Engine};
use rev_list::RevFault;
use std::alloc::Global;

// An insertion of this priority.
fn placed(rev: u64, len: u64, at: u64, added: &'static str, priority: u32) -> Row {
    Row {
        rev,
        len,
        from: at,
        to: at,
        added,
        priority,
        author: 0,
        group: 1,
    }
}

// Whether a revision shows this after the edits of the rows.
fn show(alloc: Global, text: &str, rows: &[Row], rev: u64, shown: &str) -> bool {
    match loaded(alloc, text) {
        Ok(mut engine) => {
            takes_all(alloc, &mut engine, rows) && shows(alloc, &engine, rev, shown)
        }
        Err(_) => false,
    }
}

#[test]
fn stale_edits_go_beside_each_other_by_priority(rt: HostRuntime) {
    let alloc = rt.alloc();
    let (x, y) = (placed(0, 2, 1, "X", 7), placed(0, 2, 1, "Y", 3));
    let z = placed(0, 2, 1, "Z", 7);
    assert!(rt; show(alloc, "ab", &[x], 1, "aXb"));
    assert!(rt; show(alloc, "ab", &[x, y], 2, "aYXb"));
    assert!(rt; show(alloc, "ab", &[x, y, z], 3, "aYXZb"));
    assert!(rt; show(alloc, "ab", &[y], 1, "aYb"));
    assert!(rt; show(alloc, "ab", &[y, x], 2, "aYXb"));
}

// An insertion at the gap of `ac`, by an author with this priority.
fn by_author(added: &'static str, priority: u32, author: u32) -> Row {
    Row {
        author,
        ..placed(0, 2, 1, added, priority)
    }
}

#[test]
fn stale_edits_of_one_priority_go_by_their_authors(rt: HostRuntime) {
    let alloc = rt.alloc();
    let (x, y) = (by_author("X", 1, 1), by_author("Y", 1, 2));
    assert!(rt; show(alloc, "ac", &[x, y], 2, "aXYc"));
    assert!(rt; show(alloc, "ac", &[y, x], 2, "aXYc"));
    let (one, other) = (by_author("X", 1, 1), by_author("Y", 1, 1));
    assert!(rt; show(alloc, "ac", &[one, other], 2, "aXYc"));
    assert!(rt; show(alloc, "ac", &[other, one], 2, "aYXc"));
    let (front, plugin) = (by_author("X", 65_536, 0), by_author("Y", 65_536, 1));
    assert!(rt; show(alloc, "ac", &[front, plugin], 2, "aXYc"));
    assert!(rt; show(alloc, "ac", &[plugin, front], 2, "aXYc"));
    let (first, last) = (by_author("X", 2, 1), by_author("Y", 1, 2));
    assert!(rt; show(alloc, "ac", &[first, last], 2, "aYXc"));
    assert!(rt; show(alloc, "ac", &[last, first], 2, "aYXc"));
}

#[test]
fn the_eldest_edit_decides(rt: HostRuntime) {
    let alloc = rt.alloc();
    let (gone, all) = (deletion(0, 3, 1, 2, 1), deletion(0, 3, 0, 3, 1));
    let (e, f) = (placed(0, 3, 1, "E", 1), placed(1, 2, 1, "F", 0));
    assert!(rt; show(alloc, "ptq", &[gone], 1, "pq"));
    assert!(rt; show(alloc, "ptq", &[gone, e], 2, "pEq"));
    assert!(rt; show(alloc, "ptq", &[gone, e, f], 3, "pEFq"));
    assert!(rt; show(alloc, "ptq", &[gone, e, f, all], 4, "EF"));
}

// A block is not entered, but by an edit that knows it.
#[test]
fn a_block_is_entered_by_an_edit_that_knows_it(rt: HostRuntime) {
    let alloc = rt.alloc();
    let (xy, m) = (placed(0, 2, 1, "XY", 5), placed(1, 4, 2, "M", 0));
    let (n, all) = (placed(0, 2, 1, "N", 3), deletion(0, 2, 0, 2, 1));
    assert!(rt; show(alloc, "ab", &[xy], 1, "aXYb"));
    assert!(rt; show(alloc, "ab", &[xy, m], 2, "aXMYb"));
    assert!(rt; show(alloc, "ab", &[xy, m, n], 3, "aNXMYb"));
    assert!(rt; show(alloc, "ab", &[xy, m, n, all], 4, "NXMY"));
    assert!(rt; show(alloc, "ab", &[xy, m, n, all], 1, "aXYb"));
}

// Whether the engine refuses the row's edit for this, and is as it was.
fn refuses(alloc: Global, engine: &mut Engine, row: Row, fault: EditFault) -> bool {
    fails(take(alloc, engine, row), fault) && engine.head() == 0 && engine.kept() == 2
}

// Whether an engine of two characters, with room for four more, does so.
fn is_refused(alloc: Global, row: Row, fault: EditFault) -> bool {
    match loaded_with(alloc, "aé", 4) {
        Ok(mut engine) => refuses(alloc, &mut engine, row, fault),
        Err(_) => false,
    }
}

// A row that puts five characters in the place of a range of revision 0.
fn adding(len: u64, from: u64, to: u64) -> Row {
    Row {
        rev: 0,
        len,
        from,
        to,
        added: "added",
        priority: 0,
        author: 0,
        group: 1,
    }
}

fn misfit(kind: u8, at: u64) -> EditFault {
    EditFault::Misfit(Misfit { kind, at })
}

#[test]
fn faults_come_in_their_order(rt: HostRuntime) {
    let alloc = rt.alloc();
    assert!(rt; is_refused(alloc, deletion(1, 4, 0, 0, 1), EditFault::Unknown(0)));
    assert!(rt; is_refused(alloc, adding(4, 0, 0), misfit(1, 4)));
    assert!(rt; is_refused(alloc, adding(3, 3, 1), misfit(2, 1)));
    assert!(rt; is_refused(alloc, adding(3, 4, 3), misfit(3, 4)));
    assert!(rt; is_refused(alloc, adding(3, 2, 3), misfit(4, 2)));
    assert!(rt; is_refused(alloc, adding(3, 1, 1), EditFault::Spent(5)));
}

fn leads(_alloc: Global, change: &mut Change) -> bool {
    let kept = change.units.kept.as_slice();
    change.rev == 2
        && change.units.base == 3
        && kept == [Run { start: 0, end: 2 }].as_slice()
        && change.units.added.is_empty()
}

// Whether the change of an edit that deletes what another was inserted beside leads from the head text.
fn its_change_leads(alloc: Global, engine: &mut Engine) -> bool {
    is_made(take(alloc, engine, placed(0, 2, 1, "X", 7)))
        && holds(alloc, take(alloc, engine, deletion(0, 2, 1, 2, 1)), leads)
}

#[test]
fn a_change_leads_from_the_head_text(rt: HostRuntime) {
    let alloc = rt.alloc();
    assert!(rt; holds(alloc, loaded(alloc, "ab"), its_change_leads));
}

// Whether the engine takes an edit that the copy does not know of.
fn leaves(alloc: Global, engine: &mut Engine, copy: &Engine) -> bool {
    is_made(take(alloc, engine, placed(0, 2, 1, "X", 7)))
        && engine.head() == 1
        && fails(copy.text_at(alloc, 1), RevFault::Unknown(0))
}

fn a_copy_stays(alloc: Global, engine: &mut Engine) -> bool {
    match engine.copy(alloc) {
        Ok(copy) => leaves(alloc, engine, &copy),
        Err(_) => false,
    }
}

#[test]
fn a_copy_stays_as_it_is(rt: HostRuntime) {
    let alloc = rt.alloc();
    assert!(rt; holds(alloc, loaded(alloc, "ab"), a_copy_stays));
}
