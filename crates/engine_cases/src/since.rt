//! The edit since a revision of the engine, and its text as a rope, before and after a collection.

use crate::collections::{collect, undo};
use crate::made::{fails, gives, holds, reads};
use crate::rows::{deletion, insertion, loaded, takes_all};
use plain_edits::{Added, UnitDelta};
use plain_text::Run;
use rev_engine::Engine;
use rev_list::RevFault;
use rope_tree::Rope;
use std::alloc::Global;

fn run(start: u64, end: u64) -> Run {
    Run { start, end }
}

// Whether this is all that is added: a text at a gap, or nothing where the text is empty.
fn adds(added: &[Added], gap: u64, text: &str) -> bool {
    match added {
        [] => text.is_empty(),
        [one] => one.gap == gap && one.text.as_str() == text,
        _ => false,
    }
}

// Whether the edit since a revision keeps these runs of a text of so many characters.
fn keeps(units: &UnitDelta, base: u64, kept: &[Run]) -> bool {
    units.base == base && units.kept.as_slice() == kept
}

// Whether of the `base` characters that the revision shows these are left, and the head has this text more, at this gap of them.
fn leaves(
    alloc: Global,
    engine: &Engine,
    rev: u64,
    base: u64,
    kept: &[Run],
    gap: u64,
    text: &str,
) -> bool {
    match engine.since(alloc, rev) {
        Ok(units) => keeps(&units, base, kept) && adds(units.added.as_slice(), gap, text),
        Err(_) => false,
    }
}

// Of `ptq`, group 1 deletes `t`, and group 2 puts `E` at gap 1 of the loaded text.
fn takes_two(alloc: Global, engine: &mut Engine) -> bool {
    let rows = [deletion(0, 3, 1, 2, 1), insertion(0, 3, 1, "E", 2)];
    takes_all(alloc, engine, &rows)
}

fn tells_since(alloc: Global, engine: &mut Engine) -> bool {
    takes_two(alloc, engine)
        && leaves(alloc, engine, 0, 3, &[run(0, 1), run(2, 3)], 1, "E")
        && leaves(alloc, engine, 1, 2, &[run(0, 2)], 1, "E")
        && leaves(alloc, engine, 2, 3, &[run(0, 3)], 0, "")
        && fails(engine.since(alloc, 3), RevFault::Unknown(2))
}

#[test]
fn the_edit_since_a_revision_is_told(rt: HostRuntime) {
    let alloc = rt.alloc();
    assert!(rt; holds(alloc, loaded(alloc, "ptq"), tells_since));
}

// Whether the rope of the revision is this text.
fn is_rope(alloc: Global, engine: &Engine, rev: u64, shown: &str) -> bool {
    match engine.rope_at(alloc, rev) {
        Ok(rope) => is_text(alloc, &rope, shown),
        Err(_) => false,
    }
}

fn is_text(alloc: Global, rope: &Rope, shown: &str) -> bool {
    reads(rope.slice(alloc, 0, rope.len()), shown)
}

fn gives_ropes(alloc: Global, engine: &mut Engine) -> bool {
    takes_two(alloc, engine)
        && is_rope(alloc, engine, 0, "ptq")
        && is_rope(alloc, engine, 1, "pq")
        && is_rope(alloc, engine, 2, "pEq")
        && fails(engine.rope_at(alloc, 3), RevFault::Unknown(2))
        && gives(collect(alloc, engine, &[1]), 1)
        && is_rope(alloc, engine, 2, "pEq")
        && fails(engine.rope_at(alloc, 1), RevFault::Collected(2))
}

#[test]
fn the_text_of_a_revision_is_a_rope(rt: HostRuntime) {
    let alloc = rt.alloc();
    assert!(rt; holds(alloc, loaded(alloc, "ptq"), gives_ropes));
}

// So many of these groups are collected; then group 3 puts `X` behind `E`, and group 2 is undone: the head shows `pXq`.
fn tells_since_floor(alloc: Global, engine: &mut Engine, retired: &[u64], count: u64) -> bool {
    takes_two(alloc, engine)
        && gives(collect(alloc, engine, retired), count)
        && takes_all(alloc, engine, &[insertion(2, 3, 2, "X", 3)])
        && gives(undo(alloc, engine, &[2]), 4)
        && leaves(alloc, engine, 2, 3, &[run(0, 1), run(2, 3)], 2, "X")
        && leaves(alloc, engine, 3, 4, &[run(0, 1), run(2, 4)], 0, "")
}

// The edit since the floor where a collection dropped `t`; below the floor there is none.
fn tells_since_a_floor(alloc: Global, engine: &mut Engine) -> bool {
    tells_since_floor(alloc, engine, &[1], 1)
        && engine.kept() == 4
        && fails(engine.since(alloc, 1), RevFault::Collected(2))
}

// The same without a collection.
fn tells_since_the_same(alloc: Global, engine: &mut Engine) -> bool {
    tells_since_floor(alloc, engine, &[], 0)
        && engine.kept() == 5
        && leaves(alloc, engine, 1, 2, &[run(0, 2)], 1, "X")
}

#[test]
fn the_edit_since_the_floor_is_that_without_a_collection(rt: HostRuntime) {
    let alloc = rt.alloc();
    assert!(rt; holds(alloc, loaded(alloc, "ptq"), tells_since_a_floor));
    assert!(rt; holds(alloc, loaded(alloc, "ptq"), tells_since_the_same));
}
