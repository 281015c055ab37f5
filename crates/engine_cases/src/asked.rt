//! What an engine says of groups: which revisions each begins after, and which may be undone.

use crate::collections::set_of;
use crate::made::{gives, holds};
use crate::rows::{insertion, loaded, takes_all};
use rev_engine::Engine;
use std::alloc::{AllocError, Global};

// Types `a` by group 1 and then `b` by group 2. Groups 0 and 3 have no edit.
fn types_two(alloc: Global, engine: &mut Engine) -> bool {
    let rows = [insertion(0, 0, 0, "a", 1), insertion(1, 1, 1, "b", 2)];
    takes_all(alloc, engine, &rows)
}

fn tells_beginnings(alloc: Global, engine: &mut Engine) -> bool {
    types_two(alloc, engine)
        && engine.floor() == 0
        && engine.begins_after(1, 0)
        && !engine.begins_after(1, 1)
        && engine.begins_after(2, 0)
        && engine.begins_after(2, 1)
        && !engine.begins_after(2, 2)
        && !engine.begins_after(3, 0)
        && !engine.begins_after(0, 1)
}

// Whether exactly these groups may be undone.
fn may_undo(alloc: Global, engine: &Engine, groups: &[u64]) -> Result<bool, AllocError> {
    let set = set_of(alloc, groups)?;
    Ok(engine.may_undo(&set))
}

fn tells_what_may_be_undone(alloc: Global, engine: &mut Engine) -> bool {
    types_two(alloc, engine)
        && gives(may_undo(alloc, engine, &[]), true)
        && gives(may_undo(alloc, engine, &[1, 2]), true)
        && gives(may_undo(alloc, engine, &[0]), false)
        && gives(may_undo(alloc, engine, &[1, 3]), false)
        && engine.may_undo_by(&[])
        && engine.may_undo_by(&[1, 2])
        && !engine.may_undo_by(&[0])
        && !engine.may_undo_by(&[1, 3])
}

#[test]
fn groups_are_told_apart_by_their_edits(rt: HostRuntime) {
    let alloc = rt.alloc();
    assert!(rt; holds(alloc, loaded(alloc, ""), tells_beginnings));
    assert!(rt; holds(alloc, loaded(alloc, ""), tells_what_may_be_undone));
}
