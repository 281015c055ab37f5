//! Runs many steps through the revision engine, in memory alone, and prints how many revisions and characters there are then.
//!
//! | words | means |
//! |---|---|
//! | `typing N` | N insertions of one character at the end of the text, all of one group |
//! | `groups N` | the same, each of a group of its own; then the newest group is undone and redone 1,000 times |
//! | `group N` | N insertions of one group, which is then undone and redone 100 times |
//! | `sets N` | N groups of one insertion each; then 100 sets are undone, one after the other, each whole: a group is in one or not by a seed |
//! | `cut N` | N times a group at the end of the text, its undo by difference and a new group in the middle, so that N groups stay undone and their characters stand together |
//! | `cut_apart N` | the same with the new group at the end too, so that each undone character stands between two that are shown |
//! | `stale N` | N insertions of one character at the start, each against the revision 100 before the head, or the first |
//! | `collect N` | N groups at the end of the text: each inserts a character, but every tenth deletes ten; from the twenty-first on the oldest is collected after each |
//! | `catch_up N` | N groups of one insertion each; then all but the last twenty are collected at once |
//! | `lag10 N`, `lag100 N`, `lag1000 N` | N groups of one insertion each; from the twentieth before a floor so many revisions behind the head on, the oldest is collected at that floor after each |
//! | `all N` | each of these in its turn |
//!
//! Nothing stands on it. It is for measuring: its output says only what was run, and its time is taken from outside.
//!
//! `cut` and `cut_apart` undo the same groups at the same revisions. That a group was undone before costs nothing in either; but each
//! revision goes through what is dead run by run, and that is a run or two in `cut`, and as many runs as undone groups in `cut_apart`. So
//! `cut` takes a time like N, and `cut_apart` one like its square.
//!
//! What `collect` holds does not grow with N but by the numbers of the collected groups and the text that is shown. `catch_up` says how
//! long the one collection takes that a slow caller held back.
#![tactic(auto)]

use anyhow::{bail, ensure};
use plain_edits::{Delta, El, Els};
use plain_text::{NoMemory, Text};
use rand_core::{Rng, SeedableRng};
use rand_pcg::Lcg64Xsh32;
use rev_engine::{Edit, Engine};
use std::alloc::{AllocError, Global};
use std::collections::BTreeSet;
use std::env;

/// Which steps are run.
#[derive(Clone, Copy, PartialEq, Eq)]
enum Load {
    Typing,
    Groups,
    Group,
    Sets,
    Cut,
    CutApart,
    Stale,
    Collect,
    CatchUp,
    Lag10,
    Lag100,
    Lag1000,
}

const ALL: [Load; 12] = [
    Load::Typing,
    Load::Groups,
    Load::Group,
    Load::Sets,
    Load::Cut,
    Load::CutApart,
    Load::Stale,
    Load::Collect,
    Load::CatchUp,
    Load::Lag10,
    Load::Lag100,
    Load::Lag1000,
];

impl Load {
    fn name(self) -> &'static str {
        match self {
            Load::Typing => "typing",
            Load::Groups => "groups",
            Load::Group => "group",
            Load::Sets => "sets",
            Load::Cut => "cut",
            Load::CutApart => "cut_apart",
            Load::Stale => "stale",
            Load::Collect => "collect",
            Load::CatchUp => "catch_up",
            Load::Lag10 => "lag10",
            Load::Lag100 => "lag100",
            Load::Lag1000 => "lag1000",
        }
    }
}

/// More characters than any load inserts.
const LIMIT: u64 = 1_099_511_627_776;

/// How many revisions back the base of a stale edit is.
const BACK: u64 = 100;

/// How often the newest of many groups is undone and redone, how often a long one is, and how many sets are undone.
const TURNS: u64 = 1_000;

const LONG_TURNS: u64 = 100;

const SETS: u64 = 100;

/// How many groups stay when the older ones are collected.
const LIVE: u64 = 20;

/// After how many groups one deletes, and how many characters.
const TENTH: u64 = 10;

fn main(rt: HostRuntime) -> anyhow::Result<()> {
    let mut words = env::args(&rt)?.skip(1);
    let (Some(kind), Some(count)) = (words.next(), words.next()) else {
        bail!(
            "usage: engine_load typing|groups|group|sets|cut|cut_apart|stale|collect|catch_up|lag10|lag100|lag1000|all N"
        );
    };
    run_named(&rt, kind.as_str(), count.as_str())
}

/// Runs the loads of this name.
fn run_named(rt: &HostRuntime, kind: &str, count: &str) -> anyhow::Result<()> {
    let count: u64 = count.parse()?;
    for load in ALL {
        if kind == "all" || kind == load.name() {
            run_and_print(rt, load, count)?;
        }
    }
    Ok(())
}

fn run_and_print(rt: &HostRuntime, load: Load, count: u64) -> anyhow::Result<()> {
    let engine = run(rt.alloc(), load, count)?;
    let name = load.name();
    let head = engine.head();
    let kept = engine.kept();
    let shown = engine.head_rope().len();
    println!(rt; "{name} {count}: revisions {head}, characters {kept}, shown {shown}")?;
    Ok(())
}

/// The engine of an empty text after such steps.
fn run(alloc: Global, load: Load, count: u64) -> anyhow::Result<Engine> {
    let mut engine = Engine::of_text(alloc, Text::new(alloc), LIMIT)?;
    go_through(alloc, &mut engine, load, count)?;
    Ok(engine)
}

fn go_through(alloc: Global, engine: &mut Engine, load: Load, count: u64) -> anyhow::Result<()> {
    for _ in 0..count {
        insert(alloc, engine, load)?;
    }
    let newest = engine.head();
    match load {
        Load::Groups => turn(alloc, engine, newest, TURNS),
        Load::Group => turn(alloc, engine, 1, LONG_TURNS),
        Load::Sets => undo_sets(alloc, engine, newest),
        Load::CatchUp => collect(alloc, engine, 1, newest.saturating_sub(LIVE)),
        _ => Ok(()),
    }
}

/// The next insertion, and what a load does between two of them.
fn insert(alloc: Global, engine: &mut Engine, load: Load) -> anyhow::Result<()> {
    let next = engine.head().saturating_add(1);
    match load {
        Load::Typing | Load::Group => append(alloc, engine, 1),
        Load::Groups | Load::Sets | Load::CatchUp => append(alloc, engine, next),
        Load::Cut => {
            undo_new(alloc, engine, next)?;
            let middle = engine.head_rope().len() / 2;
            insert_at(alloc, engine, middle, next.saturating_add(2))
        }
        Load::CutApart => {
            undo_new(alloc, engine, next)?;
            append(alloc, engine, next.saturating_add(2))
        }
        Load::Stale => insert_back(alloc, engine),
        Load::Collect => {
            append_or_delete(alloc, engine, next)?;
            let oldest = next.saturating_sub(LIVE);
            collect(alloc, engine, oldest, oldest)
        }
        Load::Lag10 => append_behind(alloc, engine, next, 10),
        Load::Lag100 => append_behind(alloc, engine, next, 100),
        Load::Lag1000 => append_behind(alloc, engine, next, 1_000),
    }
}

/// A new group at the end of the head text, after which the oldest is collected at the floor that is so many revisions back.
fn append_behind(alloc: Global, engine: &mut Engine, next: u64, lag: u64) -> anyhow::Result<()> {
    append(alloc, engine, next)?;
    let floor = next.saturating_sub(lag);
    let mut groups = BTreeSet::new(alloc);
    groups.insert(floor.saturating_sub(LIVE).max(1))?;
    if LIVE < floor && engine.may_collect(alloc, floor, &groups)? {
        engine.collect(alloc, floor, &groups)?;
    }
    Ok(())
}

/// A new group at the end of the head text, and its undo.
fn undo_new(alloc: Global, engine: &mut Engine, group: u64) -> anyhow::Result<()> {
    append(alloc, engine, group)?;
    undo_by(alloc, engine, group)
}

/// One character more at the end of the head text.
fn append(alloc: Global, engine: &mut Engine, group: u64) -> anyhow::Result<()> {
    let end = engine.head_rope().len();
    insert_at(alloc, engine, end, group)
}

/// One character more at a gap of the head text.
fn insert_at(alloc: Global, engine: &mut Engine, at: u64, group: u64) -> anyhow::Result<()> {
    let rev = engine.head();
    let len = engine.head_rope().len();
    let edit = insertion(alloc, rev, len, at, group)?;
    take(alloc, engine, &edit)
}

/// One character more at the end of the head text, or, every tenth time, the last ten less.
fn append_or_delete(alloc: Global, engine: &mut Engine, group: u64) -> anyhow::Result<()> {
    if group % TENTH != 0 {
        return append(alloc, engine, group);
    }
    let rev = engine.head();
    let len = engine.head_rope().len();
    let edit = deletion(alloc, rev, len, len.saturating_sub(TENTH), group)?;
    take(alloc, engine, &edit)
}

/// One character more at the start of an older text, which has as many characters as the number of its revision.
fn insert_back(alloc: Global, engine: &mut Engine) -> anyhow::Result<()> {
    let rev = engine.head().saturating_sub(BACK);
    let edit = insertion(alloc, rev, rev, 0, 1)?;
    take(alloc, engine, &edit)
}

fn take(alloc: Global, engine: &mut Engine, edit: &Edit) -> anyhow::Result<()> {
    if LIMIT < engine.head() || edit.group == 0 || engine.is_collected(edit.group) {
        bail!("the edit cannot be asked for");
    }
    engine.edit(alloc, edit)?;
    Ok(())
}

/// One character more at a gap of the text of a revision. Each character has one byte.
fn insertion(alloc: Global, rev: u64, len: u64, at: u64, group: u64) -> Result<Edit, NoMemory> {
    let mut els = Els::new(alloc);
    els.push(El::Copy { a: 0, b: at })?;
    els.push(El::Insert {
        text: Text::from_ascii(alloc, "x")?,
    })?;
    els.push(El::Copy { a: at, b: len })?;
    Ok(edit_of(rev, els, len, group))
}

/// The characters from a gap on less.
fn deletion(alloc: Global, rev: u64, len: u64, from: u64, group: u64) -> Result<Edit, NoMemory> {
    let mut els = Els::new(alloc);
    els.push(El::Copy { a: 0, b: from })?;
    Ok(edit_of(rev, els, len, group))
}

fn edit_of(rev: u64, els: Els, len: u64, group: u64) -> Edit {
    Edit {
        rev,
        delta: Delta { els, base_len: len },
        priority: 0,
        after_cursor: false,
        author: 0,
        group,
    }
}

/// Collects those of the groups from `first` to `last` that are at rest.
fn collect(alloc: Global, engine: &mut Engine, first: u64, last: u64) -> anyhow::Result<()> {
    let mut retired = BTreeSet::new(alloc);
    for group in first.max(1)..=last {
        retired.insert(group)?;
    }
    let head = engine.head();
    let _floor = engine.floor();
    if let Some((floor, groups)) = engine.collectable(alloc, head, &retired)? {
        engine.collect(alloc, floor, &groups)?;
    }
    Ok(())
}

/// Undoes the group and redoes it, so often.
fn turn(alloc: Global, engine: &mut Engine, group: u64, times: u64) -> anyhow::Result<()> {
    for _ in 0..times {
        undo_by(alloc, engine, group)?;
        undo_by(alloc, engine, group)?;
    }
    Ok(())
}

/// Undoes the group, or redoes it where it is undone.
fn undo_by(alloc: Global, engine: &mut Engine, group: u64) -> anyhow::Result<()> {
    let groups = [group];
    ensure!(engine.may_undo_by(&groups), "the group may not be undone");
    engine.set_undone_by(alloc, &groups)?;
    Ok(())
}

/// Undoes sets of the groups from 1 up to `last`, one after the other.
fn undo_sets(alloc: Global, engine: &mut Engine, last: u64) -> anyhow::Result<()> {
    let mut draws = Lcg64Xsh32::seed_from_u64(1);
    for _ in 0..SETS {
        let groups = drawn_set(alloc, &mut draws, last)?;
        ensure!(engine.may_undo(&groups), "the set may not be undone");
        engine.set_undone(alloc, &groups)?;
    }
    Ok(())
}

fn drawn_set(
    alloc: Global,
    draws: &mut Lcg64Xsh32,
    last: u64,
) -> Result<BTreeSet<u64>, AllocError> {
    let mut set = BTreeSet::new(alloc);
    for group in 1..=last {
        if draws.next_u32() % 2 == 0 {
            set.insert(group)?;
        }
    }
    Ok(set)
}
