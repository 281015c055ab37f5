//! Runs whose plugins change nothing: the bytes are those without plugins, and each plugin comes back.

use crate::player::{Part, Player};
use crate::turns::{COUNTING, IDLE, NOISY};
use case_runs::{USUAL, USUAL_WRITES, callers, is_so};
use outside::{CalmShelf, CalmSink, CalmSource, MemSink, MemSource};
use plain_text::{List, NoMemory, Text};
use std::alloc::Global;
use xi_top::{Report, run_alone};

// A plugin that is done at its first turn.
const DONE: Part = Part {
    turns: ".",
    line: "",
    count: 0,
};

type Played = Report<MemSink, CalmShelf, Player>;

// A shelf with the session's file.
fn shelf_of(alloc: Global) -> Result<CalmShelf, NoMemory> {
    let mut shelf = CalmShelf::new(alloc);
    let bytes = List::from_vec(Vec::from_slice(alloc, b"hello\nworld\n")?);
    shelf.put(Text::from_str(alloc, "notes.txt")?, bytes)?;
    Ok(shelf)
}

fn plugins_of(alloc: Global) -> Result<Vec<Player>, NoMemory> {
    let done = Player::new(alloc, DONE)?;
    let noisy = Player::new(alloc, NOISY)?;
    let counting = Player::new(alloc, COUNTING)?;
    Ok(Vec::from_array(alloc, [done, noisy, counting])?)
}

fn played(alloc: Global) -> Result<Option<Played>, NoMemory> {
    let lines = Vec::from_slice(alloc, USUAL.as_bytes())?;
    let shelf = shelf_of(alloc)?;
    let plugins = plugins_of(alloc)?;
    if plugins.len() > 64 {
        return Ok(None);
    }
    let mut source = MemSource::new(lines, 4096, Vec::new(alloc));
    let sink = MemSink::new(alloc, 4096, Vec::new(alloc));
    Ok(Some(run_alone(alloc, &mut source, sink, shelf, plugins)))
}

// Whether the plugins had so many lines in their turns.
fn have_counts(plugins: &[Player], rows: &[&[usize]]) -> bool {
    plugins.len() == rows.len()
        && plugins
            .iter()
            .zip(rows)
            .all(|(plugin, counts)| plugin.counts.as_slice() == *counts)
}

// Whether the session's bytes are those without plugins.
fn is_left(alloc: Global) -> Result<bool, NoMemory> {
    let rows: [&[usize]; 3] = [
        &[1],
        &[1, 1000, 1000, 1001, 1000, 1000, 1001, 1000, 1001, 1001],
        &[1, 1, 1, 2, 1, 1, 2, 1, 2, 2],
    ];
    match played(alloc)? {
        Some(report) => Ok(
            report.status == 0
                && report.all_served
                && callers(alloc, &report.journal)?.as_str() == "1000000000"
                && report.sink.bytes() == Some(USUAL_WRITES.as_bytes())
                && have_counts(&report.plugins, &rows),
        ),
        None => Ok(false),
    }
}

#[test]
fn plugins_leave_a_usual_session_as_it_is(rt: HostRuntime) {
    assert!(rt; is_so(is_left(rt.alloc())));
}

// A line without content, and one of 2^24 bytes without LF.
fn long_line(alloc: Global) -> Result<Vec<u8>, NoMemory> {
    let mut input = Vec::from_slice(alloc, b"{}\n")?;
    for _ in 0..1 << 12 {
        input.extend_from_slice(&[b'a'; 4096])?;
    }
    Ok(input)
}

fn too_long(alloc: Global) -> Result<Report<CalmSink, CalmShelf, Player>, NoMemory> {
    let idle = Player::new(alloc, IDLE)?;
    let noisy = Player::new(alloc, NOISY)?;
    let plugins = Vec::from_array(alloc, [idle, noisy])?;
    let mut source = CalmSource::new(long_line(alloc)?);
    let sink = CalmSink::new(alloc);
    Ok(run_alone(alloc, &mut source, sink, CalmShelf::new(alloc), plugins))
}

// Whether the plugins come back where a line is too long.
fn come_back(alloc: Global) -> Result<bool, NoMemory> {
    let rows: [&[usize]; 2] = [&[1, 1], &[1, 1000, 1001]];
    let report = too_long(alloc)?;
    Ok(
        report.status == 7
            && report.all_served
            && callers(alloc, &report.journal)?.as_str() == "00"
            && have_counts(&report.plugins, &rows),
    )
}

#[test]
fn plugins_come_back_where_a_line_is_too_long(rt: HostRuntime) {
    assert!(rt; is_so(come_back(rt.alloc())));
}
