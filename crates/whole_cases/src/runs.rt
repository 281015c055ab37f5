//! Runs in which one call fails, or whose input ends early.

ghost use Rattle.std.specs.Prelude.{◌<◌};

use crate::awaiting::{Awaiting, Counting};
use crate::none::no_plugins;
use case_runs::{FIVE_LINES, FIVE_PIECES, is_so, joined};
use outside::{CalmShelf, CalmSink, MemSink, MemSource};
use std::alloc::{AllocError, Global};
use std::cell::Cell;
use xi_top::{Report, run_alone};

// What a run comes to: its status, how many entries it has with the closing one, how many of these were not sent, and how many of the five
// pieces were written.
#[derive(Clone, Copy)]
struct Ended {
    status: u8,
    entries: usize,
    unsent: usize,
    pieces: usize,
}

const fn outcome(status: u8, entries: usize, unsent: usize, pieces: usize) -> Ended {
    Ended {
        status,
        entries,
        unsent,
        pieces,
    }
}

// Whether the run came to this.
fn is_outcome(
    alloc: Global,
    report: &Report<MemSink, CalmShelf>,
    outcome: Ended,
) -> Result<bool, AllocError> {
    let unsent = report.journal.iter().filter(|entry| !entry.sent).count();
    let written = joined(alloc, &FIVE_PIECES, outcome.pieces)?;
    Ok(
        report.status == outcome.status
            && report.journal.len() == outcome.entries
            && unsent == outcome.unsent
            && report.sink.bytes() == Some(written.as_slice()),
    )
}

// A run over these bytes, of which at most `piece` are given at a time, and in which the read and the write of these numbers fail.
fn ran(
    alloc: Global,
    input: Vec<u8>,
    piece: usize,
    read: u64,
    write: u64,
) -> Result<Report<MemSink, CalmShelf>, AllocError>
    requires { 0 < piece }
{
    let reads = Vec::from_slice(alloc, &[read])?;
    let writes = Vec::from_slice(alloc, &[write])?;
    let mut source = MemSource::new(input, piece, reads);
    Ok(run_alone(
        alloc,
        &mut source,
        MemSink::new(alloc, 4096, writes),
        CalmShelf::new(alloc),
        no_plugins(alloc),
    ))
}

// Whether a run over these bytes in which no call fails comes to this.
fn comes_to(alloc: Global, input: Vec<u8>, outcome: Ended) -> Result<bool, AllocError> {
    let report = ran(alloc, input, 4096, 0, 0)?;
    is_outcome(alloc, &report, outcome)
}

// Whether a run whose write of this number fails comes to this.
fn fails_at_write(alloc: Global, write: u64, outcome: Ended) -> Result<bool, AllocError> {
    let report = ran(alloc, joined(alloc, &FIVE_LINES, 5)?, 4096, 0, write)?;
    is_outcome(alloc, &report, outcome)
}

#[test]
fn each_write_fails_in_turn(rt: HostRuntime) {
    let alloc = rt.alloc();
    assert!(rt; is_so(fails_at_write(alloc, 1, outcome(5, 2, 1, 0))));
    assert!(rt; is_so(fails_at_write(alloc, 2, outcome(5, 3, 1, 1))));
    assert!(rt; is_so(fails_at_write(alloc, 3, outcome(5, 4, 1, 2))));
    assert!(rt; is_so(fails_at_write(alloc, 4, outcome(5, 5, 1, 3))));
    assert!(rt; is_so(fails_at_write(alloc, 5, outcome(5, 6, 1, 4))));
    // The sixth write is not made.
    assert!(rt; is_so(fails_at_write(alloc, 6, outcome(0, 6, 0, 5))));
}

// How many of the first bytes are LFs.
fn line_ends(bytes: &[u8], count: usize) -> usize {
    bytes
        .iter()
        .take(count)
        .filter(|byte| **byte == b'\n')
        .count()
}

// Whether a run whose read of this number fails, where each one before it gave seven bytes, has the lines that were given whole.
fn fails_at_read(alloc: Global, read: usize) -> Result<bool, AllocError> {
    let input = joined(alloc, &FIVE_LINES, 5)?;
    let given = read.saturating_sub(1).saturating_mul(7);
    let lines = line_ends(&input, given);
    let report = ran(alloc, input, 7, read as u64, 0)?;
    is_outcome(
        alloc,
        &report,
        outcome(4, lines.saturating_add(1), 0, lines),
    )
}

// The first read whose failure comes to something else.
fn first_other_read(alloc: Global) -> Result<Option<usize>, AllocError> {
    let bytes = joined(alloc, &FIVE_LINES, 5)?.len();
    for read in 1..bytes / 7 + 3 {
        if !fails_at_read(alloc, read)? {
            return Ok(Some(read));
        }
    }
    Ok(None)
}

#[test]
fn each_read_fails_in_turn(rt: HostRuntime) {
    assert!(rt; first_other_read(rt.alloc()) == Ok(None));
}

// Whether a run over so many of the lines comes to the same with the last LF and without.
fn ends_after(alloc: Global, lines: usize) -> Result<bool, AllocError> {
    let wanted = outcome(0, lines.saturating_add(1), 0, lines);
    let mut cut = joined(alloc, &FIVE_LINES, lines)?;
    cut.pop();
    Ok(
        comes_to(alloc, joined(alloc, &FIVE_LINES, lines)?, wanted)?
            && comes_to(alloc, cut, wanted)?,
    )
}

#[test]
fn the_input_ends_after_each_line(rt: HostRuntime) {
    let alloc = rt.alloc();
    assert!(rt; is_so(ends_after(alloc, 0)));
    assert!(rt; is_so(ends_after(alloc, 1)));
    assert!(rt; is_so(ends_after(alloc, 2)));
    assert!(rt; is_so(ends_after(alloc, 3)));
    assert!(rt; is_so(ends_after(alloc, 4)));
    assert!(rt; is_so(ends_after(alloc, 5)));
}

// An opening and an insert, of one length: each is answered by two lines.
const OPENING: &str =
    "{\"id\":0,                                                               \"method\":\"new_view\"}\n";

const TYPING: &str =
    "{\"method\":\"edit\",\"params\":{\"method\":\"insert\",\"params\":{\"chars\":\"a\"},\"view_id\":\"view-id-1\"}}\n";

// An opening and 99 inserts.
fn hundred_lines(alloc: Global) -> Result<Vec<u8>, AllocError> {
    let mut bytes = Vec::from_slice(alloc, OPENING.as_bytes())?;
    for _ in 1..100 {
        bytes.extend_from_slice(TYPING.as_bytes())?;
    }
    Ok(bytes)
}

// Whether a run over a hundred lines ends well where at most `piece` bytes are given at a time, and none before all that is whole was
// answered.
fn answers_in_time(alloc: Global, piece: usize) -> Result<bool, AllocError>
    requires { 0 < piece }
{
    let written = Cell::new(0);
    let source = MemSource::new(hundred_lines(alloc)?, piece, Vec::new(alloc));
    let mut source = Awaiting::new(source, &written);
    let sink = Counting::new(CalmSink::new(alloc), &written);
    let report = run_alone(
        alloc,
        &mut source,
        sink,
        CalmShelf::new(alloc),
        no_plugins(alloc),
    );
    Ok(report.status == 0 && report.journal.len() == 101 && written.get() == 200)
}

#[test]
fn each_line_is_answered_before_the_next_read(rt: HostRuntime) {
    let alloc = rt.alloc();
    assert_eq!(rt; OPENING.len(), TYPING.len());
    // A byte, a line and its parts, two lines, and two and a half.
    assert!(rt; is_so(answers_in_time(alloc, 1)));
    assert!(rt; is_so(answers_in_time(alloc, 40)));
    assert!(rt; is_so(answers_in_time(alloc, 92)));
    assert!(rt; is_so(answers_in_time(alloc, 184)));
    assert!(rt; is_so(answers_in_time(alloc, 230)));
}

// Whether a run whose third read fails makes no other one, and writes on.
fn stops_reading(alloc: Global) -> Result<bool, AllocError> {
    let failing = Vec::from_slice(alloc, &[3])?;
    let input = joined(alloc, &FIVE_LINES, 5)?;
    let mut source = MemSource::new(input, 90, failing);
    let report = run_alone(
        alloc,
        &mut source,
        CalmSink::new(alloc),
        CalmShelf::new(alloc),
        no_plugins(alloc),
    );
    Ok(
        report.status == 4
            && report.sink.refused() == 0
            && source.calls() == 3
            && source.faults() == 1
            && !source.left().is_empty(),
    )
}

#[test]
fn a_failed_read_is_the_last(rt: HostRuntime) {
    assert!(rt; is_so(stops_reading(rt.alloc())));
}
