//! What many plugins do on threads is played again on one.

use crate::crowd::{OPENING, TYPING, typists};
use crate::tally::{Asks, Counter, Hold, Patient, Tally};
use crate::typist::Typist;
use case_runs::is_so;
use journal_replay::replay;
use macro_record::TapeSource;
use outside::{CalmShelf, MemSink};
use plain_text::{Bytes, NoMemory};
use std::alloc::Global;
use std::sync::Wait;
use std::thread::Threads;
use xi_forms::run_threads;
use xi_top::{Entry, Report};

const PLUGINS: u32 = 8;

// An opening, and edits.
const LINES: usize = 200;

const EDITS: u64 = 199;

type Played = Report<MemSink, CalmShelf, Typist>;

fn typed(alloc: Global) -> Result<Vec<u8>, NoMemory> {
    let mut bytes = Vec::from_slice(alloc, OPENING.as_bytes())?;
    for _ in 0..EDITS {
        bytes.extend_from_slice(TYPING.as_bytes())?;
    }
    Ok(bytes)
}

fn sink(alloc: Global) -> MemSink {
    MemSink::new(alloc, 1 << 22, Vec::new(alloc))
}

// A run in which each plugin edits once for each edit of the front end, before the front end goes away.
fn ran<R: Threads + Wait + Sync>(
    rt: &R,
    alloc: Global,
    plugins: Vec<Typist>,
) -> Result<Option<(Bytes, Played)>, NoMemory> {
    if plugins.len() > 64 {
        return Ok(None);
    }
    let tally = Tally::new();
    let asks = Asks {
        first: EDITS,
        second: EDITS,
        others: 6 * EDITS,
    };
    let holds = [Hold {
        behind: LINES,
        asks,
    }];
    let gate = Counter {
        tally: &tally,
        awaits: 0,
    };
    let patient = Patient::new(alloc, typed(alloc)?, &tally, &holds);
    let mut source = TapeSource::new(alloc, patient);
    let shelf = CalmShelf::new(alloc);
    let report = run_threads(rt, alloc, &mut source, sink(alloc), shelf, plugins, &gate);
    let whole = source.whole();
    let (tape, _patient) = source.into_parts();
    Ok(if whole { Some((tape, report)) } else { None })
}

// Whether the run's journal, played again on its tape, writes what the run wrote.
fn writes_the_same(alloc: Global, tape: &Bytes, journal: &[Entry], written: &[u8]) -> bool {
    match replay(alloc, tape, journal, PLUGINS, sink(alloc)) {
        Ok(sink) => sink.bytes() == Some(written),
        Err(_) => false,
    }
}

fn plays_again<R: Threads + Wait + Sync>(rt: &R, alloc: Global) -> Result<bool, NoMemory> {
    let Some((tape, report)) = ran(rt, alloc, typists(alloc, "ABCDEFGH")?)? else {
        return Ok(false);
    };
    let Some(written) = report.sink.bytes() else {
        return Ok(false);
    };
    Ok(
        report.status == 0
            && report.all_served
            && report.journal.len() == 1793
            && writes_the_same(alloc, &tape, &report.journal, written),
    )
}

#[test]
fn what_eight_plugins_do_on_threads_is_played_again_on_one(rt: HostRuntime) {
    assert!(rt; is_so(plays_again(&rt, rt.alloc())));
}
