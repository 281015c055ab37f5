//! What words come to.

use crate::forms::words_of;
use outside::{CalmShelf, Gate, MemSink, MemSource, Point};
use plain_text::NoMemory;
use shipped_plugins::StormPlugin;
use std::alloc::Global;
use std::sync::Wait;
use std::sync::atomic::{AtomicU64, Ordering};
use std::thread::Threads;
use xi_forms::xi_main;

const OPENING: &str = "{\"id\":0,\"method\":\"new_view\",\"params\":{}}\n";

/// How often a worker came to a turn of its plugin.
#[derive(Drop)]
struct Turns {
    count: AtomicU64,
}

impl Gate for Turns {
    fn pass(&self, _caller: u32, point: Point) {
        if point == Point::BeforeTurn {
            self.count.fetch_add(1, Ordering::SeqCst);
        }
    }
}

/// What was done by some words, beside a plugin of storms.
#[derive(Drop)]
struct Done {
    status: u8,
    entries: usize,
    reads: u64,
    writes: u64,
    bytes: Option<Vec<u8>>,
    plugins: usize,
    /// The turns of workers.
    turns: u64,
}

fn run_by<R: Threads + Wait + Sync>(
    rt: &R,
    alloc: Global,
    words: &str,
) -> Result<Option<Done>, NoMemory> {
    let words = words_of(alloc, words)?;
    let mut source = MemSource::new(
        Vec::from_slice(alloc, OPENING.as_bytes())?,
        4096,
        Vec::new(alloc),
    );
    let sink = MemSink::new(alloc, 1 << 20, Vec::new(alloc));
    let mut plugins = Vec::new(alloc);
    plugins.push(StormPlugin::new(alloc))?;
    if plugins.len() > 64 {
        return Ok(None);
    }
    let shelf = CalmShelf::new(alloc);
    let gate = Turns {
        count: AtomicU64::new(0),
    };
    let report = xi_main(
        rt,
        alloc,
        words.as_slice(),
        &mut source,
        sink,
        shelf,
        plugins,
        &gate,
    );
    Ok(Some(Done {
        status: report.status,
        entries: report.journal.len(),
        reads: source.calls(),
        writes: report.sink.calls(),
        bytes: report.sink.into_bytes(),
        plugins: report.plugins.len(),
        turns: gate.count.load(Ordering::SeqCst),
    }))
}

/// Whether by these words nothing is read or written.
fn is_refused<R: Threads + Wait + Sync>(rt: &R, alloc: Global, words: &str) -> bool {
    match run_by(rt, alloc, words) {
        Ok(Some(done)) => done.status == 2
            && done.entries == 0
            && done.reads == 0
            && done.writes == 0
            && done.plugins == 1,
        _ => false,
    }
}

/// Whether by these words a storm is run: the source is not read, and this is written at once.
fn tells<R: Threads + Wait + Sync>(rt: &R, alloc: Global, words: &str, expected: &str) -> bool {
    match run_by(rt, alloc, words) {
        Ok(Some(done)) => {
            let bytes = match &done.bytes {
                Some(bytes) => bytes.as_slice(),
                None => return false,
            };
            done.status == 0
                && done.reads == 0
                && done.writes == 1
                && done.plugins == 1
                && bytes == expected.as_bytes()
        }
        _ => false,
    }
}

#[test]
fn words_that_are_no_form_do_nothing(rt: HostRuntime) {
    for words in [
        "alone ",
        "storm",
        "storm 1",
        "storm 1000001 1",
        "storm 1 18446744073709551616",
        "storm 1 2 3",
    ] {
        assert!(rt; is_refused(&rt, rt.alloc(), words));
    }
}

/// Whether by these words an opening is answered.
fn serves(done: &Done) -> bool {
    done.status == 0
        && done.entries == 2
        && done.reads == 2
        && done.writes == 1
        && done.plugins == 1
}

#[test]
fn without_words_a_plugin_has_its_turns_on_a_thread(rt: HostRuntime) {
    match run_by(&rt, rt.alloc(), "") {
        Ok(Some(done)) => assert!(rt; serves(&done) && done.turns > 0),
        _ => assert!(rt; false),
    }
}

#[test]
fn a_front_end_is_served_alone(rt: HostRuntime) {
    match run_by(&rt, rt.alloc(), "alone") {
        Ok(Some(done)) => assert!(rt; serves(&done) && done.turns == 0),
        _ => assert!(rt; false),
    }
}

#[test]
fn a_storm_is_told_as_one_piece(rt: HostRuntime) {
    assert!(rt;
        tells(
            &rt,
            rt.alloc(),
            "storm 0 7",
            "entries 2\nrevision 0\ncharacters 0\nkept 0\nlines 1\nvalid 1\n"
        )
    );
    assert!(rt;
        tells(
            &rt,
            rt.alloc(),
            "storm 00020 07",
            "entries 24\nrevision 14\ncharacters 10\nkept 12\nlines 2\nvalid 2\n"
        )
    );
}
