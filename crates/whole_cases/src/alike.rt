//! Runs without plugins: on threads they come to what they come to in turns.
use crate::none::no_plugins;
use case_runs::{callers, is_so, joined};
use outside::{CalmShelf, FreeGate, MemSink, MemSource};
use plain_text::NoMemory;
use std::alloc::Global;
use std::sync::Wait;
use std::thread::Threads;
use xi_forms::run_threads;
use xi_top::{Report, run_alone};

const OPENING: &str = "{\"id\":0,\"method\":\"new_view\"}\n";

const TYPING: &str =
    "{\"method\":\"edit\",\"params\":{\"method\":\"insert\",\"params\":{\"chars\":\"a\"},\"view_id\":\"view-id-1\"}}\n";

const UNDOING: &str =
    "{\"id\":1,\"method\":\"edit\",\"params\":{\"method\":\"undo\",\"view_id\":\"view-id-1\"}}\n";

// A first view, no input, one group of inserts, lines that are none, and methods that are refused.
const INPUTS: [&[&str]; 5] = [
    &[OPENING],
    &[],
    &[OPENING, TYPING, TYPING, TYPING, UNDOING],
    &["{\n", "\n", "[1]\n", OPENING, "null"],
    &[
        OPENING,
        "{\"id\":1,\"method\":\"fly\",\"params\":{}}\n",
        "{\"id\":2,\"method\":\"edit\",\"params\":{\"method\":\"fly\",\"view_id\":\"view-id-1\"}}\n",
        "{\"method\":\"edit\",\"params\":{\"method\":\"insert\",\"params\":{},\"view_id\":\"view-id-9\"}}\n",
    ],
];

type Played = Report<MemSink, CalmShelf>;

fn source_of(alloc: Global, lines: &[&str], read: u64) -> Result<MemSource, NoMemory> {
    let reads = Vec::from_slice(alloc, &[read])?;
    let input = joined(alloc, lines, lines.len())?;
    Ok(MemSource::new(input, 64, reads))
}

fn sink_of(alloc: Global, write: u64) -> Result<MemSink, NoMemory> {
    let writes = Vec::from_slice(alloc, &[write])?;
    Ok(MemSink::new(alloc, 1 << 16, writes))
}

// A run on threads in which the read and the write of these numbers fail.
fn on_threads<R: Threads + Wait + Sync>(
    rt: &R,
    alloc: Global,
    lines: &[&str],
    read: u64,
    write: u64,
) -> Result<Played, NoMemory> {
    let mut source = source_of(alloc, lines, read)?;
    let sink = sink_of(alloc, write)?;
    let shelf = CalmShelf::new(alloc);
    Ok(run_threads(
        rt,
        alloc,
        &mut source,
        sink,
        shelf,
        no_plugins(alloc),
        &FreeGate,
    ))
}

// The same in turns.
fn in_turns(alloc: Global, lines: &[&str], read: u64, write: u64) -> Result<Played, NoMemory> {
    let mut source = source_of(alloc, lines, read)?;
    let sink = sink_of(alloc, write)?;
    let shelf = CalmShelf::new(alloc);
    Ok(run_alone(alloc, &mut source, sink, shelf, no_plugins(alloc)))
}

// Whether both came to the same.
fn is_alike(alloc: Global, one: &Played, other: &Played) -> Result<bool, NoMemory> {
    let first = callers(alloc, &one.journal)?;
    let second = callers(alloc, &other.journal)?;
    Ok(
        one.status == other.status
            && one.all_served
            && first.as_str() == second.as_str()
            && one.sink.bytes() == other.sink.bytes(),
    )
}

// Whether a run in which the read and the write of these numbers fail comes to the same on threads and in turns.
fn goes_alike<R: Threads + Wait + Sync>(
    rt: &R,
    alloc: Global,
    lines: &[&str],
    read: u64,
    write: u64,
) -> Result<bool, NoMemory> {
    let other = in_turns(alloc, lines, read, write)?;
    let one = on_threads(rt, alloc, lines, read, write)?;
    is_alike(alloc, &one, &other)
}

// The same for each of the first writes.
fn go_alike_at<R: Threads + Wait + Sync>(
    rt: &R,
    alloc: Global,
    lines: &[&str],
    read: u64,
) -> Result<bool, NoMemory> {
    for write in 0..4 {
        if !goes_alike(rt, alloc, lines, read, write)? {
            return Ok(false);
        }
    }
    Ok(true)
}

// The same for each of the first reads.
fn go_alike<R: Threads + Wait + Sync>(
    rt: &R,
    alloc: Global,
    lines: &[&str],
) -> Result<bool, NoMemory> {
    for read in 0..8 {
        if !go_alike_at(rt, alloc, lines, read)? {
            return Ok(false);
        }
    }
    Ok(true)
}

#[test]
fn runs_without_plugins_are_those_in_turns(rt: HostRuntime) {
    let alloc = rt.alloc();
    assert!(rt; is_so(go_alike(&rt, alloc, INPUTS[0])));
    assert!(rt; is_so(go_alike(&rt, alloc, INPUTS[1])));
    assert!(rt; is_so(go_alike(&rt, alloc, INPUTS[2])));
    assert!(rt; is_so(go_alike(&rt, alloc, INPUTS[3])));
    assert!(rt; is_so(go_alike(&rt, alloc, INPUTS[4])));
}

// Whether a run of two lines, in which the read and the write of these numbers fail, has this status and these callers.
fn tells<R: Threads + Wait + Sync>(
    rt: &R,
    alloc: Global,
    fails: (u64, u64),
    status: u8,
    told: &str,
) -> Result<bool, NoMemory> {
    let (read, write) = fails;
    let report = on_threads(rt, alloc, &[OPENING, TYPING], read, write)?;
    Ok(report.status == status && callers(alloc, &report.journal)?.as_str() == told)
}

#[test]
fn statuses_are_told(rt: HostRuntime) {
    let alloc = rt.alloc();
    assert!(rt; is_so(tells(&rt, alloc, (0, 0), 0, "000")));
    assert!(rt; is_so(tells(&rt, alloc, (1, 0), 4, "0")));
    assert!(rt; is_so(tells(&rt, alloc, (2, 0), 4, "00")));
    assert!(rt; is_so(tells(&rt, alloc, (0, 1), 5, "0!0")));
    assert!(rt; is_so(tells(&rt, alloc, (0, 2), 5, "00!0")));
}
