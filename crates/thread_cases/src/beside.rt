//! Two plugins side by side: each has its turns while the other waits.

use crate::player::{Part, Player};
use crate::tally::{Asks, Counter, Hold, Patient, Tally};
use crate::told::{entries_of, is_run};
use case_runs::{callers, is_so, joined};
use outside::{CalmShelf, MemSink};
use plain_text::NoMemory;
use std::alloc::Global;
use std::sync::Wait;
use std::thread::Threads;
use xi_forms::run_threads;
use xi_top::Report;

const OPENING: &str = "{\"id\":0,\"method\":\"new_view\"}\n";

const STARTED: &str = "{\"method\":\"client_started\",\"params\":{}}\n";

const READ_1: (&str, &str) = (
    r#"{"id":1,"result":{"rev":1,"#,
    r#"{"id":2,"method":"get_data","params":{"max_size":9,"rev":1,"start":0,"view_id":"view-id-1"}}"#,
);

const READ_2: (&str, &str) = (
    r#"{"id":1,"result":{"rev":2,"#,
    r#"{"id":2,"method":"get_data","params":{"max_size":9,"rev":2,"start":0,"view_id":"view-id-1"}}"#,
);

// It answers `new_buffer` by an edit, and the answer to that by a reading of the revision that it tells.
const TYPES_A: Part = &[
    (
        r#""method":"new_buffer""#,
        r#"{"id":1,"method":"edit","params":{"after_cursor":false,"author":"p","delta":{"base_len":0,"els":[{"insert":"a"}]},"priority":1,"rev":0,"view_id":"view-id-1"}}"#,
    ),
    READ_1,
    READ_2,
];

// The same with another letter.
const TYPES_B: Part = &[
    (
        r#""method":"new_buffer""#,
        r#"{"id":1,"method":"edit","params":{"after_cursor":false,"author":"p","delta":{"base_len":0,"els":[{"insert":"b"}]},"priority":1,"rev":0,"view_id":"view-id-1"}}"#,
    ),
    READ_1,
    READ_2,
];

type Played = Report<MemSink, CalmShelf, Player>;

fn players(alloc: Global, parts: &[Part]) -> Result<Vec<Player>, NoMemory> {
    let mut plugins = Vec::new(alloc);
    for part in parts {
        plugins.push(Player::new(alloc, *part))?;
    }
    Ok(plugins)
}

// What waits for what: plugin 1 before each ask until so many of plugin 2 were answered, and what stands behind the first line until so many of each
// were.
#[derive(Clone, Copy)]
struct Waits {
    awaits: u64,
    asks: Asks,
}

// A run over these bytes, of whose writes those of these numbers fail.
fn ran<R: Threads + Wait + Sync>(
    rt: &R,
    alloc: Global,
    input: Vec<u8>,
    plugins: Vec<Player>,
    writes: Vec<u64>,
    waits: Waits,
) -> Option<Played> {
    if plugins.len() > 64 {
        return None;
    }
    let tally = Tally::new();
    let holds = [Hold {
        behind: 1,
        asks: waits.asks,
    }];
    let gate = Counter {
        tally: &tally,
        awaits: waits.awaits,
    };
    let mut source = Patient::new(alloc, input, &tally, &holds);
    let sink = MemSink::new(alloc, 1 << 20, writes);
    let shelf = CalmShelf::new(alloc);
    Some(run_threads(rt, alloc, &mut source, sink, shelf, plugins, &gate))
}

// A run over these lines, of whose writes that of this number fails.
fn played<R: Threads + Wait + Sync>(
    rt: &R,
    alloc: Global,
    lines: &[&str],
    parts: &[Part],
    waits: Waits,
    write: u64,
) -> Result<Option<Played>, NoMemory> {
    let input = joined(alloc, lines, lines.len())?;
    let writes = Vec::from_slice(alloc, &[write])?;
    let plugins = players(alloc, parts)?;
    Ok(ran(rt, alloc, input, plugins, writes, waits))
}

// What this plugin was given.
fn given(report: &Played, at: usize) -> &str {
    match report.plugins.get(at) {
        Some(plugin) => plugin.given.as_str(),
        None => "",
    }
}

const SHUTDOWN: &str = "{\"method\":\"shutdown\",\"params\":{}}\n";

fn are_shut_down(plugins: &[Player]) -> bool {
    plugins
        .iter()
        .all(|plugin| plugin.given.as_str().ends_with(SHUTDOWN))
}

// Whether plugin 2 came first, and each has two entries.
fn is_second_first(alloc: Global, report: &Played) -> Result<bool, NoMemory> {
    let told = callers(alloc, &report.journal)?;
    Ok(
        told.as_str().starts_with("02")
            && told.as_str().ends_with("0")
            && entries_of(&report.journal, 0) == 2
            && entries_of(&report.journal, 1) == 2
            && entries_of(&report.journal, 2) == 2,
    )
}

// Whether each plugin read what stood in the text at its turn.
fn have_read(report: &Played) -> bool {
    given(report, 0).contains("{\"id\":1,\"result\":{\"rev\":2,")
        && given(report, 0).contains("{\"id\":2,\"result\":{\"chunk\":\"ab\",\"offset\":0}}")
        && given(report, 1).contains("{\"id\":1,\"result\":{\"rev\":1,")
        && given(report, 1).contains("{\"id\":2,\"result\":{\"chunk\":\"b\",\"offset\":0}}")
}

// Whether two plugins are served, the second before the first.
fn are_served<R: Threads + Wait + Sync>(rt: &R, alloc: Global) -> Result<bool, NoMemory> {
    let asks = Asks {
        first: 2,
        second: 2,
        others: 0,
    };
    let waits = Waits { awaits: 1, asks };
    match played(rt, alloc, &[OPENING], &[TYPES_A, TYPES_B], waits, 0)? {
        Some(report) => Ok(
            report.status == 0
                && report.all_served
                && report.plugins.len() == 2
                && is_second_first(alloc, &report)?
                && have_read(&report)
                && are_shut_down(&report.plugins),
        ),
        None => Ok(false),
    }
}

#[test]
fn two_plugins_are_served_side_by_side(rt: HostRuntime) {
    assert!(rt; is_so(are_served(&rt, rt.alloc())));
}

// Whether a run over these lines ends at the entry of its plugin, whose write fails.
fn ends_unsent<R: Threads + Wait + Sync>(
    rt: &R,
    alloc: Global,
    lines: &[&str],
) -> Result<bool, NoMemory> {
    let asks = Asks {
        first: 1,
        second: 0,
        others: 0,
    };
    let waits = Waits { awaits: 0, asks };
    match played(rt, alloc, lines, &[TYPES_A], waits, 2)? {
        Some(report) => {
            Ok(is_run(alloc, &report, 5, "01!0")? && given(&report, 0).ends_with(SHUTDOWN))
        }
        None => Ok(false),
    }
}

#[test]
fn an_entry_of_a_plugin_that_is_not_sent_ends_the_run(rt: HostRuntime) {
    let alloc = rt.alloc();
    assert!(rt;
        is_so(ends_unsent(&rt, alloc, &[OPENING])),
        "at the input's end"
    );
    assert!(rt;
        is_so(ends_unsent(&rt, alloc, &[OPENING, STARTED])),
        "at the next line"
    );
}
