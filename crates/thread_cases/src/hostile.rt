//! Plugins that mean no good: the front end sees nothing of what is refused, and all of what is not, each once.

use crate::rude::{Manner, Rude};
use crate::tally::{Asks, Counter, Hold, Patient, Tally};
use crate::told::{entries_of, is_run, last_text, times};
use case_runs::{USUAL, is_so, joined};
use outside::{CalmShelf, MemSink, MemSource};
use plain_text::{List, NoMemory, Text};
use std::alloc::Global;
use std::sync::Wait;
use std::thread::Threads;
use xi_forms::run_threads;
use xi_top::{Entry, Plugin, Report, run_alone};

// An opening, and typing.
const TYPED: [&str; 4] = [
    "{\"id\":0,\"method\":\"new_view\"}\n",
    "{\"method\":\"edit\",\"params\":{\"method\":\"insert\",\"params\":{\"chars\":\".\"},\"view_id\":\"view-id-1\"}}\n",
    "{\"method\":\"edit\",\"params\":{\"method\":\"insert\",\"params\":{\"chars\":\".\"},\"view_id\":\"view-id-1\"}}\n",
    "{\"method\":\"edit\",\"params\":{\"method\":\"insert\",\"params\":{\"chars\":\".\"},\"view_id\":\"view-id-1\"}}\n",
];

const LETTERS: &str = "ABCDEFGHIJKLMNOPQRSTUVWXYZabcdefghijklmnopqrstuvwxyz0123456789-_";

type Played = Report<MemSink, CalmShelf, Rude>;

// The text of the one line on the screen in the end.
fn shown(alloc: Global, report: &Played) -> Result<Text, NoMemory> {
    let bytes = report.sink.bytes().unwrap_or(&[]);
    Ok(last_text(alloc, str::from_utf8(bytes).unwrap_or(""))?)
}

// A shelf with one file.
fn shelf_of(alloc: Global) -> Result<CalmShelf, NoMemory> {
    let mut shelf = CalmShelf::new(alloc);
    let bytes = List::from_vec(Vec::from_slice(alloc, b"hello\nworld\n")?);
    shelf.put(Text::from_str(alloc, "notes.txt")?, bytes)?;
    Ok(shelf)
}

fn rude_ones(alloc: Global, manners: &[Manner]) -> Result<Vec<Rude>, NoMemory> {
    let mut plugins = Vec::new(alloc);
    let mut caller: u64 = 0;
    for (letter, manner) in LETTERS.chars().zip(manners) {
        caller = caller.saturating_add(1);
        plugins.push(Rude::new(alloc, *manner, caller, letter))?;
    }
    Ok(plugins)
}

// A run on threads over these bytes beside these plugins, with what its front end waits for.
fn ran<R: Threads + Wait + Sync>(
    rt: &R,
    alloc: Global,
    input: Vec<u8>,
    plugins: Vec<Rude>,
    shelf: CalmShelf,
    holds: &[Hold],
) -> Option<Played> {
    if plugins.len() > 64 {
        return None;
    }
    let tally = Tally::new();
    let gate = Counter {
        tally: &tally,
        awaits: 0,
    };
    let mut source = Patient::new(alloc, input, &tally, holds);
    let sink = MemSink::new(alloc, 1 << 22, Vec::new(alloc));
    Some(run_threads(rt, alloc, &mut source, sink, shelf, plugins, &gate))
}

// A run on threads beside plugins of these manners, with what its front end waits for.
fn played<R: Threads + Wait + Sync>(
    rt: &R,
    alloc: Global,
    lines: &[&str],
    manners: &[Manner],
    holds: &[Hold],
) -> Result<Option<Played>, NoMemory> {
    let input = joined(alloc, lines, lines.len())?;
    let shelf = shelf_of(alloc)?;
    let plugins = rude_ones(alloc, manners)?;
    Ok(ran(rt, alloc, input, plugins, shelf, holds))
}

// The bytes of the same run without plugins.
fn without_plugins(alloc: Global, lines: &[&str]) -> Result<Option<Vec<u8>>, NoMemory> {
    let input = joined(alloc, lines, lines.len())?;
    let shelf = shelf_of(alloc)?;
    let mut source = MemSource::new(input, 4096, Vec::new(alloc));
    let sink = MemSink::new(alloc, 4096, Vec::new(alloc));
    let none: Vec<Box<dyn Plugin + Send>> = Vec::new(alloc);
    let report = run_alone(alloc, &mut source, sink, shelf, none);
    Ok(report.sink.into_bytes())
}

// Whether the run wrote what the same run writes without plugins.
fn writes_the_same(alloc: Global, report: &Played, lines: &[&str]) -> Result<bool, NoMemory> {
    match without_plugins(alloc, lines)? {
        Some(bytes) => Ok(report.sink.bytes() == Some(bytes.as_slice())),
        None => Ok(false),
    }
}

// Behind so many lines so many asks of plugins 1 and 2 and of the others are awaited.
const fn hold(behind: usize, first: u64, second: u64, others: u64) -> Hold {
    Hold {
        behind,
        asks: Asks {
            first,
            second,
            others,
        },
    }
}

// Whether the end of the first plugin's session, after one turn, is the one entry of a plugin.
fn has_one_end(report: &Played) -> bool {
    let one_turn = match report.plugins.first() {
        Some(plugin) => plugin.turns == 1,
        None => false,
    };
    one_turn
        && report.journal.len() == 10
        && entries_of(&report.journal, 0) == 9
        && entries_of(&report.journal, 1) == 1
}

// Whether a usual session writes the same beside a plugin that leaves, one that floods and one that asks.
fn is_left<R: Threads + Wait + Sync>(rt: &R, alloc: Global) -> Result<bool, NoMemory> {
    let manners = [Manner::Leaves, Manner::Floods, Manner::Counts];
    let holds = [
        hold(3, 1, 1000, 10),
        hold(6, 1, 2000, 20),
        hold(8, 1, 4000, 40),
    ];
    match played(rt, alloc, &[USUAL], &manners, &holds)? {
        Some(report) => Ok(
            report.status == 0
                && report.all_served
                && report.plugins.len() == 3
                && has_one_end(&report)
                && writes_the_same(alloc, &report, &[USUAL])?,
        ),
        None => Ok(false),
    }
}

#[test]
fn a_usual_session_is_left_as_it_is(rt: HostRuntime) {
    assert!(rt; is_so(is_left(&rt, rt.alloc())));
}

// Whether four plugins that flood leave no entry.
fn leave_nothing<R: Threads + Wait + Sync>(rt: &R, alloc: Global) -> Result<bool, NoMemory> {
    let holds = [hold(1, 1000, 1000, 2000), hold(4, 3000, 3000, 6000)];
    match played(rt, alloc, &TYPED, &[Manner::Floods; 4], &holds)? {
        Some(report) => Ok(
            is_run(alloc, &report, 0, "00000")?
                && report.plugins.len() == 4
                && writes_the_same(alloc, &report, &TYPED)?,
        ),
        None => Ok(false),
    }
}

#[test]
fn four_floods_leave_no_entry(rt: HostRuntime) {
    assert!(rt; is_so(leave_nothing(&rt, rt.alloc())));
}

// Sixty-four plugins: each edits on, reads, or keeps silent.
fn crowd(alloc: Global) -> Result<Vec<Manner>, NoMemory> {
    let mut manners = Vec::from_slice(alloc, &[Manner::EditsOn])?;
    for _ in 0..21 {
        manners.extend_from_slice(&[Manner::Reads, Manner::KeepsSilent, Manner::EditsOn])?;
    }
    Ok(manners)
}

// Whether each plugin that edits has as many entries as its letter stands in the text, and no other stands there; those that keep silent have none.
fn stand_once(report: &Played, manners: &[Manner], text: &str) -> bool {
    let mut caller: u32 = 0;
    let mut same = true;
    for (letter, manner) in LETTERS.chars().zip(manners) {
        caller = caller.saturating_add(1);
        let entries = entries_of(&report.journal, caller);
        let typed = times(text, letter);
        same = same
            && match manner {
                Manner::EditsOn => typed == entries,
                Manner::Reads => typed == 0,
                _ => typed == 0 && entries == 0,
            };
    }
    same
}

// Whether each plugin is told its own number.
fn are_in_order(plugins: &[Rude]) -> bool {
    let mut caller: u64 = 0;
    for plugin in plugins {
        caller = caller.saturating_add(1);
        if plugin.caller != caller {
            return false;
        }
    }
    true
}

// Whether the front end and the first two plugins have their entries.
fn have_entries(journal: &[Entry]) -> bool {
    entries_of(journal, 0) == 5 && entries_of(journal, 1) >= 20 && entries_of(journal, 2) >= 20
}

// Whether a run beside the crowd ends with its front end, and each of its edits stands once.
fn ends_with_its_front<R: Threads + Wait + Sync>(rt: &R, alloc: Global) -> Result<bool, NoMemory> {
    let manners = crowd(alloc)?;
    let holds = [hold(2, 5, 5, 100), hold(4, 20, 20, 1000)];
    let Some(report) = played(rt, alloc, &TYPED, &manners, &holds)? else {
        return Ok(false);
    };
    let text = shown(alloc, &report)?;
    Ok(
        report.status == 0
            && report.all_served
            && report.plugins.len() == 64
            && have_entries(&report.journal)
            && are_in_order(&report.plugins)
            && times(text.as_str(), '.') == 3
            && stand_once(&report, manners.as_slice(), text.as_str()),
    )
}

#[test]
fn a_crowd_that_edits_on_ends_with_its_front_end(rt: HostRuntime) {
    assert!(rt; is_so(ends_with_its_front(&rt, rt.alloc())));
}
