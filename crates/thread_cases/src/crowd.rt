//! Many plugins: each edits once for each line of the front end, and each edit stands once.

use crate::tally::{Asks, Counter, Hold, Patient, Tally};
use crate::told::{entries_of, last_text, times};
use crate::typist::Typist;
use case_runs::{is_so, joined};
use outside::{CalmShelf, MemSink};
use plain_text::NoMemory;
use std::alloc::Global;
use std::sync::Wait;
use std::thread::Threads;
use xi_forms::run_threads;
use xi_top::Report;

const LETTERS: &str = "ABCDEFGHIJKLMNOPQRSTUVWXYZabcdefghijklmnopqrstuvwxyz0123456789-_";

pub(crate) const OPENING: &str = "{\"id\":0,\"method\":\"new_view\"}\n";

pub(crate) const TYPING: &str =
    "{\"method\":\"edit\",\"params\":{\"method\":\"insert\",\"params\":{\"chars\":\".\"},\"view_id\":\"view-id-1\"}}\n";

type Played = Report<MemSink, CalmShelf, Typist>;

// An opening, and ten inserts.
fn input(alloc: Global) -> Result<Vec<u8>, NoMemory> {
    let lines = [
        OPENING, TYPING, TYPING, TYPING, TYPING, TYPING, TYPING, TYPING, TYPING, TYPING, TYPING,
    ];
    Ok(joined(alloc, &lines, lines.len())?)
}

pub(crate) fn typists(alloc: Global, letters: &str) -> Result<Vec<Typist>, NoMemory> {
    let mut plugins = Vec::new(alloc);
    for letter in letters.chars() {
        plugins.push(Typist::new(alloc, letter))?;
    }
    Ok(plugins)
}

// A run over these bytes in which each plugin edits once for each insert of the front end.
fn ran<R: Threads + Wait + Sync>(
    rt: &R,
    alloc: Global,
    input: Vec<u8>,
    plugins: Vec<Typist>,
) -> Option<Played> {
    if plugins.len() > 64 {
        return None;
    }
    let others = (plugins.len() as u64).saturating_sub(2).saturating_mul(10);
    let tally = Tally::new();
    let asks = Asks {
        first: 10,
        second: 10,
        others,
    };
    let holds = [Hold { behind: 11, asks }];
    let gate = Counter {
        tally: &tally,
        awaits: 0,
    };
    let mut source = Patient::new(alloc, input, &tally, &holds);
    let sink = MemSink::new(alloc, 1 << 22, Vec::new(alloc));
    let shelf = CalmShelf::new(alloc);
    Some(run_threads(rt, alloc, &mut source, sink, shelf, plugins, &gate))
}

// Whether each plugin has ten entries, and the length of the text.
fn have_ten(report: &Played, wanted: usize) -> bool {
    let mut caller: u32 = 0;
    for plugin in &report.plugins {
        caller = caller.saturating_add(1);
        if plugin.len != wanted as u64 || entries_of(&report.journal, caller) != 10 {
            return false;
        }
    }
    true
}

// Whether each of these letters stands ten times in the text.
fn stand_ten_times(text: &str, letters: &str) -> bool {
    for letter in letters.chars() {
        if times(text, letter) != 10 {
            return false;
        }
    }
    true
}

// Whether each of these letters stands ten times in the journal, by its plugin, and ten times on the screen.
fn stands_once(alloc: Global, report: &Played, letters: &str) -> Result<bool, NoMemory> {
    let wanted = letters.len().saturating_mul(10).saturating_add(10);
    let bytes = report.sink.bytes().unwrap_or(&[]);
    let shown = last_text(alloc, str::from_utf8(bytes).unwrap_or(""))?;
    let text = shown.as_str();
    Ok(
        have_ten(report, wanted)
            && stand_ten_times(text, letters)
            && times(text, '.') == 10
            && text.len() == wanted,
    )
}

// Whether a run with a plugin for each of these letters goes well, and each edit stands once.
fn goes<R: Threads + Wait + Sync>(rt: &R, alloc: Global, letters: &str) -> Result<bool, NoMemory> {
    match ran(rt, alloc, input(alloc)?, typists(alloc, letters)?) {
        Some(report) => Ok(
            report.status == 0
                && report.all_served
                && report.plugins.len() == letters.len()
                && report.journal.len() == letters.len().saturating_mul(10).saturating_add(12)
                && stands_once(alloc, &report, letters)?,
        ),
        None => Ok(false),
    }
}

#[test]
fn each_edit_of_many_plugins_stands_once(rt: HostRuntime) {
    let alloc = rt.alloc();
    assert!(rt; is_so(goes(&rt, alloc, "AB")));
    assert!(rt; is_so(goes(&rt, alloc, "ABCDEFGH")));
    assert!(rt; is_so(goes(&rt, alloc, LETTERS)));
}
