//! The marker of `TODO` beside a front end: who has which entry, and what is written.

use crate::forms::words_of;
use outside::{CalmShelf, FreeGate, MemSink, MemSource};
use plain_text::{NoMemory, Text};
use shipped_plugins::TodoMarks;
use std::alloc::Global;
use std::sync::Wait;
use std::thread::Threads;
use xi_forms::{Entry, Report, xi_main};
use xi_plain::Act;

const TYPED: &str = r#"{"id":0,"method":"new_view","params":{}}
{"method":"edit","params":{"method":"insert","params":{"chars":"TODO"},"view_id":"view-id-1"}}
{"method":"client_started","params":{}}
"#;

const SHOWN: &str = r#"{"id":0,"result":"view-id-1"}
{"method":"update","params":{"update":{"ops":[{"lines":[{"cursor":[0],"ln":1,"styles":[],"text":""}],"n":1,"op":"ins"}],"pristine":true},"view_id":"view-id-1"}}
{"method":"update","params":{"update":{"ops":[{"lines":[{"cursor":[4],"ln":1,"styles":[],"text":"TODO"}],"n":1,"op":"ins"}],"pristine":false},"view_id":"view-id-1"}}
{"method":"scroll_to","params":{"col":4,"line":0,"view_id":"view-id-1"}}
"#;

const MARKED: &str = r#"{"method":"def_style","params":{"id":2,"weight":700}}
{"method":"update","params":{"update":{"ops":[{"lines":[{"cursor":[4],"ln":1,"styles":[0,4,2],"text":"TODO"}],"n":1,"op":"ins"}],"pristine":false},"view_id":"view-id-1"}}
"#;

/// The run of these lines beside the marker, of whose writes that of this number fails.
fn marked<R: Threads + Wait + Sync>(
    rt: &R,
    alloc: Global,
    write: u64,
) -> Result<Option<Report<MemSink, CalmShelf, TodoMarks>>, NoMemory> {
    let words = words_of(alloc, "alone")?;
    let mut source = MemSource::new(
        Vec::from_slice(alloc, TYPED.as_bytes())?,
        4096,
        Vec::new(alloc),
    );
    let sink = MemSink::new(alloc, 1 << 20, Vec::from_slice(alloc, &[write])?);
    let mut plugins = Vec::new(alloc);
    plugins.push(TodoMarks::new(alloc))?;
    if plugins.len() > 64 {
        return Ok(None);
    }
    let shelf = CalmShelf::new(alloc);
    Ok(Some(xi_main(
        rt,
        alloc,
        words.as_slice(),
        &mut source,
        sink,
        shelf,
        plugins,
        &FreeGate,
    )))
}

/// Each entry as the digit of its caller and a letter of what it asks, and `!` behind one that was not sent.
fn told(alloc: Global, entries: &[Entry]) -> Result<Text, NoMemory> {
    let mut told = Text::new(alloc);
    for entry in entries {
        told.push(char::from(b'0' + (entry.caller % 10) as u8))?;
        told.push(letter_of(&entry.command.act))?;
        if !entry.sent {
            told.push('!')?;
        }
    }
    Ok(told)
}

fn letter_of(act: &Act) -> char {
    match act {
        Act::NewView { .. } => 'v',
        Act::Edit { .. } => 'e',
        Act::Nothing => 'n',
        Act::GetData { .. } => 'g',
        Act::UpdateSpans { .. } => 's',
        Act::Ack { .. } => 'a',
        Act::Closing => 'c',
        _ => '?',
    }
}

/// Whether the run with this failing write ends so: its status, its entries, and what the sink holds.
fn ends<R: Threads + Wait + Sync>(
    rt: &R,
    alloc: Global,
    write: u64,
    status: u8,
    entries: &str,
    output: &[&str],
) -> Result<bool, NoMemory> {
    let Some(report) = marked(rt, alloc, write)? else {
        return Ok(false);
    };
    let mut expected = Text::new(alloc);
    for part in output {
        expected.push_str(part)?;
    }
    Ok(
        report.status == status
            && report.plugins.len() == 1
            && told(alloc, report.journal.as_slice())?.as_str() == entries
            && report.sink.bytes() == Some(expected.as_str().as_bytes()),
    )
}

#[test]
fn each_change_is_read_and_marked(rt: HostRuntime) {
    match ends(
        &rt,
        rt.alloc(),
        0,
        0,
        "0v1g0e1s1a1g0n1s1a0c",
        &[SHOWN, MARKED],
    ) {
        Ok(well) => assert!(rt; well),
        Err(_) => assert!(rt; false),
    }
}

#[test]
fn marks_that_are_not_taken_end_the_run(rt: HostRuntime) {
    match ends(&rt, rt.alloc(), 3, 5, "0v1g0e1s1a1g0n1s!0c", &[SHOWN]) {
        Ok(well) => assert!(rt; well),
        Err(_) => assert!(rt; false),
    }
}
