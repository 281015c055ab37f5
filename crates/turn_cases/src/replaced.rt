//! A run in which a plugin replaces all spots of a file by one edit, which one undo takes back.

use case_runs::{callers, is_so};
use outside::{CalmShelf, MemSink, MemSource};
use plain_text::{List, NoMemory, Text};
use plugin_replacer::Replacer;
use regex::Regex;
use regex_find::RegexSpot;
use std::alloc::Global;
use xi_top::{Report, run_alone};

type Played = Report<MemSink, CalmShelf, Replacer<RegexSpot>>;

// The plugin hears of the view, reads its text, and edits it after the first of the two lines that do nothing.
const LINES: &str = r#"{"id":0,"method":"new_view","params":{"file_path":"f"}}
{"method":"client_started","params":{}}
{"method":"client_started","params":{}}
{"id":1,"method":"edit","params":{"method":"undo","view_id":"view-id-1"}}
"#;

const WRITES: &str = r#"{"id":0,"result":"view-id-1"}
{"method":"update","params":{"update":{"ops":[{"lines":[{"cursor":[0],"ln":1,"styles":[],"text":"a1b22"}],"n":1,"op":"ins"}],"pristine":true},"view_id":"view-id-1"}}
{"method":"update","params":{"update":{"ops":[{"lines":[{"cursor":[0],"ln":1,"styles":[],"text":"a#b#"}],"n":1,"op":"ins"}],"pristine":false},"view_id":"view-id-1"}}
{"id":1,"result":null}
{"method":"update","params":{"update":{"ops":[{"lines":[{"cursor":[0],"ln":1,"styles":[],"text":"a1b22"}],"n":1,"op":"ins"}],"pristine":false},"view_id":"view-id-1"}}
"#;

// A plugin that replaces each number by `#`.
fn numbers(alloc: Global) -> Option<Replacer<RegexSpot>> {
    match (Regex::new(alloc, "[0-9]+"), Text::from_str(alloc, "#")) {
        (Ok(regex), Ok(with)) => Some(Replacer::new(alloc, RegexSpot::of(alloc, regex), with)),
        _ => None,
    }
}

fn played(alloc: Global, plugin: Replacer<RegexSpot>) -> Result<Played, NoMemory> {
    let mut shelf = CalmShelf::new(alloc);
    let bytes = List::from_vec(Vec::from_slice(alloc, b"a1b22")?);
    shelf.put(Text::from_str(alloc, "f")?, bytes)?;
    let lines = Vec::from_slice(alloc, LINES.as_bytes())?;
    let mut source = MemSource::new(lines, 4096, Vec::new(alloc));
    let sink = MemSink::new(alloc, 4096, Vec::new(alloc));
    Ok(run_alone(
        alloc,
        &mut source,
        sink,
        shelf,
        Vec::from_array(alloc, [plugin])?,
    ))
}

// Whether the run of this plugin goes as said, and the plugin came back without a fault.
fn goes(alloc: Global, plugin: Replacer<RegexSpot>) -> Result<bool, NoMemory> {
    let report = played(alloc, plugin)?;
    Ok(
        report.status == 0
            && report.all_served
            && callers(alloc, &report.journal)?.as_str() == "010101010"
            && report.sink.bytes() == Some(WRITES.as_bytes())
            && report.plugins.len() == 1
            && report.plugins.iter().all(|plugin| plugin.fault().is_none()),
    )
}

#[test]
fn all_spots_are_one_step_of_undo(rt: HostRuntime) {
    let alloc = rt.alloc();
    match numbers(alloc) {
        Some(plugin) => assert!(rt; is_so(goes(alloc, plugin))),
        None => assert!(rt; false, "no pattern"),
    }
}
