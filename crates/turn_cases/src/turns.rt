//! Runs that serve plugins in turns: the journal, the bytes, and what each plugin was given.

use crate::player::{Part, Player};
use case_runs::{FIVE_LINES, FIVE_PIECES, callers, is_so, joined};
use outside::{CalmShelf, MemSink, MemSource};
use plain_text::NoMemory;
use std::alloc::Global;
use xi_top::{Report, run_alone};

type Played = Report<MemSink, CalmShelf, Player>;

const STARTED: &str = "{\"method\":\"client_started\",\"params\":{}}\n";

const EDIT_A: &str =
    r#"|{"id":1,"method":"edit","params":{"after_cursor":false,"author":"p","delta":{"base_len":0,"els":[{"insert":"a"}]},"priority":1,"rev":0,"view_id":"view-id-1"}}"#;

const EDIT_B: &str =
    r#"|{"id":1,"method":"edit","params":{"after_cursor":false,"author":"p","delta":{"base_len":0,"els":[{"insert":"b"}]},"priority":2,"rev":0,"view_id":"view-id-1"}}"#;

const EDIT_C: &str =
    r#"|{"id":1,"method":"edit","params":{"after_cursor":false,"author":"p","delta":{"base_len":0,"els":[{"insert":"c"}]},"priority":3,"rev":0,"view_id":"view-id-1"}}"#;

const EDIT_Z: &str =
    r#"|{"id":1,"method":"edit","params":{"after_cursor":false,"author":"p","delta":{"base_len":0,"els":[{"insert":"Z"}]},"priority":1,"rev":0,"view_id":"view-id-1"}}"#;

// Two lines of one turn, of which the second reads what the first wrote.
const WRITES_AND_READS: &str =
    r#"|{"id":1,"method":"edit","params":{"after_cursor":false,"author":"p","delta":{"base_len":0,"els":[{"insert":"Z"}]},"priority":1,"rev":0,"view_id":"view-id-1"}}
{"id":2,"method":"get_data","params":{"max_size":9,"rev":1,"start":0,"view_id":"view-id-1"}}"#;

fn plays(turns: &'static str) -> Part {
    Part {
        turns,
        line: "",
        count: 0,
    }
}

// What the last turn of a plugin is told.
const SHUTDOWN: &str = "|{\"method\":\"shutdown\",\"params\":{}}\n|";

const A_THEN_UPDATES: &str = r#"{"method":"initialize","params":{"plugin_id":1}}
|{"method":"new_buffer","params":{"len":0,"rev":0,"view_id":"view-id-1"}}
|{"id":1,"result":{"rev":1,"undo_group":1}}
{"method":"update","params":{"author":1,"delta":{"base_len":0,"els":[{"insert":"a"}]},"new_len":1,"rev":1,"view_id":"view-id-1"}}
{"method":"update","params":{"author":2,"delta":{"base_len":1,"els":[{"copy":[0,1]},{"insert":"b"}]},"new_len":2,"rev":2,"view_id":"view-id-1"}}
{"method":"update","params":{"author":3,"delta":{"base_len":2,"els":[{"copy":[0,2]},{"insert":"c"}]},"new_len":3,"rev":3,"view_id":"view-id-1"}}
|{"method":"shutdown","params":{}}
|"#;

const C_THEN_UPDATES: &str = r#"{"method":"initialize","params":{"plugin_id":1}}
|{"method":"new_buffer","params":{"len":0,"rev":0,"view_id":"view-id-1"}}
|{"id":1,"result":{"rev":1,"undo_group":1}}
{"method":"update","params":{"author":1,"delta":{"base_len":0,"els":[{"insert":"c"}]},"new_len":1,"rev":1,"view_id":"view-id-1"}}
{"method":"update","params":{"author":2,"delta":{"base_len":1,"els":[{"insert":"b"},{"copy":[0,1]}]},"new_len":2,"rev":2,"view_id":"view-id-1"}}
{"method":"update","params":{"author":3,"delta":{"base_len":2,"els":[{"insert":"a"},{"copy":[0,2]}]},"new_len":3,"rev":3,"view_id":"view-id-1"}}
|{"method":"shutdown","params":{}}
|"#;

// The last turn has no answer, since there is none to a line whose entry was not sent.
const Z_WAS_NOT_SENT: &str = r#"{"method":"initialize","params":{"plugin_id":1}}
|{"method":"new_buffer","params":{"len":0,"rev":0,"view_id":"view-id-1"}}
|{"method":"update","params":{"author":1,"delta":{"base_len":0,"els":[{"insert":"Z"}]},"new_len":1,"rev":1,"view_id":"view-id-1"}}
{"method":"shutdown","params":{}}
|"#;

const Z_WAS_READ: &str = r#"{"method":"initialize","params":{"plugin_id":1}}
|{"method":"new_buffer","params":{"len":0,"rev":0,"view_id":"view-id-1"}}
|{"id":1,"result":{"rev":1,"undo_group":1}}
{"id":2,"result":{"chunk":"Z","offset":0}}
{"method":"update","params":{"author":1,"delta":{"base_len":0,"els":[{"insert":"Z"}]},"new_len":1,"rev":1,"view_id":"view-id-1"}}
{"method":"shutdown","params":{}}
|"#;

fn players(alloc: Global, parts: &[Part]) -> Result<Vec<Player>, NoMemory> {
    let mut plugins = Vec::new(alloc);
    for part in parts {
        plugins.push(Player::new(alloc, *part)?)?;
    }
    Ok(plugins)
}

// A run over these bytes with these plugins, of whose writes those of these numbers fail.
fn ran(alloc: Global, input: Vec<u8>, plugins: Vec<Player>, writes: Vec<u64>) -> Option<Played> {
    if plugins.len() > 64 {
        return None;
    }
    let mut source = MemSource::new(input, 4096, Vec::new(alloc));
    let sink = MemSink::new(alloc, 1 << 20, writes);
    Some(run_alone(alloc, &mut source, sink, CalmShelf::new(alloc), plugins))
}

// A run over these lines with these plugins, of whose writes that of this number fails.
fn played(
    alloc: Global,
    lines: &[&str],
    parts: &[Part],
    write: u64,
) -> Result<Option<Played>, NoMemory> {
    let input = joined(alloc, lines, lines.len())?;
    let writes = Vec::from_slice(alloc, &[write])?;
    let plugins = players(alloc, parts)?;
    Ok(ran(alloc, input, plugins, writes))
}

// Whether the run has this status and these callers of its entries, and no plugin lacked anything.
fn is_run(alloc: Global, report: &Played, status: u8, told: &str) -> Result<bool, NoMemory> {
    let callers = callers(alloc, &report.journal)?;
    Ok(report.status == status && report.all_served && callers.as_str() == told)
}

// A turn of an idle plugin.
pub(crate) const IDLE: Part = Part {
    turns: "",
    line: "",
    count: 0,
};

// A line that is no JSON, a thousand times in each turn.
pub(crate) const NOISY: Part = Part {
    turns: "",
    line: "{",
    count: 1000,
};

// In each turn the count of the lines of a view that is not there.
pub(crate) const COUNTING: Part = Part {
    turns: "",
    line: r#"{"id":7,"method":"line_count","params":{"view_id":"view-id-9"}}"#,
    count: 1,
};

// What this plugin was given, and how many lines each of its turns had.
fn given(report: &Played, at: usize) -> &str {
    match report.plugins.get(at) {
        Some(plugin) => plugin.given.as_str(),
        None => "",
    }
}

fn counts(report: &Played, at: usize) -> &[usize] {
    match report.plugins.get(at) {
        Some(plugin) => plugin.counts.as_slice(),
        None => &[],
    }
}

// Whether each plugin was told of the end, and of nothing behind it.
fn are_shut_down(plugins: &[Player]) -> bool {
    plugins
        .iter()
        .all(|plugin| plugin.given.as_str().ends_with(SHUTDOWN))
}

// Whether the edits of three plugins, given in this order, come to the text `abc`, and the first is told this.
fn stand_by_priority(
    alloc: Global,
    edits: [&'static str; 3],
    told: &str,
) -> Result<bool, NoMemory> {
    let [first, second, third] = edits;
    let lines = [FIVE_LINES[0], STARTED];
    match played(
        alloc,
        &lines,
        &[plays(first), plays(second), plays(third)],
        0,
    )? {
        Some(report) => Ok(
            is_run(alloc, &report, 0, "012300")?
                && given(&report, 0) == told
                && are_shut_down(&report.plugins)
                && shows(&report, "\"text\":\"abc\""),
        ),
        None => Ok(false),
    }
}

// Whether this stands in what the run wrote.
fn shows(report: &Played, shown: &str) -> bool {
    let bytes = report.sink.bytes().unwrap_or(&[]);
    str::from_utf8(bytes).unwrap_or("").contains(shown)
}

#[test]
fn three_edits_stand_by_priority_whatever_the_order(rt: HostRuntime) {
    let alloc = rt.alloc();
    assert!(rt; is_so(stand_by_priority(alloc, [EDIT_A, EDIT_B, EDIT_C], A_THEN_UPDATES)));
    assert!(rt; is_so(stand_by_priority(alloc, [EDIT_C, EDIT_B, EDIT_A], C_THEN_UPDATES)));
}

// Whether a run over the five lines beside plugins that are refused writes what it writes without them.
fn change_nothing(alloc: Global) -> Result<bool, NoMemory> {
    let pieces = joined(alloc, &FIVE_PIECES, 5)?;
    match played(alloc, &FIVE_LINES, &[plays("."), NOISY, COUNTING], 0)? {
        Some(report) => Ok(
            is_run(alloc, &report, 0, "1000000")?
                && counts(&report, 0) == [1].as_slice()
                && counts(&report, 1) == [1, 1001, 1001, 1001, 1001, 1001, 1001].as_slice()
                && counts(&report, 2) == [1, 2, 2, 2, 2, 2, 2].as_slice()
                && report.sink.bytes() == Some(pieces.as_slice()),
        ),
        None => Ok(false),
    }
}

#[test]
fn plugins_that_are_refused_change_nothing(rt: HostRuntime) {
    assert!(rt; is_so(change_nothing(rt.alloc())));
}

// Whether a run of which these plugins, the first of which is looked at, have turns goes so: its status, its callers, what the first was given.
fn goes(
    alloc: Global,
    lines: &[&str],
    parts: &[Part],
    write: u64,
    wanted: (u8, &str, &str),
) -> Result<bool, NoMemory> {
    let (status, told, first) = wanted;
    match played(alloc, lines, parts, write)? {
        Some(report) => { Ok(is_run(alloc, &report, status, told)? && given(&report, 0) == first) }
        None => Ok(false),
    }
}

#[test]
fn an_entry_of_a_plugin_that_is_not_sent_ends_the_run(rt: HostRuntime) {
    let alloc = rt.alloc();
    let wanted = (5, "01!0", Z_WAS_NOT_SENT);
    let parts = [plays(EDIT_Z), IDLE];
    // At the next line, and at the input's end.
    let lines = [FIVE_LINES[0], STARTED, FIVE_LINES[1]];
    assert!(rt; is_so(goes(alloc, &lines, &parts, 2, wanted)));
    assert!(rt; is_so(goes(alloc, &FIVE_LINES[..1], &parts, 2, wanted)));
}

#[test]
fn a_turn_reads_what_it_wrote(rt: HostRuntime) {
    // The last line has no LF.
    let lines = ["{\"id\":0,\"method\":\"new_view\"}"];
    let wanted = (0, "0110", Z_WAS_READ);
    assert!(rt; is_so(goes(rt.alloc(), &lines, &[plays(WRITES_AND_READS)], 0, wanted)));
}

// An opening and 99 inserts.
fn hundred_lines(alloc: Global) -> Result<Vec<&'static str>, NoMemory> {
    let mut lines = Vec::from_slice(alloc, &FIVE_LINES[..1])?;
    for _ in 1..100 {
        lines.push(FIVE_LINES[1])?;
    }
    Ok(lines)
}

// Whether each of 64 idle plugins has its turns in a run of a hundred lines.
fn have_turns(alloc: Global) -> Result<bool, NoMemory> {
    let lines = hundred_lines(alloc)?;
    match played(alloc, &lines, &[IDLE; 64], 0)? {
        Some(report) => Ok(
            report.status == 0
                && report.all_served
                && report.journal.len() == 101
                && report.plugins.len() == 64
                && report
                    .plugins
                    .iter()
                    .all(|plugin| plugin.counts.len() == 102),
        ),
        None => Ok(false),
    }
}

#[test]
fn sixty_four_plugins_have_their_turns(rt: HostRuntime) {
    assert!(rt; is_so(have_turns(rt.alloc())));
}

// A run over the five lines beside an idle plugin and a noisy one, whose third read fails.
fn failing_run(alloc: Global) -> Result<Option<Played>, NoMemory> {
    let input = joined(alloc, &FIVE_LINES, 5)?;
    let reads = Vec::from_slice(alloc, &[3])?;
    let plugins = players(alloc, &[IDLE, NOISY])?;
    if plugins.len() > 64 {
        return Ok(None);
    }
    let mut source = MemSource::new(input, 90, reads);
    let sink = MemSink::new(alloc, 4096, Vec::new(alloc));
    Ok(Some(run_alone(alloc, &mut source, sink, CalmShelf::new(alloc), plugins)))
}

// Whether its plugins come back from it.
fn come_back(alloc: Global) -> Result<bool, NoMemory> {
    match failing_run(alloc)? {
        Some(report) => Ok(
            is_run(alloc, &report, 4, "000")?
                && counts(&report, 0) == [1, 1, 1, 1].as_slice()
                && counts(&report, 1) == [1, 1001, 1001, 1001].as_slice(),
        ),
        None => Ok(false),
    }
}

#[test]
fn plugins_come_back_from_a_run_whose_source_fails(rt: HostRuntime) {
    assert!(rt; is_so(come_back(rt.alloc())));
}
