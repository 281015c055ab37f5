//! Runs over files: what is opened, refused and saved, and what the shelf has in the end.

use crate::none::no_plugins;
use case_runs::{USUAL, USUAL_WRITES};
use outside::{CalmShelf, MemShelf, MemSink, MemSource};
use plain_text::{List, NoMemory, Text};
use std::alloc::Global;
use xi_plain::ShelfNote;
use xi_top::{Entry, Report, run_alone};

// A path and its bytes.
type File = (&'static str, &'static [u8]);

// A run: the files before it, which calls of its shelf and of its sink fail, and its lines.
#[derive(Clone, Copy)]
struct Play {
    files: &'static [File],
    refused: &'static [u64],
    cut: &'static [u64],
    lines: &'static str,
}

// A run in which no call fails.
const fn calm(files: &'static [File], lines: &'static str) -> Play {
    Play {
        files,
        refused: &[],
        cut: &[],
        lines,
    }
}

fn shelf_of(alloc: Global, files: &[File]) -> Result<CalmShelf, NoMemory> {
    let mut shelf = CalmShelf::new(alloc);
    for (path, bytes) in files {
        let bytes = List::from_vec(Vec::from_slice(alloc, bytes)?);
        shelf.put(Text::from_str(alloc, path)?, bytes)?;
    }
    Ok(shelf)
}

fn played(alloc: Global, play: Play) -> Result<Report<MemSink, MemShelf>, NoMemory> {
    let lines = Vec::from_slice(alloc, play.lines.as_bytes())?;
    let mut source = MemSource::new(lines, 4096, Vec::new(alloc));
    let shelf = MemShelf::new(
        shelf_of(alloc, play.files)?,
        Vec::from_slice(alloc, play.refused)?,
    );
    let sink = MemSink::new(alloc, 4096, Vec::from_slice(alloc, play.cut)?);
    Ok(run_alone(alloc, &mut source, sink, shelf, no_plugins(alloc)))
}

// Whether the run ends so: with this status, these bytes written, and this file in the shelf.
fn ends(alloc: Global, play: Play, status: u8, written: &str, file: File) -> bool {
    match played(alloc, play) {
        Ok(report) => {
            report.status == status
                && report.sink.bytes() == Some(written.as_bytes())
                && has(alloc, report.shelf.files(), file)
        }
        Err(_) => false,
    }
}

fn has(alloc: Global, files: &CalmShelf, file: File) -> bool {
    let (path, bytes) = file;
    match Text::from_str(alloc, path) {
        Ok(path) => match files.get(&path) {
            Some(found) => found.as_slice() == bytes,
            None => false,
        },
        Err(_) => false,
    }
}

// What the shelf answered an entry, as far as the rows say it.
#[derive(Clone, Copy, PartialEq, Eq)]
enum Noted {
    Nothing,
    Held(&'static [u8]),
    Absent,
    Failed,
    Done,
}

fn is_noted(note: &ShelfNote, noted: Noted) -> bool {
    match (note, noted) {
        (ShelfNote::NoCall, Noted::Nothing) => true,
        (ShelfNote::Held(bytes), Noted::Held(had)) => bytes.as_slice() == had,
        (ShelfNote::Absent, Noted::Absent) => true,
        (ShelfNote::Failed, Noted::Failed) => true,
        (ShelfNote::Done, Noted::Done) => true,
        _ => false,
    }
}

fn are_noted(journal: &[Entry], noted: &[Noted]) -> bool {
    journal.len() == noted.len()
        && journal
            .iter()
            .zip(noted)
            .all(|(entry, noted)| is_noted(&entry.shelf, *noted))
}

// Whether the entries of the run have these notes, the closing one too.
fn notes(alloc: Global, play: Play, noted: &[Noted]) -> bool {
    match played(alloc, play) {
        Ok(report) => are_noted(&report.journal, noted),
        Err(_) => false,
    }
}

// A file of one line, which is wrapped at five columns.
const WRAPPED: &str =
    r#"{"method":"modify_user_config","params":{"changes":{"wrap_width":5},"domain":"general"}}
{"id":0,"method":"new_view","params":{"file_path":"a"}}
"#;

const WRAPPED_WRITES: &str = r#"{"id":0,"result":"view-id-1"}
{"method":"update","params":{"update":{"ops":[{"lines":[{"cursor":[0],"ln":1,"styles":[],"text":"aa "},{"cursor":[],"styles":[],"text":"bb-cc "},{"cursor":[],"styles":[],"text":"ddddd"},{"cursor":[],"styles":[],"text":"dd"}],"n":4,"op":"ins"}],"pristine":true},"view_id":"view-id-1"}}
"#;

// A file that is no text, and one that is not there. A refused opening uses up no id.
const NO_TEXT: &str = r#"{"id":0,"method":"new_view","params":{"file_path":"ff"}}
{"id":1,"method":"new_view","params":{"file_path":"missing"}}
"#;

const NO_TEXT_WRITES: &str = r#"{"error":{"code":2,"message":"not text"},"id":0}
{"id":1,"result":"view-id-1"}
{"method":"update","params":{"update":{"ops":[{"lines":[{"cursor":[0],"ln":1,"styles":[],"text":""}],"n":1,"op":"ins"}],"pristine":true},"view_id":"view-id-1"}}
"#;

// The shelf's first call fails.
const REFUSED: &str = r#"{"id":0,"method":"new_view","params":{"file_path":"a"}}
{"id":1,"method":"new_view","params":{"file_path":"a"}}
"#;

const REFUSED_WRITES: &str = r#"{"error":{"code":1,"message":"shelf"},"id":0}
{"id":1,"result":"view-id-1"}
{"method":"update","params":{"update":{"ops":[{"lines":[{"cursor":[0],"ln":1,"styles":[],"text":"x"}],"n":1,"op":"ins"}],"pristine":true},"view_id":"view-id-1"}}
"#;

// A saving that fails, and one of a view that is not there.
const NOT_SAVED: &str = r#"{"id":0,"method":"new_view","params":{"file_path":"a"}}
{"method":"edit","params":{"method":"insert","params":{"chars":"y"},"view_id":"view-id-1"}}
{"id":1,"method":"save","params":{"file_path":"a","view_id":"view-id-1"}}
{"id":2,"method":"save","params":{"file_path":"a","view_id":"view-id-2"}}
"#;

const NOT_SAVED_WRITES: &str = r#"{"id":0,"result":"view-id-1"}
{"method":"update","params":{"update":{"ops":[{"lines":[{"cursor":[0],"ln":1,"styles":[],"text":"x"}],"n":1,"op":"ins"}],"pristine":true},"view_id":"view-id-1"}}
{"method":"update","params":{"update":{"ops":[{"lines":[{"cursor":[1],"ln":1,"styles":[],"text":"yx"}],"n":1,"op":"ins"}],"pristine":false},"view_id":"view-id-1"}}
{"method":"scroll_to","params":{"col":1,"line":0,"view_id":"view-id-1"}}
{"error":{"code":1,"message":"shelf"},"id":1}
{"error":{"code":-32602,"message":"invalid params: view_id"},"id":2}
"#;

// Savings between two insertions and an undo: what is saved is pristine, and the last one tells nothing more.
const SAVED: &str = r#"{"id":0,"method":"new_view","params":{}}
{"method":"edit","params":{"method":"insert","params":{"chars":"a"},"view_id":"view-id-1"}}
{"id":1,"method":"save","params":{"file_path":"s","view_id":"view-id-1"}}
{"method":"edit","params":{"method":"insert","params":{"chars":"b"},"view_id":"view-id-1"}}
{"method":"edit","params":{"method":"undo","view_id":"view-id-1"}}
{"id":2,"method":"save","params":{"file_path":"s","view_id":"view-id-1"}}
{"id":3,"method":"save","params":{"file_path":"s","view_id":"view-id-1"}}
"#;

const SAVED_WRITES: &str = r#"{"id":0,"result":"view-id-1"}
{"method":"update","params":{"update":{"ops":[{"lines":[{"cursor":[0],"ln":1,"styles":[],"text":""}],"n":1,"op":"ins"}],"pristine":true},"view_id":"view-id-1"}}
{"method":"update","params":{"update":{"ops":[{"lines":[{"cursor":[1],"ln":1,"styles":[],"text":"a"}],"n":1,"op":"ins"}],"pristine":false},"view_id":"view-id-1"}}
{"method":"scroll_to","params":{"col":1,"line":0,"view_id":"view-id-1"}}
{"id":1,"result":null}
{"method":"update","params":{"update":{"ops":[{"lines":[{"cursor":[1],"ln":1,"styles":[],"text":"a"}],"n":1,"op":"ins"}],"pristine":true},"view_id":"view-id-1"}}
{"method":"update","params":{"update":{"ops":[{"lines":[{"cursor":[2],"ln":1,"styles":[],"text":"ab"}],"n":1,"op":"ins"}],"pristine":false},"view_id":"view-id-1"}}
{"method":"scroll_to","params":{"col":2,"line":0,"view_id":"view-id-1"}}
{"method":"update","params":{"update":{"ops":[{"lines":[{"cursor":[1],"ln":1,"styles":[],"text":"a"}],"n":1,"op":"ins"}],"pristine":false},"view_id":"view-id-1"}}
{"method":"scroll_to","params":{"col":1,"line":0,"view_id":"view-id-1"}}
{"id":2,"result":null}
{"method":"update","params":{"update":{"ops":[{"lines":[{"cursor":[1],"ln":1,"styles":[],"text":"a"}],"n":1,"op":"ins"}],"pristine":true},"view_id":"view-id-1"}}
{"id":3,"result":null}
"#;

// One file in two views, of which the first is saved and closed; another opening, and another width.
const TWO: &str = r#"{"id":0,"method":"new_view","params":{"file_path":"f"}}
{"id":1,"method":"new_view","params":{"file_path":"f"}}
{"method":"edit","params":{"method":"insert","params":{"chars":"1"},"view_id":"view-id-1"}}
{"method":"edit","params":{"method":"insert","params":{"chars":"2"},"view_id":"view-id-2"}}
{"id":2,"method":"save","params":{"file_path":"f","view_id":"view-id-1"}}
{"id":3,"method":"close_view","params":{"view_id":"view-id-1"}}
{"id":4,"method":"save","params":{"file_path":"f","view_id":"view-id-1"}}
{"id":5,"method":"new_view","params":{}}
{"id":6,"method":"modify_user_config","params":{"changes":{"wrap_width":2},"domain":"general"}}
"#;

const TWO_WRITES: &str = r#"{"id":0,"result":"view-id-1"}
{"method":"update","params":{"update":{"ops":[{"lines":[{"cursor":[0],"ln":1,"styles":[],"text":"abcd"}],"n":1,"op":"ins"}],"pristine":true},"view_id":"view-id-1"}}
{"id":1,"result":"view-id-2"}
{"method":"update","params":{"update":{"ops":[{"lines":[{"cursor":[0],"ln":1,"styles":[],"text":"abcd"}],"n":1,"op":"ins"}],"pristine":true},"view_id":"view-id-2"}}
{"method":"update","params":{"update":{"ops":[{"lines":[{"cursor":[1],"ln":1,"styles":[],"text":"1abcd"}],"n":1,"op":"ins"}],"pristine":false},"view_id":"view-id-1"}}
{"method":"scroll_to","params":{"col":1,"line":0,"view_id":"view-id-1"}}
{"method":"update","params":{"update":{"ops":[{"lines":[{"cursor":[1],"ln":1,"styles":[],"text":"2abcd"}],"n":1,"op":"ins"}],"pristine":false},"view_id":"view-id-2"}}
{"method":"scroll_to","params":{"col":1,"line":0,"view_id":"view-id-2"}}
{"id":2,"result":null}
{"method":"update","params":{"update":{"ops":[{"lines":[{"cursor":[1],"ln":1,"styles":[],"text":"1abcd"}],"n":1,"op":"ins"}],"pristine":true},"view_id":"view-id-1"}}
{"id":3,"result":null}
{"error":{"code":-32602,"message":"invalid params: view_id"},"id":4}
{"id":5,"result":"view-id-3"}
{"method":"update","params":{"update":{"ops":[{"lines":[{"cursor":[0],"ln":1,"styles":[],"text":""}],"n":1,"op":"ins"}],"pristine":true},"view_id":"view-id-3"}}
{"id":6,"result":null}
{"method":"update","params":{"update":{"ops":[{"lines":[{"cursor":[1],"ln":1,"styles":[],"text":"2a"},{"cursor":[],"styles":[],"text":"bc"},{"cursor":[],"styles":[],"text":"d"}],"n":3,"op":"ins"}],"pristine":false},"view_id":"view-id-2"}}
"#;

// The sink fails in the piece of a saving that was done.
const CUT: &str = r#"{"id":0,"method":"new_view","params":{}}
{"method":"edit","params":{"method":"insert","params":{"chars":"a"},"view_id":"view-id-1"}}
{"id":1,"method":"save","params":{"file_path":"s","view_id":"view-id-1"}}
{"method":"edit","params":{"method":"insert","params":{"chars":"b"},"view_id":"view-id-1"}}
"#;

const CUT_WRITES: &str = r#"{"id":0,"result":"view-id-1"}
{"method":"update","params":{"update":{"ops":[{"lines":[{"cursor":[0],"ln":1,"styles":[],"text":""}],"n":1,"op":"ins"}],"pristine":true},"view_id":"view-id-1"}}
{"method":"update","params":{"update":{"ops":[{"lines":[{"cursor":[1],"ln":1,"styles":[],"text":"a"}],"n":1,"op":"ins"}],"pristine":false},"view_id":"view-id-1"}}
{"method":"scroll_to","params":{"col":1,"line":0,"view_id":"view-id-1"}}
"#;

#[test]
fn files_are_opened_and_saved(rt: HostRuntime) {
    let alloc = rt.alloc();
    let wrapped: File = ("a", b"aa bb-cc ddddddd");
    assert!(rt;
        ends(
            alloc,
            calm(&[("a", b"aa bb-cc ddddddd")], WRAPPED),
            0,
            WRAPPED_WRITES,
            wrapped
        )
    );
    let saved: File = ("s", b"a");
    assert!(rt; ends(alloc, calm(&[], SAVED), 0, SAVED_WRITES, saved));
    let first: File = ("f", b"1abcd");
    assert!(rt; ends(alloc, calm(&[("f", b"abcd")], TWO), 0, TWO_WRITES, first));
    let notes: File = ("notes.txt", b"hello\nworld!\n");
    assert!(rt;
        ends(
            alloc,
            calm(&[("notes.txt", b"hello\nworld\n")], USUAL),
            0,
            USUAL_WRITES,
            notes
        )
    );
}

#[test]
fn a_file_that_is_no_text_is_told(rt: HostRuntime) {
    let alloc = rt.alloc();
    let play = calm(&[("ff", b"\xFF")], NO_TEXT);
    let strange: File = ("ff", b"\xFF");
    assert!(rt; ends(alloc, play, 0, NO_TEXT_WRITES, strange));
    assert!(rt;
        notes(
            alloc,
            play,
            &[Noted::Held(b"\xFF"), Noted::Absent, Noted::Nothing]
        )
    );
}

#[test]
fn an_opening_that_fails_is_told(rt: HostRuntime) {
    let alloc = rt.alloc();
    let refused = Play {
        files: &[("a", b"x")],
        refused: &[1],
        cut: &[],
        lines: REFUSED,
    };
    assert!(rt; ends(alloc, refused, 0, REFUSED_WRITES, ("a", b"x")));
    assert!(rt;
        notes(
            alloc,
            refused,
            &[Noted::Failed, Noted::Held(b"x"), Noted::Nothing]
        )
    );
}

#[test]
fn a_saving_that_fails_is_told(rt: HostRuntime) {
    let alloc = rt.alloc();
    let not_saved = Play {
        files: &[("a", b"x")],
        refused: &[2],
        cut: &[],
        lines: NOT_SAVED,
    };
    assert!(rt; ends(alloc, not_saved, 0, NOT_SAVED_WRITES, ("a", b"x")));
    assert!(rt;
        notes(
            alloc,
            not_saved,
            &[
                Noted::Held(b"x"),
                Noted::Nothing,
                Noted::Failed,
                Noted::Nothing,
                Noted::Nothing,
            ]
        )
    );
}

// Whether the third of the four entries of the run was not sent, and it alone.
fn has_third_unsent(alloc: Global, play: Play) -> bool {
    match played(alloc, play) {
        Ok(report) => is_third_unsent(&report.journal),
        Err(_) => false,
    }
}

fn is_third_unsent(journal: &[Entry]) -> bool {
    match journal {
        [first, second, third, last] => { first.sent && second.sent && !third.sent && last.sent }
        _ => false,
    }
}

// The file was written before the sink failed, and the entry was not sent.
#[test]
fn a_saving_stands_whose_piece_was_cut_off(rt: HostRuntime) {
    let alloc = rt.alloc();
    let cut = Play {
        files: &[],
        refused: &[],
        cut: &[3],
        lines: CUT,
    };
    assert!(rt; ends(alloc, cut, 5, CUT_WRITES, ("s", b"a")));
    assert!(rt; has_third_unsent(alloc, cut));
}
