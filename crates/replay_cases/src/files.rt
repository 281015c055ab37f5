//! Files of journals: each kind of command and note, and lines that are none.

use crate::changed::entry;
use crate::runs::alone;
use front_wire::command_of;
use journal_file::{BadJournal, Unwritten, read_journal, write_journal};
use journal_replay::Entry;
use plain_edits::{Delta, El, Style};
use plain_text::{Bytes, List, NoMemory, Text};
use same_command::is_same_entry;
use std::alloc::Global;
use std::test::Fail;
use xi_plain::{Act, Command, Id, ShelfNote, WireSpan};

// Lines of a front end, of each kind.
const LINES: [&str; 71] = [
    "",
    "0",
    r#"{"id":-9223372036854775808,"method":"client_started","params":{}}"#,
    r#"{"id":18446744073709551615,"method":"plugin"}"#,
    r#"{"id":"é\n","method":"new_view"}"#,
    r#"{"id":0,"method":"new_view","params":{"file_path":"a\"b"}}"#,
    r#"{"method":"close_view","params":{"view_id":"view-id-1"}}"#,
    r#"{"method":"save","params":{"view_id":"view-id-1","file_path":"x"}}"#,
    r#"{"method":"modify_user_config","params":{"domain":"general","changes":{"tab_size":8,"wrap_width":40,"translate_tabs_to_spaces":true}}}"#,
    r#"{"method":"modify_user_config","params":{"domain":"other","changes":{}}}"#,
    r#"{"id":1,"method":"fly"}"#,
    r#"{"id":1,"method":"insert"}"#,
    r#"{"id":1,"method":"edit","params":{"view_id":"view-id-1","method":"save"}}"#,
    r#"{"id":1,"method":"edit","params":{"view_id":"view-id-1","method":"fly"}}"#,
    r#"{"id":1,"method":"close_view"}"#,
    r#"{"id":1,"method":"save","params":{"view_id":"view-id-1"}}"#,
    r#"{"id":1,"method":"modify_user_config"}"#,
    r#"{"id":1,"method":"modify_user_config","params":{"domain":"general","changes":{"tab_size":0}}}"#,
    r#"{"id":1,"method":"edit","params":{"view_id":"view-id-1"}}"#,
    r#"{"id":1,"method":"edit","params":{"view_id":"view-id-1","method":"insert"}}"#,
    r#"{"id":1,"method":"edit","params":{"view_id":"view-id-1","method":"click"}}"#,
    r#"{"id":1,"method":"edit","params":{"view_id":"view-id-1","method":"click","params":[1]}}"#,
    r#"{"id":1,"method":"edit","params":{"view_id":"view-id-1","method":"drag","params":[1,2]}}"#,
    r#"{"id":1,"method":"edit","params":{"view_id":"view-id-1","method":"click","params":[1,2,3]}}"#,
    r#"{"id":1,"method":"edit","params":{"view_id":"view-id-1","method":"scroll","params":[2,1]}}"#,
    r#"{"id":1,"method":"edit","params":{"view_id":"view-id-1","method":"goto_line"}}"#,
    r#"{"id":1,"method":"edit","params":{"view_id":"view-id-1","method":"gesture","params":{"line":1}}}"#,
    r#"{"id":1,"method":"edit","params":{"view_id":"view-id-1","method":"gesture","params":{"line":1,"col":1}}}"#,
    r#"{"id":1,"method":"edit","params":{"view_id":"view-id-1","method":"find","params":{"chars":"a","case_sensitive":0}}}"#,
    r#"{"id":1,"method":"edit","params":{"view_id":"view-id-1","method":"find","params":{"chars":"a","regex":true}}}"#,
    r#"{"id":1,"method":"edit","params":{"view_id":"view-id-1","method":"find","params":{"chars":"a","whole_words":true}}}"#,
    r#"{"id":1,"method":"edit","params":{"view_id":"view-id-1","method":"find_next","params":{"wrap_around":0}}}"#,
    r#"{"id":1,"method":"edit","params":{"view_id":"view-id-1","method":"find_next","params":{"allow_same":0}}}"#,
    r#"{"method":"edit","params":{"view_id":"view-id-1","method":"insert","params":{"chars":"é\u0000\n"}}}"#,
    r#"{"method":"edit","params":{"view_id":"view-id-1","method":"paste","params":{"chars":""}}}"#,
    r#"{"method":"edit","params":{"view_id":"view-id-1","method":"insert_newline"}}"#,
    r#"{"method":"edit","params":{"view_id":"view-id-1","method":"insert_tab"}}"#,
    r#"{"method":"edit","params":{"view_id":"view-id-1","method":"delete_backward"}}"#,
    r#"{"method":"edit","params":{"view_id":"view-id-1","method":"delete_forward"}}"#,
    r#"{"method":"edit","params":{"view_id":"view-id-1","method":"delete_word_backward"}}"#,
    r#"{"method":"edit","params":{"view_id":"view-id-1","method":"delete_word_forward"}}"#,
    r#"{"method":"edit","params":{"view_id":"view-id-1","method":"cut"}}"#,
    r#"{"method":"edit","params":{"view_id":"view-id-1","method":"copy"}}"#,
    r#"{"method":"edit","params":{"view_id":"view-id-1","method":"undo"}}"#,
    r#"{"method":"edit","params":{"view_id":"view-id-1","method":"redo"}}"#,
    r#"{"method":"edit","params":{"view_id":"view-id-1","method":"select_all"}}"#,
    r#"{"method":"edit","params":{"view_id":"view-id-1","method":"collapse_selections"}}"#,
    r#"{"method":"edit","params":{"view_id":"view-id-1","method":"move_left"}}"#,
    r#"{"method":"edit","params":{"view_id":"view-id-1","method":"move_right"}}"#,
    r#"{"method":"edit","params":{"view_id":"view-id-1","method":"move_up"}}"#,
    r#"{"method":"edit","params":{"view_id":"view-id-1","method":"move_down"}}"#,
    r#"{"method":"edit","params":{"view_id":"view-id-1","method":"move_word_left"}}"#,
    r#"{"method":"edit","params":{"view_id":"view-id-1","method":"move_word_right_and_modify_selection"}}"#,
    r#"{"method":"edit","params":{"view_id":"view-id-1","method":"move_to_left_end_of_line"}}"#,
    r#"{"method":"edit","params":{"view_id":"view-id-1","method":"move_to_right_end_of_line_and_modify_selection"}}"#,
    r#"{"method":"edit","params":{"view_id":"view-id-1","method":"move_to_beginning_of_document"}}"#,
    r#"{"method":"edit","params":{"view_id":"view-id-1","method":"move_to_end_of_document_and_modify_selection"}}"#,
    r#"{"method":"edit","params":{"view_id":"view-id-1","method":"scroll","params":[1,20]}}"#,
    r#"{"method":"edit","params":{"view_id":"view-id-1","method":"request_lines","params":[0,0]}}"#,
    r#"{"method":"edit","params":{"view_id":"view-id-1","method":"click","params":[1,2,3,4]}}"#,
    r#"{"method":"edit","params":{"view_id":"view-id-1","method":"drag","params":[1,2,1099511627776]}}"#,
    r#"{"method":"edit","params":{"view_id":"view-id-1","method":"gesture","params":{"line":1,"col":2,"ty":"point_select"}}}"#,
    r#"{"method":"edit","params":{"view_id":"view-id-1","method":"gesture","params":{"line":1,"col":2,"ty":"toggle_sel"}}}"#,
    r#"{"method":"edit","params":{"view_id":"view-id-1","method":"gesture","params":{"line":1,"col":2,"ty":"range_select"}}}"#,
    r#"{"method":"edit","params":{"view_id":"view-id-1","method":"gesture","params":{"line":1,"col":2,"ty":"word_select"}}}"#,
    r#"{"method":"edit","params":{"view_id":"view-id-1","method":"gesture","params":{"line":1,"col":2,"ty":"line_select"}}}"#,
    r#"{"method":"edit","params":{"view_id":"view-id-1","method":"goto_line","params":{"line":7}}}"#,
    r#"{"method":"edit","params":{"view_id":"view-id-1","method":"find","params":{"chars":"a","case_sensitive":false,"regex":false}}}"#,
    r#"{"method":"edit","params":{"view_id":"view-id-1","method":"find_next","params":{"wrap_around":true}}}"#,
    r#"{"method":"edit","params":{"view_id":"view-id-1","method":"find_previous","params":{"allow_same":false}}}"#,
    r#"{"id":3,"method":"edit","params":{"view_id":"view-id-1","method":"debug_rewrap"}}"#,
];

// Whether the journal is read back as it was written.
fn reads_back(alloc: Global, journal: &[Entry]) -> Result<bool, NoMemory> {
    let text = match write_journal(alloc, journal) {
        Ok(text) => text,
        Err(_) => return Ok(false),
    };
    match read_journal(alloc, text.as_str().as_bytes()) {
        Err(_) => Ok(false),
        Ok(read) => Ok(
            read.len() == journal.len()
                && read
                    .iter()
                    .zip(journal)
                    .all(|(one, other)| is_same_entry(one, other)),
        ),
    }
}

// Whether an entry is.
fn is_kept(alloc: Global, entry: Entry) -> Result<bool, NoMemory> {
    let mut journal = Vec::new(alloc);
    journal.push(entry)?;
    reads_back(alloc, &journal)
}

#[test]
fn lines_of_a_front_end_are_kept(rt: HostRuntime) -> Result<(), Fail> {
    let alloc = rt.alloc();
    for line in LINES {
        let command = command_of(alloc, line.as_bytes())?;
        let kept = is_kept(
            alloc,
            Entry {
                caller: 0,
                command,
                shelf: ShelfNote::NoCall,
                sent: line.len() > 60,
            },
        )?;
        assert!(rt; kept, "{line}");
    }
    assert!(rt;
        is_kept(alloc, entry(0, Id::NoId, Act::Closing))?,
        "the closing"
    );
    assert!(rt; reads_back(alloc, &[])?, "no entry");
    Ok(())
}

fn a_view(alloc: Global) -> Result<Text, NoMemory> {
    Text::from_str(alloc, "view-id-1")
}

fn acknowledgement(alloc: Global, rev: u64) -> Result<Entry, NoMemory> {
    let view = a_view(alloc)?;
    Ok(entry(1, Id::NoId, Act::Ack { view, rev }))
}

// What plugins ask that has no list in it.
fn plain_asks(alloc: Global) -> Result<Vec<Entry>, NoMemory> {
    let mut journal = Vec::new(alloc);
    let msg = Text::from_str(alloc, "a\nb")?;
    journal.push(entry(64, Id::NoId, Act::Alert { msg }))?;
    let view = a_view(alloc)?;
    journal.push(entry(2, Id::Num(0), Act::LineCount { view }))?;
    let data = Act::GetData {
        view: a_view(alloc)?,
        rev: 1,
        start: 2,
        max: 3,
    };
    journal.push(entry(1, Id::Word(a_view(alloc)?), data))?;
    journal.push(acknowledgement(alloc, 9)?)?;
    journal.push(entry(1, Id::NoId, Act::Ended))?;
    Ok(journal)
}

fn styling(alloc: Global) -> Result<Entry, NoMemory> {
    let style = Style {
        fg_color: Some(1),
        bg_color: None,
        weight: Some(700),
        italic: Some(false),
        underline: None,
    };
    let mut spans = Vec::new(alloc);
    spans.push(WireSpan {
        start: 0,
        end: 2,
        style,
    })?;
    let act = Act::UpdateSpans {
        view: a_view(alloc)?,
        rev: 1,
        start: 0,
        len: 2,
        spans: List::from_vec(spans),
    };
    Ok(entry(1, Id::NoId, act))
}

// A plugin's edit, which may name a group.
fn plugin_edit(alloc: Global, named: Option<u64>) -> Result<Entry, NoMemory> {
    let mut els = Vec::new(alloc);
    els.push(El::Copy { a: 0, b: 4 })?;
    let text = Text::from_str(alloc, "é")?;
    els.push(El::Insert { text })?;
    let act = Act::PluginEdit {
        view: a_view(alloc)?,
        rev: 1,
        delta: Delta {
            els: List::from_vec(els),
            base_len: 4,
        },
        priority: 7,
        after_cursor: true,
        author: Text::from_str(alloc, "p")?,
        named,
    };
    Ok(entry(1, Id::Num(4), act))
}

#[test]
fn acts_of_a_plugin_are_kept(rt: HostRuntime) -> Result<(), Fail> {
    let alloc = rt.alloc();
    assert!(rt;
        reads_back(alloc, &plain_asks(alloc)?)?,
        "alert, line_count, get_data, ack, the end"
    );
    assert!(rt; is_kept(alloc, styling(alloc)?)?, "update_spans");
    for named in [None, Some(3)] {
        assert!(rt; is_kept(alloc, plugin_edit(alloc, named)?)?, "edit");
    }
    Ok(())
}

#[test]
fn what_no_line_says_has_no_file(rt: HostRuntime) -> Result<(), Fail> {
    let alloc = rt.alloc();
    let mut journal = Vec::new(alloc);
    journal.push(entry(1, Id::NoId, Act::Ended))?;
    journal.push(acknowledgement(alloc, 1 << 63)?)?;
    assert!(rt;
        write_journal(alloc, &journal) == Err(Unwritten::Entry(1)),
        "a number that no line has"
    );
    Ok(())
}

#[test]
fn notes_are_kept(rt: HostRuntime) -> Result<(), Fail> {
    let alloc = rt.alloc();
    let held = |bytes: &[u8]| -> Result<ShelfNote, NoMemory> {
        Ok(ShelfNote::Held(Bytes::from_vec(Vec::from_slice(alloc, bytes)?)))
    };
    for (what, note) in [
        ("none", ShelfNote::NoCall),
        ("absent", ShelfNote::Absent),
        ("failed", ShelfNote::Failed),
        ("done", ShelfNote::Done),
        ("an empty file", held(&[])?),
        ("a text", held("é\n\"".as_bytes())?),
        ("no text", held(&[0, 255, 16])?),
    ] {
        let made = Entry {
            caller: 0,
            command: Command {
                id: Id::NoId,
                act: Act::Nothing,
            },
            shelf: note,
            sent: false,
        };
        assert!(rt; is_kept(alloc, made)?, "{what}");
    }
    Ok(())
}

const GOOD: &str = r#"{"caller":0,"command":null,"note":null,"sent":true}"#;

#[test]
fn the_first_bad_line_is_named(rt: HostRuntime) -> Result<(), Fail> {
    let alloc = rt.alloc();
    for bad in [
        "",
        "0",
        r#"{"caller":0,"command":null,"note":null,"sent":tru"#,
        r#"{"caller":4294967296,"command":null,"note":null,"sent":true}"#,
        r#"{"caller":-1,"command":null,"note":null,"sent":true}"#,
        r#"{"caller":0,"command":0,"note":null,"sent":true}"#,
        r#"{"caller":0,"note":null,"sent":true}"#,
        r#"{"caller":0,"command":null,"sent":true}"#,
        r#"{"caller":0,"command":null,"note":"gone","sent":true}"#,
        r#"{"caller":0,"command":null,"note":{"base16":"0"},"sent":true}"#,
        r#"{"caller":0,"command":null,"note":{},"sent":true}"#,
        r#"{"caller":0,"command":null,"note":null,"sent":1}"#,
    ] {
        let mut text = Text::new(alloc);
        for part in [GOOD, "\n", bad, "\n", GOOD] {
            text.push_str(part)?;
        }
        let read = read_journal(alloc, text.as_str().as_bytes());
        assert!(rt; matches!(read, Err(BadJournal::Line(1))), "{bad}");
    }
    let read = read_journal(alloc, &[123, 255, 125]);
    assert!(rt; matches!(read, Err(BadJournal::Line(0))), "no text");
    Ok(())
}

#[test]
fn the_journal_of_a_run_is_kept(rt: HostRuntime) -> Result<(), Fail> {
    let alloc = rt.alloc();
    let lines =
        "{\"id\":0,\"method\":\"new_view\",\"params\":{\"file_path\":\"ff\"}}\nx\n{\"method\":\"client_started\"}\n";
    match alone(alloc, lines, &[("ff", &[255])], &[])? {
        None => assert!(rt; false, "the run ends well"),
        Some(ran) => assert!(rt; reads_back(alloc, &ran.journal)?, "its journal"),
    }
    Ok(())
}
