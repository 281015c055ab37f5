//! What lines of the front end ask.

use crate::made::are_same;
use front_wire::command_of;
use plain_text::{NoMemory, Text};
use std::alloc::{AllocError, Global};
use xi_plain::{Act, Command, EditAct, Fault, Id, Motion, Touch};

// An insertion of é.
const INSERTION: &[u8] =
    br#"{"id":1,"method":"edit","params":{"method":"insert","params":{"chars":"\u00e9"},"view_id":"v"}}"#;

// New lines: the parameters may be anything.
const NEW_LINE: &str = r#"{"method":"edit","params":{"method":"insert_newline","view_id":"v"}}"#;

const NEW_LINE_OF_LIST: &str =
    r#"{"method":"edit","params":{"method":"insert_newline","params":[],"view_id":"v"}}"#;

const NEW_LINE_OF_CHARS: &str =
    r#"{"method":"edit","params":{"method":"insert_newline","params":{"chars":7},"view_id":"v"}}"#;

const OPENING: &str = "{\"method\":\"new_view\"}";

// A new view whose path is null, and a member that nothing reads.
const NULL_PATH: &str = "{\"method\":\"new_view\",\"params\":{\"file_path\":null,\"more\":1}}";

fn command(id: Id, act: Result<Act, NoMemory>) -> Result<Command, NoMemory> {
    Ok(Command { id, act: act? })
}

/// Whether the line asks this, and has this id.
fn asks_under(alloc: Global, line: &[u8], id: Id, act: Result<Act, NoMemory>) -> bool {
    are_same(command_of(alloc, line), command(id, act))
}

/// Whether the line asks this and has no id.
fn asks(alloc: Global, line: &str, act: Result<Act, NoMemory>) -> bool {
    asks_under(alloc, line.as_bytes(), Id::NoId, act)
}

/// The act of the view `v`.
fn in_view(alloc: Global, act: EditAct) -> Result<Act, NoMemory> {
    let view = Text::from_str(alloc, "v")?;
    Ok(Act::Edit { view, act })
}

fn inserted(alloc: Global) -> Result<Act, NoMemory> {
    let chars = Text::from_str(alloc, "é")?;
    in_view(alloc, EditAct::Insert { chars })
}

fn no_method(alloc: Global, name: &str) -> Result<Act, NoMemory> {
    let name = Text::from_str(alloc, name)?;
    Ok(Act::Bad(Fault::NoMethod(name)))
}

#[test]
fn lines_ask(rt: HostRuntime) {
    let alloc = rt.alloc();
    assert!(rt; asks_under(alloc, INSERTION, Id::Num(1), inserted(alloc)));
    assert!(rt; asks(alloc, OPENING, Ok(Act::NewView { path: None })));
    assert!(rt; asks(alloc, NULL_PATH, Ok(Act::NewView { path: None })));
    assert!(rt; asks(alloc, "{\"method\":\"undo\"}", no_method(alloc, "undo")));
}

#[test]
fn lines_that_ask_nothing(rt: HostRuntime) {
    let alloc = rt.alloc();
    assert!(rt; asks(alloc, "{\"method\":\"debug_\"}", Ok(Act::Nothing)));
    assert!(rt; asks(alloc, "{nope\n", Ok(Act::Bad(Fault::Parse))));
    assert!(rt; asks(alloc, "[]\n", Ok(Act::Bad(Fault::Invalid))));
}

/// Whether the line asks this of the view `v`, and has no id.
fn asks_view(alloc: Global, line: &str, act: EditAct) -> bool {
    asks(alloc, line, in_view(alloc, act))
}

#[test]
fn a_new_line_takes_any_parameters(rt: HostRuntime) {
    let alloc = rt.alloc();
    assert!(rt; asks_view(alloc, NEW_LINE, EditAct::InsertNewline));
    assert!(rt; asks_view(alloc, NEW_LINE_OF_LIST, EditAct::InsertNewline));
    assert!(rt; asks_view(alloc, NEW_LINE_OF_CHARS, EditAct::InsertNewline));
}

/// The line of an edit of the view `v` by this method with these parameters.
fn line_of(alloc: Global, method: &str, params: &str) -> Result<String, AllocError> {
    format!(in alloc;
        "{{\"method\":\"edit\",\"params\":{{\"method\":\"{method}\",\"params\":{params},\"view_id\":\"v\"}}}}"
    )
}

/// Whether the edit is this.
fn edits(alloc: Global, method: &str, params: &str, act: EditAct) -> bool {
    match line_of(alloc, method, params) {
        Ok(line) => asks_view(alloc, line.as_str(), act),
        Err(_) => false,
    }
}

const CLICK: EditAct = EditAct::Click {
    line: 1,
    col: 0,
    modifiers: 3,
    count: 1099511627776,
};

const GESTURE: EditAct = EditAct::Gesture {
    line: 1,
    col: 2,
    ty: Touch::Toggle,
};

const FIND: EditAct = EditAct::FindPrevious {
    wrap_around: None,
    allow_same: Some(false),
};

const END: EditAct = EditAct::Move {
    motion: Motion::TextEnd,
    extend: true,
};

const SCROLL: EditAct = EditAct::Scroll { first: 0, last: 0 };

#[test]
fn edits_are_read_by_the_table(rt: HostRuntime) {
    let alloc = rt.alloc();
    assert!(rt; edits(alloc, "click", "[1,-2,3,1099511627776]", CLICK));
    assert!(rt;
        edits(
            alloc,
            "gesture",
            "{\"col\":2,\"line\":1,\"ty\":\"toggle_sel\"}",
            GESTURE
        )
    );
    assert!(rt;
        edits(
            alloc,
            "find_previous",
            "{\"allow_same\":false,\"wrap_around\":null}",
            FIND
        )
    );
}

#[test]
fn other_edits_are_read_by_the_table(rt: HostRuntime) {
    let alloc = rt.alloc();
    assert!(rt;
        edits(
            alloc,
            "move_to_end_of_document_and_modify_selection",
            "7",
            END
        )
    );
    assert!(rt; edits(alloc, "scroll", "[-5,-7]", SCROLL));
    assert!(rt; edits(alloc, "debug_x", "null", EditAct::Nothing));
}

fn bad_params(alloc: Global, member: &str) -> Result<Act, NoMemory> {
    let member = Text::from_str(alloc, member)?;
    Ok(Act::Bad(Fault::BadParams(member)))
}

/// Whether the edit is refused by this member.
fn names(alloc: Global, method: &str, params: &str, member: &str) -> bool {
    match line_of(alloc, method, params) {
        Ok(line) => asks(alloc, line.as_str(), bad_params(alloc, member)),
        Err(_) => false,
    }
}

#[test]
fn first_bad_member_is_named(rt: HostRuntime) {
    let alloc = rt.alloc();
    assert!(rt; names(alloc, "click", "[0,0.5,0,1]", "1"));
    assert!(rt; names(alloc, "scroll", "[5,2]", "1"));
    assert!(rt; names(alloc, "scroll", "{\"0\":1,\"1\":2}", "0"));
    assert!(rt; names(alloc, "drag", "[0,1099511627777,null]", "1"));
}

#[test]
fn first_bad_named_member_is_named(rt: HostRuntime) {
    let alloc = rt.alloc();
    assert!(rt;
        names(
            alloc,
            "find",
            "{\"chars\":\"a\",\"regex\":true,\"whole_words\":7}",
            "regex"
        )
    );
    assert!(rt;
        names(
            alloc,
            "gesture",
            "{\"col\":0,\"line\":0,\"ty\":\"point\"}",
            "ty"
        )
    );
    assert!(rt; names(alloc, "insert", "{\"chars\":null}", "chars"));
}
