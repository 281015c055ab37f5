//! Lines of plugins: what they ask, why they are refused, and what plugins are told.

use crate::made::are_same;
use json_rpc::message_of;
use plain_text::{List, NoMemory, Text};
use plugin_wire::{ask_of, buffer_line, close_line, notice_line, start_line, stop_line};
use std::alloc::Global;
use xi_plain::{Act, Command, Delta, El, Fault, Id, Notice, Style, WireSpan};

// Each method with every member.
const EDIT: &str =
    r#"{"id":1,"method":"edit","params":{"after_cursor":true,"author":"a","delta":{"base_len":9,"els":[{"insert":"\"\u0001"},{"copy":[3,3]},{"insert":""},{"copy":[3,9]},{"insert":"aé\u2028😀"}]},"priority":4294967295,"rev":5,"undo_group":4,"view_id":"v"}}"#;

const GET_DATA: &str =
    r#"{"id":"b","method":"get_data","params":{"max_size":0,"rev":9223372036854775807,"start":3,"view_id":"v"}}"#;

const UPDATE_SPANS: &str =
    r#"{"method":"update_spans","params":{"len":5,"rev":2,"spans":[{"end":5,"start":5,"style":{"bg_color":4294967295,"fg_color":0,"italic":true,"underline":false,"weight":1000}},{"end":4,"start":1,"style":{"bg_color":null,"italic":null}}],"start":7,"view_id":"v"}}"#;

const LINE_COUNT: &str = r#"{"method":"line_count","params":{"view_id":"v"}}"#;

const ALERT: &str = r#"{"method":"alert","params":{"msg":"m"}}"#;

const ACK: &str = r#"{"method":"ack","params":{"rev":1,"view_id":"v"}}"#;

// Nothing in each list, and each number the least or the greatest.
const EMPTY_EDIT: &str =
    r#"{"id":-9223372036854775808,"method":"edit","params":{"after_cursor":false,"author":"","delta":{"base_len":0,"els":[]},"priority":0,"rev":0,"undo_group":0,"view_id":""}}"#;

const NO_SPANS: &str =
    r#"{"id":18446744073709551615,"method":"update_spans","params":{"len":0,"rev":0,"spans":[],"start":0,"view_id":"v"}}"#;

fn text(alloc: Global, characters: &str) -> Result<Text, NoMemory> {
    Text::from_str(alloc, characters)
}

fn push_insert(alloc: Global, els: &mut List<El>, characters: &str) -> Result<(), NoMemory> {
    let text = text(alloc, characters)?;
    els.push(El::Insert { text })
}

/// The delta of [`EDIT`], with these texts before, between and after its copies.
fn delta(alloc: Global, texts: [&str; 3]) -> Result<Delta, NoMemory> {
    let [first, second, third] = texts;
    let mut els = List::new(alloc);
    push_insert(alloc, &mut els, first)?;
    els.push(El::Copy { a: 3, b: 3 })?;
    push_insert(alloc, &mut els, second)?;
    els.push(El::Copy { a: 3, b: 9 })?;
    push_insert(alloc, &mut els, third)?;
    Ok(Delta { els, base_len: 9 })
}

fn edit(alloc: Global, named: Option<u64>) -> Result<Act, NoMemory> {
    let view = text(alloc, "v")?;
    let author = text(alloc, "a")?;
    let delta = delta(alloc, ["\"\u{1}", "", "a\u{e9}\u{2028}\u{1f600}"])?;
    Ok(Act::PluginEdit {
        view,
        rev: 5,
        delta,
        priority: 4294967295,
        after_cursor: true,
        author,
        named,
    })
}

const NARROW: WireSpan = WireSpan {
    start: 5,
    end: 5,
    style: Style {
        fg_color: Some(0),
        bg_color: Some(4294967295),
        weight: Some(1000),
        italic: Some(true),
        underline: Some(false),
    },
};

const PLAIN: WireSpan = WireSpan {
    start: 1,
    end: 4,
    style: Style {
        fg_color: None,
        bg_color: None,
        weight: None,
        italic: None,
        underline: None,
    },
};

fn update_spans(alloc: Global) -> Result<Act, NoMemory> {
    let view = text(alloc, "v")?;
    let mut spans = List::new(alloc);
    spans.push(NARROW)?;
    spans.push(PLAIN)?;
    Ok(Act::UpdateSpans {
        view,
        rev: 2,
        start: 7,
        len: 5,
        spans,
    })
}

fn get_data(alloc: Global) -> Result<Act, NoMemory> {
    let view = text(alloc, "v")?;
    Ok(Act::GetData {
        view,
        rev: 9223372036854775807,
        start: 3,
        max: 0,
    })
}

fn line_count(alloc: Global) -> Result<Act, NoMemory> {
    let view = text(alloc, "v")?;
    Ok(Act::LineCount { view })
}

fn alert(alloc: Global) -> Result<Act, NoMemory> {
    let msg = text(alloc, "m")?;
    Ok(Act::Alert { msg })
}

fn ack(alloc: Global) -> Result<Act, NoMemory> {
    let view = text(alloc, "v")?;
    Ok(Act::Ack { view, rev: 1 })
}

/// The line with a part of it changed.
fn changed(alloc: Global, line: &str, part: &str, new: &str) -> Result<String, NoMemory> {
    let (before, after) = line.split_once(part).unwrap_or((line, part));
    Ok(format!(in alloc; "{before}{new}{after}")?)
}

fn command(id: Id, act: Result<Act, NoMemory>) -> Result<Command, NoMemory> {
    Ok(Command { id, act: act? })
}

/// Whether the line asks this.
fn asks(alloc: Global, line: &str, id: Id, act: Result<Act, NoMemory>) -> bool {
    are_same(ask_of(alloc, line.as_bytes()), command(id, act))
}

/// Whether the line asks this, and its id is a word.
fn asks_by_word(alloc: Global, line: &str, word: &str, act: Result<Act, NoMemory>) -> bool {
    match text(alloc, word) {
        Ok(word) => asks(alloc, line, Id::Word(word), act),
        Err(_) => false,
    }
}

/// Whether [`EDIT`] with a part of it changed asks an edit that names this group.
fn asks_edit(alloc: Global, part: &str, new: &str, named: Option<u64>) -> bool {
    match changed(alloc, EDIT, part, new) {
        Ok(line) => asks(alloc, line.as_str(), Id::Num(1), edit(alloc, named)),
        Err(_) => false,
    }
}

#[test]
fn lines_of_plugins_ask(rt: HostRuntime) {
    let alloc = rt.alloc();
    assert!(rt; asks(alloc, EDIT, Id::Num(1), edit(alloc, Some(4))));
    assert!(rt; asks_by_word(alloc, GET_DATA, "b", get_data(alloc)));
    assert!(rt; asks(alloc, UPDATE_SPANS, Id::NoId, update_spans(alloc)));
    assert!(rt; asks(alloc, LINE_COUNT, Id::NoId, line_count(alloc)));
    assert!(rt; asks(alloc, ALERT, Id::NoId, alert(alloc)));
    assert!(rt; asks(alloc, ACK, Id::NoId, ack(alloc)));
}

#[test]
fn what_may_be_left_out_is(rt: HostRuntime) {
    let alloc = rt.alloc();
    assert!(rt; asks_edit(alloc, "\"undo_group\":4,", "", None));
    assert!(rt; asks_edit(alloc, "\"undo_group\":4", "\"undo_group\":null", None));
    assert!(rt; asks_edit(alloc, "[3,3]", "[3,3],\"to\":null", Some(4)));
}

/// An edit of nothing, by no name.
fn empty_edit(alloc: Global) -> Act {
    Act::PluginEdit {
        view: Text::new(alloc),
        rev: 0,
        delta: Delta {
            els: List::new(alloc),
            base_len: 0,
        },
        priority: 0,
        after_cursor: false,
        author: Text::new(alloc),
        named: Some(0),
    }
}

fn no_spans(alloc: Global) -> Result<Act, NoMemory> {
    let view = text(alloc, "v")?;
    Ok(Act::UpdateSpans {
        view,
        rev: 0,
        start: 0,
        len: 0,
        spans: List::new(alloc),
    })
}

#[test]
fn what_is_empty_is_asked(rt: HostRuntime) {
    let alloc = rt.alloc();
    assert!(rt;
        asks(
            alloc,
            EMPTY_EDIT,
            Id::Num(-9223372036854775808),
            Ok(empty_edit(alloc))
        )
    );
    assert!(rt;
        asks(
            alloc,
            NO_SPANS,
            Id::Num(18446744073709551615),
            no_spans(alloc)
        )
    );
}

/// Why a line is refused; nothing where it is not.
fn refusal(alloc: Global, line: &str) -> Result<Text, NoMemory> {
    let Command { id: _, act } = ask_of(alloc, line.as_bytes())?;
    match act {
        Act::Bad(fault) => message_of(alloc, &fault),
        _ => Ok(Text::new(alloc)),
    }
}

/// Why a line is refused whose member is wrong.
fn bad_params(alloc: Global, member: &str) -> Result<Text, NoMemory> {
    let fault = Fault::BadParams(text(alloc, member)?);
    message_of(alloc, &fault)
}

/// Whether the line with a part of it changed is refused by this member.
fn names(alloc: Global, line: &str, part: &str, new: &str, member: &str) -> bool {
    match changed(alloc, line, part, new) {
        Ok(line) => are_same(refusal(alloc, line.as_str()), bad_params(alloc, member)),
        Err(_) => false,
    }
}

#[test]
fn the_view_or_the_revision_of_an_edit_is_named(rt: HostRuntime) {
    let alloc = rt.alloc();
    assert!(rt; names(alloc, EDIT, "\"v\"", "7", "view_id"));
    assert!(rt;
        names(
            alloc,
            EDIT,
            "\"rev\":5",
            "\"rev\":9223372036854775808",
            "rev"
        )
    );
}

#[test]
fn the_delta_of_an_edit_is_named(rt: HostRuntime) {
    let alloc = rt.alloc();
    assert!(rt; names(alloc, EDIT, "base_len\":9", "base_len\":-9", "delta"));
    assert!(rt; names(alloc, EDIT, "\"els\":[", "\"els\":null,\"e\":[", "delta"));
    assert!(rt; names(alloc, EDIT, "[3,3]", "[3,3,3]", "delta"));
    assert!(rt; names(alloc, EDIT, "[3,3]", "[3,3],\"insert\":null", "delta"));
    assert!(rt; names(alloc, EDIT, "{\"copy\":[3,3]}", "{}", "delta"));
}

#[test]
fn the_first_wrong_member_of_an_edit_is_named(rt: HostRuntime) {
    let alloc = rt.alloc();
    assert!(rt; names(alloc, EDIT, "4294967295", "4294967296", "priority"));
    assert!(rt; names(alloc, EDIT, "true", "null", "after_cursor"));
    assert!(rt; names(alloc, EDIT, "author", "by", "author"));
    assert!(rt;
        names(
            alloc,
            EDIT,
            "\"undo_group\":4",
            "\"undo_group\":-4",
            "undo_group"
        )
    );
    assert!(rt; names(alloc, EDIT, "4294967295,\"rev\":5", "-1,\"rev\":-1", "rev"));
}

#[test]
fn the_first_wrong_member_of_get_data_is_named(rt: HostRuntime) {
    let alloc = rt.alloc();
    assert!(rt; names(alloc, GET_DATA, "5807", "5808", "rev"));
    assert!(rt;
        names(
            alloc,
            GET_DATA,
            "\"max_size\":0",
            "\"max_size\":0e0",
            "max_size"
        )
    );
    assert!(rt; names(alloc, GET_DATA, "\"start\":3", "\"max_size\":-1", "start"));
}

#[test]
fn the_range_of_spans_is_named(rt: HostRuntime) {
    let alloc = rt.alloc();
    assert!(rt; names(alloc, UPDATE_SPANS, "\"start\":7", "\"start\":7.0", "start"));
    assert!(rt; names(alloc, UPDATE_SPANS, "\"len\":5", "\"len\":\"5\"", "len"));
    assert!(rt; names(alloc, UPDATE_SPANS, "\"len\":5", "\"len\":4", "spans"));
}

#[test]
fn a_wrong_span_is_named(rt: HostRuntime) {
    let alloc = rt.alloc();
    assert!(rt;
        names(
            alloc,
            UPDATE_SPANS,
            "4,\"start\":1",
            "1,\"start\":4",
            "spans"
        )
    );
    assert!(rt; names(alloc, UPDATE_SPANS, "1000", "1001", "spans"));
    assert!(rt; names(alloc, UPDATE_SPANS, "4294967295", "4294967296", "spans"));
    assert!(rt; names(alloc, UPDATE_SPANS, "false", "0", "spans"));
}

#[test]
fn the_first_wrong_member_of_another_line_is_named(rt: HostRuntime) {
    let alloc = rt.alloc();
    assert!(rt;
        names(
            alloc,
            LINE_COUNT,
            "{\"view_id\":\"v\"}",
            "[\"v\"]",
            "view_id"
        )
    );
    assert!(rt; names(alloc, ALERT, ",\"params\":{\"msg\":\"m\"}", "", "msg"));
    assert!(rt; names(alloc, ACK, "\"rev\":1", "\"rev\":-0", "rev"));
}

/// Whether the line is refused with this message.
fn is_refused(alloc: Global, line: &str, message: &str) -> bool {
    is(refusal(alloc, line), message)
}

#[test]
fn other_lines_of_plugins_are_refused(rt: HostRuntime) {
    let alloc = rt.alloc();
    assert!(rt; is_refused(alloc, "{nope", "parse error"));
    assert!(rt; is_refused(alloc, "[]", "invalid request"));
    assert!(rt;
        is_refused(
            alloc,
            r#"{"method":"new_view"}"#,
            "method not found: new_view"
        )
    );
    assert!(rt; is_refused(alloc, r#"{"method":"edi"}"#, "method not found: edi"));
    assert!(rt;
        is_refused(
            alloc,
            r#"{"method":"edit","params":{}}"#,
            "invalid params: view_id"
        )
    );
}

/// The line that tells of a revision with these texts before, between and after its copies.
fn told(alloc: Global, texts: [&str; 3]) -> Result<Text, NoMemory> {
    let view = text(alloc, "v")?;
    let delta = delta(alloc, texts)?;
    let notice = Notice {
        view,
        author: 4294967295,
        rev: 18446744073709551615,
        new_len: 7,
        delta,
    };
    notice_line(alloc, &notice)
}

/// Whether the text was made, and is this.
fn is(made: Result<Text, NoMemory>, expected: &str) -> bool {
    match made {
        Ok(text) => text.as_str() == expected,
        Err(_) => false,
    }
}

const STARTED: &str = "{\"method\":\"initialize\",\"params\":{\"plugin_id\":1}}\n";

const OPENED: &str =
    "{\"method\":\"new_buffer\",\"params\":{\"len\":0,\"rev\":0,\"view_id\":\"view-id-1\"}}\n";

const CLOSED: &str = "{\"method\":\"did_close\",\"params\":{\"view_id\":\"view-id-1\"}}\n";

const STOPPED: &str = "{\"method\":\"shutdown\",\"params\":{}}\n";

const TOLD: &str =
    "{\"method\":\"update\",\"params\":{\"author\":4294967295,\"delta\":{\"base_len\":9,\"els\":[{\"insert\":\"\\\"\\n\"},{\"copy\":[3,3]},{\"insert\":\"\u{e9}\u{2028}\"},{\"copy\":[3,9]},{\"insert\":\"\u{1f600}\"}]},\"new_len\":7,\"rev\":18446744073709551615,\"view_id\":\"v\"}}\n";

fn opened(alloc: Global) -> Result<Text, NoMemory> {
    let view = text(alloc, "view-id-1")?;
    buffer_line(alloc, &view, 0)
}

fn closed(alloc: Global) -> Result<Text, NoMemory> {
    let view = text(alloc, "view-id-1")?;
    close_line(alloc, &view)
}

#[test]
fn plugins_are_told_in_exact_bytes(rt: HostRuntime) {
    let alloc = rt.alloc();
    assert!(rt; is(start_line(alloc, 1), STARTED));
    assert!(rt; is(opened(alloc), OPENED));
    assert!(rt; is(closed(alloc), CLOSED));
    assert!(rt; is(stop_line(alloc), STOPPED));
    assert!(rt; is(told(alloc, ["\"\n", "\u{e9}\u{2028}", "\u{1f600}"]), TOLD));
}

/// The delta that a notice tells, asked for in the place of that of [`EDIT`].
fn echoed(alloc: Global, notice: &str) -> Result<String, NoMemory> {
    let (_, later) = notice.split_once("\"delta\":").unwrap_or(("", ""));
    let (delta, _) = later.split_once(",\"new_len\"").unwrap_or(("", ""));
    let (before, rest) = EDIT.split_once("{\"base_len\":9").unwrap_or(("", ""));
    let (_, after) = rest.split_once(",\"priority\"").unwrap_or(("", ""));
    Ok(format!(in alloc; "{before}{delta},\"priority\"{after}")?)
}

/// Whether what was told of a delta asks for it.
fn echo_asks(alloc: Global, notice: &str) -> bool {
    match echoed(alloc, notice) {
        Ok(line) => asks(alloc, line.as_str(), Id::Num(1), edit(alloc, Some(4))),
        Err(_) => false,
    }
}

fn told_is_asked(alloc: Global) -> bool {
    match told(alloc, ["\"\u{1}", "", "a\u{e9}\u{2028}\u{1f600}"]) {
        Ok(notice) => echo_asks(alloc, notice.as_str()),
        Err(_) => false,
    }
}

#[test]
fn a_delta_that_is_told_is_asked_as_the_same(rt: HostRuntime) {
    assert!(rt; told_is_asked(rt.alloc()));
}
