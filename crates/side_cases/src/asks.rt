//! Lines of plugins: what is written, and that the core reads it as the same.

ghost use Rattle.plugin_side.specs.Asking.{IsAsk};

use plain_text::{List, NoMemory, Text};
use plugin_side::{ask_line, is_line};
use plugin_wire::ask_of;
use std::alloc::Global;
use xi_plain::{Act, Command, Delta, El, Fault, Id, Style, WireSpan, WireSpans};

// Each method with every member.
const EDIT: &str =
    "{\"id\":1,\"method\":\"edit\",\"params\":{\"after_cursor\":true,\"author\":\"a\",\"delta\":{\"base_len\":9,\"els\":[{\"insert\":\"\\\"\\u0001\"},{\"copy\":[3,3]},{\"insert\":\"\"},{\"copy\":[3,9]},{\"insert\":\"aé\u{2028}😀\"}]},\"priority\":4294967295,\"rev\":5,\"undo_group\":4,\"view_id\":\"v\"}}\n";

const UPDATE_SPANS: &str =
    "{\"id\":\"\",\"method\":\"update_spans\",\"params\":{\"len\":5,\"rev\":2,\"spans\":[{\"end\":5,\"start\":5,\"style\":{\"bg_color\":4294967295,\"fg_color\":0,\"italic\":true,\"underline\":false,\"weight\":1000}},{\"end\":4,\"start\":1,\"style\":{}}],\"start\":7,\"view_id\":\"v\"}}\n";

const GET_DATA: &str =
    "{\"id\":5,\"method\":\"get_data\",\"params\":{\"max_size\":8,\"rev\":0,\"start\":3,\"view_id\":\"view-id-1\"}}\n";

const LINE_COUNT: &str =
    "{\"id\":-9223372036854775808,\"method\":\"line_count\",\"params\":{\"view_id\":\"v\"}}\n";

const ALERT: &str =
    "{\"id\":18446744073709551615,\"method\":\"alert\",\"params\":{\"msg\":\"m\"}}\n";

const ACK: &str = "{\"method\":\"ack\",\"params\":{\"rev\":1,\"view_id\":\"view-id-1\"}}\n";

// Nothing in each list, no group and no id.
const EMPTY_EDIT: &str =
    "{\"method\":\"edit\",\"params\":{\"after_cursor\":false,\"author\":\"\",\"delta\":{\"base_len\":0,\"els\":[]},\"priority\":0,\"rev\":0,\"view_id\":\"\"}}\n";

const GROUP_OF_ZERO: &str =
    "{\"method\":\"edit\",\"params\":{\"after_cursor\":false,\"author\":\"\",\"delta\":{\"base_len\":0,\"els\":[]},\"priority\":0,\"rev\":0,\"undo_group\":0,\"view_id\":\"\"}}\n";

const GET_DATA_ALONE: &str =
    "{\"method\":\"get_data\",\"params\":{\"max_size\":0,\"rev\":0,\"start\":0,\"view_id\":\"\"}}\n";

const LINE_COUNT_ALONE: &str = "{\"method\":\"line_count\",\"params\":{\"view_id\":\"\"}}\n";

const ALERT_ALONE: &str = "{\"method\":\"alert\",\"params\":{\"msg\":\"\"}}\n";

const NO_SPANS: &str =
    "{\"method\":\"update_spans\",\"params\":{\"len\":0,\"rev\":0,\"spans\":[],\"start\":0,\"view_id\":\"v\"}}\n";

// An id that JSON has no room for.
const NULL_ID: &str = "{\"id\":null,\"method\":\"alert\",\"params\":{\"msg\":\"\"}}\n";

fn text(alloc: Global, characters: &str) -> Result<Text, NoMemory> {
    Text::from_str(alloc, characters)
}

/// Whether the command's line is this one, and the core reads it as this command.
fn writes(alloc: Global, id: Id, act: Act, line: &str) -> Result<bool, NoMemory>
    requires { IsAsk act }
{
    let command = Command { id, act };
    let made = ask_line(alloc, &command)?;
    let read = ask_of(alloc, made.as_str().as_bytes())?;
    Ok(made.as_str() == line && read == command)
}

fn push_insert(alloc: Global, els: &mut List<El>, characters: &str) -> Result<(), NoMemory> {
    let text = text(alloc, characters)?;
    els.push(El::Insert { text })
}

/// The delta of [`EDIT`], with these texts before, between and after its copies.
fn delta(alloc: Global, texts: [&str; 3]) -> Result<Delta, NoMemory> {
    let [first, second, third] = texts;
    let mut els = List::new(alloc);
    push_insert(alloc, &mut els, first)?;
    els.push(El::Copy { a: 3, b: 3 })?;
    push_insert(alloc, &mut els, second)?;
    els.push(El::Copy { a: 3, b: 9 })?;
    push_insert(alloc, &mut els, third)?;
    Ok(Delta { els, base_len: 9 })
}

fn writes_edit(alloc: Global) -> Result<bool, NoMemory> {
    let act = Act::PluginEdit {
        view: text(alloc, "v")?,
        rev: 5,
        delta: delta(alloc, ["\"\u{1}", "", "aé\u{2028}😀"])?,
        priority: 4294967295,
        after_cursor: true,
        author: text(alloc, "a")?,
        named: Some(4),
    };
    writes(alloc, Id::Num(1), act, EDIT)
}

const NARROW: WireSpan = WireSpan {
    start: 5,
    end: 5,
    style: Style {
        fg_color: Some(0),
        bg_color: Some(4294967295),
        weight: Some(1000),
        italic: Some(true),
        underline: Some(false),
    },
};

const PLAIN: WireSpan = WireSpan {
    start: 1,
    end: 4,
    style: Style {
        fg_color: None,
        bg_color: None,
        weight: None,
        italic: None,
        underline: None,
    },
};

fn writes_spans(alloc: Global) -> Result<bool, NoMemory> {
    let mut spans = List::new(alloc);
    spans.push(NARROW)?;
    spans.push(PLAIN)?;
    let act = Act::UpdateSpans {
        view: text(alloc, "v")?,
        rev: 2,
        start: 7,
        len: 5,
        spans,
    };
    writes(alloc, Id::Word(Text::new(alloc)), act, UPDATE_SPANS)
}

fn writes_data(alloc: Global) -> Result<bool, NoMemory> {
    let view = text(alloc, "view-id-1")?;
    let act = Act::GetData {
        view,
        rev: 0,
        start: 3,
        max: 8,
    };
    writes(alloc, Id::Num(5), act, GET_DATA)
}

fn writes_count(alloc: Global) -> Result<bool, NoMemory> {
    let view = text(alloc, "v")?;
    let id = Id::Num(-9223372036854775808);
    writes(alloc, id, Act::LineCount { view }, LINE_COUNT)
}

fn writes_alert(alloc: Global) -> Result<bool, NoMemory> {
    let msg = text(alloc, "m")?;
    let id = Id::Num(18446744073709551615);
    writes(alloc, id, Act::Alert { msg }, ALERT)
}

fn writes_ack(alloc: Global) -> Result<bool, NoMemory> {
    let view = text(alloc, "view-id-1")?;
    writes(alloc, Id::NoId, Act::Ack { view, rev: 1 }, ACK)
}

#[test]
fn each_method_is_written_with_every_member(rt: HostRuntime) {
    let alloc = rt.alloc();
    assert!(rt; matches!(writes_edit(alloc), Ok(true)));
    assert!(rt; matches!(writes_spans(alloc), Ok(true)));
    assert!(rt; matches!(writes_data(alloc), Ok(true)));
    assert!(rt; matches!(writes_count(alloc), Ok(true)));
    assert!(rt; matches!(writes_alert(alloc), Ok(true)));
    assert!(rt; matches!(writes_ack(alloc), Ok(true)));
}

fn writes_empty_edit(alloc: Global, named: Option<u64>, line: &str) -> Result<bool, NoMemory> {
    let act = Act::PluginEdit {
        view: Text::new(alloc),
        rev: 0,
        delta: Delta {
            els: List::new(alloc),
            base_len: 0,
        },
        priority: 0,
        after_cursor: false,
        author: Text::new(alloc),
        named,
    };
    writes(alloc, Id::NoId, act, line)
}

fn writes_no_spans(alloc: Global) -> Result<bool, NoMemory> {
    let spans: WireSpans = List::new(alloc);
    let act = Act::UpdateSpans {
        view: text(alloc, "v")?,
        rev: 0,
        start: 0,
        len: 0,
        spans,
    };
    writes(alloc, Id::NoId, act, NO_SPANS)
}

fn writes_data_alone(alloc: Global) -> Result<bool, NoMemory> {
    let act = Act::GetData {
        view: Text::new(alloc),
        rev: 0,
        start: 0,
        max: 0,
    };
    writes(alloc, Id::NoId, act, GET_DATA_ALONE)
}

fn writes_count_alone(alloc: Global) -> Result<bool, NoMemory> {
    let view = Text::new(alloc);
    writes(alloc, Id::NoId, Act::LineCount { view }, LINE_COUNT_ALONE)
}

fn writes_alert_alone(alloc: Global) -> Result<bool, NoMemory> {
    let msg = Text::new(alloc);
    writes(alloc, Id::NoId, Act::Alert { msg }, ALERT_ALONE)
}

#[test]
fn what_may_be_left_out_is(rt: HostRuntime) {
    let alloc = rt.alloc();
    assert!(rt; matches!(writes_empty_edit(alloc, None, EMPTY_EDIT), Ok(true)));
    assert!(rt; matches!(writes_empty_edit(alloc, Some(0), GROUP_OF_ZERO), Ok(true)));
    assert!(rt; matches!(writes_no_spans(alloc), Ok(true)));
    assert!(rt; matches!(writes_data_alone(alloc), Ok(true)));
    assert!(rt; matches!(writes_count_alone(alloc), Ok(true)));
    assert!(rt; matches!(writes_alert_alone(alloc), Ok(true)));
}

/// Whether the alert with this id is written with an id of null, which the core refuses.
fn has_null_id(alloc: Global, id: i128) -> Result<bool, NoMemory> {
    let command = Command {
        id: Id::Num(id),
        act: Act::Alert {
            msg: Text::new(alloc),
        },
    };
    let line = ask_line(alloc, &command)?;
    let read = ask_of(alloc, line.as_str().as_bytes())?;
    Ok(line.as_str() == NULL_ID && read.act == Act::Bad(Fault::Invalid))
}

#[test]
fn an_id_without_room_is_null(rt: HostRuntime) {
    let alloc = rt.alloc();
    assert!(rt; matches!(has_null_id(alloc, -9223372036854775809), Ok(true)));
    assert!(rt; matches!(has_null_id(alloc, 18446744073709551616), Ok(true)));
}

fn is_one(alloc: Global, line: &str) -> Result<bool, NoMemory> {
    Ok(is_line(&text(alloc, line)?))
}

#[test]
fn a_line_has_no_line_feed(rt: HostRuntime) {
    let alloc = rt.alloc();
    assert!(rt; matches!(is_one(alloc, ""), Ok(true)));
    assert!(rt; matches!(is_one(alloc, "é\r"), Ok(true)));
    assert!(rt; matches!(is_one(alloc, "\n"), Ok(false)));
    assert!(rt; matches!(is_one(alloc, "a\nb"), Ok(false)));
    assert!(rt; matches!(is_one(alloc, ACK), Ok(false)));
}
