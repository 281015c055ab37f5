//! What plugins hear: in the lines of notices and answers that the core writes, and in other lines.

use json_rpc::{write_error, write_reply};
use plain_text::{List, NoMemory, Text};
use plugin_side::{Answered, Heard, Told, hear};
use plugin_wire::{buffer_line, close_line, notice_line, start_line, stop_line};
use serde_json::Value;
use std::alloc::Global;
use xi_plain::{Delta, El, Id, Notice};

fn text(alloc: Global, characters: &str) -> Result<Text, NoMemory> {
    Text::from_str(alloc, characters)
}

/// Whether this is heard in the line, with its LF and without it.
fn hears(alloc: Global, line: &str, wanted: &Heard) -> Result<bool, NoMemory> {
    let mut line = text(alloc, line)?;
    let alone = hear(alloc, &line)?;
    line.push('\n')?;
    let ended = hear(alloc, &line)?;
    Ok(alone == *wanted && ended == *wanted)
}

/// Whether this is heard in a line that was written.
fn hears_written(
    alloc: Global,
    line: Result<Text, NoMemory>,
    wanted: Heard,
) -> Result<bool, NoMemory> {
    Ok(hear(alloc, &line?)? == wanted)
}

fn notice(alloc: Global, author: u32) -> Result<Notice, NoMemory> {
    let mut els = List::new(alloc);
    els.push(El::Insert {
        text: text(alloc, "é\u{2028}😀\"")?,
    })?;
    els.push(El::Copy { a: 1, b: 7 })?;
    els.push(El::Insert {
        text: Text::new(alloc),
    })?;
    Ok(Notice {
        view: text(alloc, "v")?,
        author,
        rev: 3,
        new_len: 16,
        delta: Delta { els, base_len: 7 },
    })
}

fn hears_start(alloc: Global) -> Result<bool, NoMemory> {
    let wanted = Heard::Told(Told::Started { caller: 1 });
    hears_written(alloc, start_line(alloc, 1), wanted)
}

fn hears_opening(alloc: Global) -> Result<bool, NoMemory> {
    let view = text(alloc, "v")?;
    let line = buffer_line(alloc, &view, 0);
    hears_written(alloc, line, Heard::Told(Told::Opened { view, len: 0 }))
}

fn hears_change(alloc: Global, author: u32) -> Result<bool, NoMemory> {
    let notice = notice(alloc, author)?;
    let line = notice_line(alloc, &notice);
    hears_written(alloc, line, Heard::Told(Told::Changed(notice)))
}

fn hears_closing(alloc: Global) -> Result<bool, NoMemory> {
    let view = text(alloc, "v")?;
    let line = close_line(alloc, &view);
    hears_written(alloc, line, Heard::Told(Told::Closed { view }))
}

fn hears_stop(alloc: Global) -> Result<bool, NoMemory> {
    hears_written(alloc, stop_line(alloc), Heard::Told(Told::Stopped))
}

#[test]
fn each_notice_is_heard(rt: HostRuntime) {
    let alloc = rt.alloc();
    assert!(rt; matches!(hears_start(alloc), Ok(true)));
    assert!(rt; matches!(hears_opening(alloc), Ok(true)));
    assert!(rt; matches!(hears_change(alloc, 0), Ok(true)));
    assert!(rt; matches!(hears_change(alloc, 4294967295), Ok(true)));
    assert!(rt; matches!(hears_closing(alloc), Ok(true)));
    assert!(rt; matches!(hears_stop(alloc), Ok(true)));
}

// What is heard in a line, as it stands in a row.
#[derive(Clone, Copy)]
enum Row {
    // The answer to the ask 5.
    Chunk(&'static str, u64),
    Edited(u64, u64),
    Lines(u64),
    Null,
    Other,
    // An error with the message `m`, to this ask or to none.
    Failed(Option<i128>, i64),
    // A view `v` of so many bytes.
    Opened(u64),
    Nothing,
}

use Row::{Chunk, Edited, Failed, Lines, Nothing, Null, Opened, Other};

fn five(answer: Answered) -> Heard {
    Heard::Answer {
        id: Id::Num(5),
        answer,
    }
}

fn failed(alloc: Global, id: Option<i128>, code: i64) -> Result<Heard, NoMemory> {
    let message = text(alloc, "m")?;
    let id = match id {
        Some(id) => Id::Num(id),
        None => Id::NoId,
    };
    Ok(Heard::Answer {
        id,
        answer: Answered::Failed { code, message },
    })
}

fn heard(alloc: Global, row: Row) -> Result<Heard, NoMemory> {
    match row {
        Chunk(characters, offset) => {
            let text = text(alloc, characters)?;
            Ok(five(Answered::Chunk { text, offset }))
        }
        Edited(rev, group) => Ok(five(Answered::Edited { rev, group })),
        Lines(lines) => Ok(five(Answered::Lines(lines))),
        Null => Ok(five(Answered::Null)),
        Other => Ok(five(Answered::Other)),
        Failed(id, code) => failed(alloc, id, code),
        Opened(len) => {
            let view = text(alloc, "v")?;
            Ok(Heard::Told(Told::Opened { view, len }))
        }
        Nothing => Ok(Heard::Nothing),
    }
}

fn is_heard(alloc: Global, line: &str, row: Row) -> Result<bool, NoMemory> {
    let wanted = heard(alloc, row)?;
    hears(alloc, line, &wanted)
}

/// Whether in each line what stands beside it is heard.
fn are_heard(alloc: Global, rows: &[(&str, Row)]) -> bool {
    for (line, row) in rows {
        if !matches!(is_heard(alloc, line, *row), Ok(true)) {
            return false;
        }
    }
    true
}

const RESULTS: &[(&str, Row)] = &[
    (
        r#"{"id":5,"result":{"chunk":"é","offset":3}}"#,
        Chunk("é", 3),
    ),
    (
        r#"{"result":{"rev":1,"offset":0,"undo_group":2,"chunk":""},"id":5,"more":[]}"#,
        Chunk("", 0),
    ),
    (
        r#"{"id":5,"result":{"undo_group":2,"rev":18446744073709551615}}"#,
        Edited(18446744073709551615, 2),
    ),
    (r#"{"id":5,"result":0}"#, Lines(0)),
    (r#"{"id":5,"result":null}"#, Null),
];

const OTHER_RESULTS: &[(&str, Row)] = &[
    (r#"{"id":5,"result":{"chunk":1,"offset":0}}"#, Other),
    (r#"{"id":5,"result":{"chunk":"a"}}"#, Other),
    (r#"{"id":5,"result":{"rev":1}}"#, Other),
    (
        r#"{"id":5,"result":{"rev":18446744073709551616,"undo_group":1}}"#,
        Other,
    ),
    (r#"{"id":5,"result":-1}"#, Other),
    (r#"{"id":5,"result":{}}"#, Other),
    (r#"{"id":5,"result":[]}"#, Other),
    (r#"{"id":5,"result":"a"}"#, Other),
    (r#"{"id":5,"result":true}"#, Other),
];

const ERRORS: &[(&str, Row)] = &[
    (
        r#"{"error":{"code":-32700,"message":"m"},"id":null}"#,
        Failed(None, -32700),
    ),
    (
        r#"{"error":{"code":9223372036854775807,"message":"m"},"id":5}"#,
        Failed(Some(5), 9223372036854775807),
    ),
    (
        r#"{"error":{"code":4,"message":"m"},"id":-9223372036854775808,"result":null}"#,
        Failed(Some(-9223372036854775808), 4),
    ),
    (
        r#"{"error":{"code":9223372036854775808,"message":"m"},"id":5}"#,
        Nothing,
    ),
    (r#"{"error":null,"id":5,"result":1}"#, Nothing),
];

const OTHER_LINES: &[(&str, Row)] = &[
    ("", Nothing),
    ("[]", Nothing),
    ("{nope", Nothing),
    (r#"{"result":null}"#, Nothing),
    (r#"{"id":1.5,"result":null}"#, Nothing),
    (r#"{"id":18446744073709551616,"result":null}"#, Nothing),
    (r#"{"id":5}"#, Nothing),
    (r#"{"id":5,"method":"shutdown","params":{}}"#, Nothing),
    (r#"{"id":null,"method":"shutdown","params":{}}"#, Nothing),
    (
        r#"{"method":"ack","params":{"rev":1,"view_id":"v"}}"#,
        Nothing,
    ),
];

const RANGES: &[(&str, Row)] = &[
    (
        r#"{"params":{"view_id":"v","more":1,"rev":0,"len":18446744073709551615},"method":"new_buffer"}"#,
        Opened(18446744073709551615),
    ),
    (
        r#"{"method":"new_buffer","params":{"len":1,"rev":1,"view_id":"v"}}"#,
        Nothing,
    ),
    (
        r#"{"method":"new_buffer","params":{"rev":0,"view_id":"v"}}"#,
        Nothing,
    ),
    (
        r#"{"method":"initialize","params":{"plugin_id":4294967296}}"#,
        Nothing,
    ),
    (
        r#"{"method":"update","params":{"author":4294967296,"delta":{"base_len":0,"els":[]},"new_len":0,"rev":1,"view_id":"v"}}"#,
        Nothing,
    ),
    (
        r#"{"method":"update","params":{"author":1,"delta":{"base_len":0,"els":[{"copy":[0]}]},"new_len":0,"rev":1,"view_id":"v"}}"#,
        Nothing,
    ),
    (r#"{"method":"did_close","params":{"view_id":1}}"#, Nothing),
];

#[test]
fn each_result_is_heard(rt: HostRuntime) {
    assert!(rt; are_heard(rt.alloc(), RESULTS));
}

#[test]
fn another_result_is_heard_as_such(rt: HostRuntime) {
    assert!(rt; are_heard(rt.alloc(), OTHER_RESULTS));
}

#[test]
fn an_error_is_heard(rt: HostRuntime) {
    assert!(rt; are_heard(rt.alloc(), ERRORS));
}

#[test]
fn nothing_is_heard_in_other_lines(rt: HostRuntime) {
    assert!(rt; are_heard(rt.alloc(), OTHER_LINES));
}

#[test]
fn a_notice_has_its_members_in_range(rt: HostRuntime) {
    assert!(rt; are_heard(rt.alloc(), RANGES));
}

fn hears_reply(alloc: Global) -> Result<bool, NoMemory> {
    let id = Id::Word(text(alloc, "é")?);
    let line = write_reply(alloc, &id, Value::from(7u64));
    let answer = Answered::Lines(7);
    hears_written(alloc, line, Heard::Answer { id, answer })
}

fn hears_error(alloc: Global) -> Result<bool, NoMemory> {
    let code = -9223372036854775808;
    let line = write_error(alloc, &Id::NoId, code, &text(alloc, "m")?);
    hears_written(alloc, line, failed(alloc, None, code)?)
}

#[test]
fn written_answers_are_heard(rt: HostRuntime) {
    let alloc = rt.alloc();
    assert!(rt; matches!(hears_reply(alloc), Ok(true)));
    assert!(rt; matches!(hears_error(alloc), Ok(true)));
}
