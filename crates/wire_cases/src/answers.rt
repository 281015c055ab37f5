//! What plugins are answered and told, as it is printed.

use crate::made::is;
use entry_lines::{PluginNews, PluginReply, answer_of, notices_of, view_id_of};
use plain_edits::{Delta, El, Misfit};
use plain_text::{List, NoMemory, Text, Texts};
use std::alloc::Global;
use xi_plain::{Fault, Id, Notice};

/// What a line with this numeric id is answered.
fn answered(alloc: Global, id: u64, reply: PluginReply) -> Result<Text, NoMemory> {
    answer_of(alloc, &Id::Num(i128::from(id)), &reply)
}

/// What a line without an id is answered.
fn unnamed(alloc: Global, reply: PluginReply) -> Result<Text, NoMemory> {
    answer_of(alloc, &Id::NoId, &reply)
}

/// How many lines there are, for a line whose id is a text.
fn lines_for(alloc: Global, id: &str, n: u64) -> Result<Text, NoMemory> {
    let id = Text::from_str(alloc, id)?;
    answer_of(alloc, &Id::Word(id), &PluginReply::Lines(n))
}

/// A part of a text.
fn chunk(alloc: Global, text: &str, offset: u64) -> Result<Text, NoMemory> {
    let text = Text::from_str(alloc, text)?;
    answered(alloc, 2, PluginReply::Chunk { text, offset })
}

const EDITED: PluginReply = PluginReply::Edited { rev: 2, group: 1 };

#[test]
fn a_taken_line_is_answered_by_its_id(rt: HostRuntime) {
    let alloc = rt.alloc();
    assert!(rt;
        is(
            answered(alloc, 0, PluginReply::Null),
            "{\"id\":0,\"result\":null}"
        )
    );
    assert!(rt;
        is(
            answered(alloc, 1, EDITED),
            "{\"id\":1,\"result\":{\"rev\":2,\"undo_group\":1}}"
        )
    );
    assert!(rt; is(lines_for(alloc, "x", 1), "{\"id\":\"x\",\"result\":1}"));
    assert!(rt; is(unnamed(alloc, EDITED), ""));
    assert!(rt; is(unnamed(alloc, PluginReply::Null), ""));
}

const ODD_CHUNK: &str =
    "{\"id\":2,\"result\":{\"chunk\":\"\\\"\\\\\\u0000\u{1f600}\\n\",\"offset\":18446744073709551615}}";

#[test]
fn a_chunk_has_the_place_where_it_starts(rt: HostRuntime) {
    let alloc = rt.alloc();
    assert!(rt;
        is(
            chunk(alloc, "", 0),
            "{\"id\":2,\"result\":{\"chunk\":\"\",\"offset\":0}}"
        )
    );
    assert!(rt;
        is(
            chunk(alloc, "abc", 7),
            "{\"id\":2,\"result\":{\"chunk\":\"abc\",\"offset\":7}}"
        )
    );
    assert!(rt;
        is(
            chunk(alloc, "\"\\\0\u{1f600}\n", 18446744073709551615),
            ODD_CHUNK
        )
    );
}

/// The refusal of a line with this numeric id by a member.
fn bad_params(alloc: Global, id: u64, member: &str) -> Result<Text, NoMemory> {
    let member = Text::from_str(alloc, member)?;
    answered(alloc, id, PluginReply::Refused(Fault::BadParams(member)))
}

/// The refusal of a line without an id by a member.
fn unnamed_bad_params(alloc: Global, member: &str) -> Result<Text, NoMemory> {
    let member = Text::from_str(alloc, member)?;
    unnamed(alloc, PluginReply::Refused(Fault::BadParams(member)))
}

const NO_VIEW: &str =
    "{\"error\":{\"code\":-32602,\"message\":\"invalid params: view_id\"},\"id\":null}";

const NO_PLACE: &str = "{\"error\":{\"code\":-32602,\"message\":\"invalid params: len\"},\"id\":3}";

const PARSE: &str = "{\"error\":{\"code\":-32700,\"message\":\"parse error\"},\"id\":null}";

#[test]
fn a_refused_line_is_answered_without_an_id_too(rt: HostRuntime) {
    let alloc = rt.alloc();
    assert!(rt; is(unnamed_bad_params(alloc, "view_id"), NO_VIEW));
    assert!(rt; is(bad_params(alloc, 3, "len"), NO_PLACE));
    assert!(rt; is(unnamed(alloc, PluginReply::Refused(Fault::Parse)), PARSE));
}

const MISFIT: PluginReply = PluginReply::Misfit(Misfit { kind: 3, at: 1 });

const UNKNOWN: &str = "{\"error\":{\"code\":4,\"message\":\"unknown revision: 21\"},\"id\":1}";

const COLLECTED: &str =
    "{\"error\":{\"code\":5,\"message\":\"collected revision: 0\"},\"id\":null}";

#[test]
fn a_document_refuses_by_its_number(rt: HostRuntime) {
    let alloc = rt.alloc();
    assert!(rt;
        is(
            answered(alloc, 1, MISFIT),
            "{\"error\":{\"code\":6,\"message\":\"misfit 3 at 1\"},\"id\":1}"
        )
    );
    assert!(rt;
        is(
            answered(alloc, 1, PluginReply::Spent(5)),
            "{\"error\":{\"code\":3,\"message\":\"spent\"},\"id\":1}"
        )
    );
    assert!(rt; is(answered(alloc, 1, PluginReply::Unknown(21)), UNKNOWN));
    assert!(rt; is(unnamed(alloc, PluginReply::Collected(0)), COLLECTED));
}

/// The revision in which plugin 2 put `b` after `a`.
fn change(alloc: Global) -> Result<Notice, NoMemory> {
    let mut els = List::new(alloc);
    els.push(El::Copy { a: 0, b: 1 })?;
    els.push(El::Insert {
        text: Text::from_str(alloc, "b")?,
    })?;
    Ok(Notice {
        view: view_id_of(alloc, 1)?,
        author: 2,
        rev: 2,
        new_len: 2,
        delta: Delta { els, base_len: 1 },
    })
}

/// What plugins are told of each kind of entry, one after the other.
fn all_notices(alloc: Global) -> Result<Texts, NoMemory> {
    let mut news = List::new(alloc);
    news.push(PluginNews::Opened {
        view: view_id_of(alloc, 1)?,
        len: 12,
    })?;
    news.push(PluginNews::Changed(change(alloc)?))?;
    news.push(PluginNews::Closed {
        view: view_id_of(alloc, 1)?,
    })?;
    news.push(PluginNews::Stopped)?;
    notices_of(alloc, news.as_slice())
}

/// Whether the texts were made, and are these.
fn are(made: Result<Texts, NoMemory>, expected: &[&str]) -> bool {
    let Ok(texts) = made else {
        return false;
    };
    let texts = texts.as_slice();
    if texts.len() != expected.len() {
        return false;
    }
    for (text, wanted) in texts.iter().zip(expected) {
        if text.as_str() != *wanted {
            return false;
        }
    }
    true
}

const CHANGE: &str =
    "{\"method\":\"update\",\"params\":{\"author\":2,\"delta\":{\"base_len\":1,\"els\":[{\"copy\":[0,1]},{\"insert\":\"b\"}]},\"new_len\":2,\"rev\":2,\"view_id\":\"view-id-1\"}}";

const NOTICES: [&str; 4] = [
    "{\"method\":\"new_buffer\",\"params\":{\"len\":12,\"rev\":0,\"view_id\":\"view-id-1\"}}",
    CHANGE,
    "{\"method\":\"did_close\",\"params\":{\"view_id\":\"view-id-1\"}}",
    "{\"method\":\"shutdown\",\"params\":{}}",
];

#[test]
fn plugins_are_told_of_an_entry(rt: HostRuntime) {
    let alloc = rt.alloc();
    assert!(rt; are(all_notices(alloc), &NOTICES));
    assert!(rt; are(notices_of(alloc, &[]), &[]));
}
