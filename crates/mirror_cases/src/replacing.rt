//! What a replacer gives in its turns, in words.

use crate::script::{in_words, line};
use plain_text::{NoMemory, Text, Texts};
use plugin_replacer::Replacer;
use plugin_session::Plugin;
use regex::Regex;
use regex_find::{LiteralSpot, RegexSpot};
use std::alloc::Global;

// The lines of a turn, and what it gives.
type Row = (&'static str, &'static str);

fn lines(alloc: Global, said: &str) -> Result<Texts, NoMemory> {
    let mut lines = Texts::new(alloc);
    for words in said.split("; ") {
        lines.push(Text::from_string(line(alloc, words)?))?;
    }
    Ok(lines)
}

fn turned<P: Plugin>(alloc: Global, plugin: &mut P, said: &str) -> Result<String, NoMemory> {
    let lines = lines(alloc, said)?;
    let turn = plugin.turn(lines.as_slice());
    let mut told = in_words(alloc, &turn.lines)?;
    if turn.done {
        told.push_str("; done")?;
    }
    Ok(told)
}

fn gives<P: Plugin>(alloc: Global, plugin: &mut P, row: &Row) -> bool {
    match turned(alloc, plugin, row.0) {
        Ok(told) => told.as_str() == row.1,
        Err(_) => false,
    }
}

fn give<P: Plugin>(alloc: Global, plugin: &mut P, rows: &[Row]) -> bool {
    for row in rows {
        if !gives(alloc, plugin, row) {
            return false;
        }
    }
    true
}

// Whether a plugin that replaces each number by `#` gives these in its turns.
fn numbers_give(alloc: Global, rows: &[Row]) -> bool {
    let (Ok(regex), Ok(with)) = (Regex::new(alloc, "[0-9]+"), Text::from_str(alloc, "#")) else {
        return false;
    };
    let spot = RegexSpot::of(alloc, regex);
    give(alloc, &mut Replacer::new(alloc, spot, with), rows)
}

// The same, where some characters are replaced by others.
fn characters_give(alloc: Global, chars: &str, with: &str, rows: &[Row]) -> bool {
    let (Ok(chars), Ok(with)) = (Text::from_str(alloc, chars), Text::from_str(alloc, with)) else {
        return false;
    };
    let spot = LiteralSpot::of(alloc, chars);
    give(alloc, &mut Replacer::new(alloc, spot, with), rows)
}

// A number is cut by the end of a piece; the edit of the plugin comes back as an update, and then a number is typed.
const PIECES: &[Row] = &[
    ("open v 7", "0:v from 0 most 1048576"),
    ("chunk 0 0 a1b2", "1:v from 4 most 1048576"),
    (
        "chunk 1 4 2c3",
        "edit by replacer v 0 of 7: 0-1 # 2-3 # 5-6 #",
    ),
    (
        r##"update v 1 6 7 {"copy":[0,1]},{"insert":"#"},{"copy":[2,3]},{"insert":"#"},{"copy":[5,6]},{"insert":"#"}"##,
        "ack v 1",
    ),
    (r#"update v 2 7 6 {"copy":[0,6]},{"insert":"4"}"#, "ack v 2"),
];

const NO_MATCH: &[Row] = &[
    ("open v 2", "0:v from 0 most 1048576"),
    ("chunk 0 0 ab", ""),
    (r#"update v 1 3 2 {"copy":[0,2]},{"insert":"1"}"#, "ack v 1"),
];

const EARLY_UPDATE: &[Row] = &[
    ("open v 2", "0:v from 0 most 1048576"),
    (r#"update v 1 3 2 {"copy":[0,2]},{"insert":"1"}"#, ""),
    ("chunk 0 0 ab", "edit by replacer v 1 of 3: 0-2 #, ack v 1"),
];

const TWO_VIEWS: &[Row] = &[
    (
        "open v 1; open w 2",
        "0:v from 0 most 1048576, 1:w from 0 most 1048576",
    ),
    (
        "chunk 1 0 1a; chunk 0 0 2; open e 0",
        "edit by replacer w 0 of 2: 0-0 # 1-2, edit by replacer v 0 of 1: 0-0 #",
    ),
    ("close v; open v 1", "2:v from 0 most 1048576"),
    ("chunk 2 0 3", ""),
];

const FAULT: &[Row] = &[
    ("open v 1", "0:v from 0 most 1048576"),
    (
        "chunk 0 0 5; {nope; open w 1",
        "edit by replacer v 0 of 1: 0-0 #; done",
    ),
];

// What comes in the place holds what is looked for.
const AGAIN: &[Row] = &[
    ("open v 3", "0:v from 0 most 1048576"),
    (
        "chunk 0 0 aab",
        "edit by replacer v 0 of 3: 0-0 aa 1-1 aa 2-3",
    ),
    (
        r#"update v 1 5 3 {"insert":"aaaa"},{"copy":[2,3]}"#,
        "ack v 1",
    ),
];

const DELETED: &[Row] = &[
    ("open v 3", "0:v from 0 most 1048576"),
    ("chunk 0 0 aaa", "edit by replacer v 0 of 3: 2-3"),
];

#[test]
fn each_text_is_replaced_once_it_is_whole(rt: HostRuntime) {
    let alloc = rt.alloc();
    assert!(rt; numbers_give(alloc, PIECES));
    assert!(rt; numbers_give(alloc, NO_MATCH));
    assert!(rt; numbers_give(alloc, EARLY_UPDATE));
}

#[test]
fn no_view_is_edited_twice(rt: HostRuntime) {
    assert!(rt; numbers_give(rt.alloc(), TWO_VIEWS));
}

#[test]
fn a_fault_ends_it_behind_what_it_gave(rt: HostRuntime) {
    assert!(rt; numbers_give(rt.alloc(), FAULT));
}

#[test]
fn characters_are_replaced_as_they_stand(rt: HostRuntime) {
    let alloc = rt.alloc();
    assert!(rt; characters_give(alloc, "a", "aa", AGAIN));
    assert!(rt; characters_give(alloc, "aa", "", DELETED));
}
