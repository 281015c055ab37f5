//! Words of a session: their copies, and how they print.

use crate::made::equals;
use plain_text::{List, NoMemory, Text, TryClone};
use std::alloc::{AllocError, Global};
use xi_plain::{
    Act, Answer, Ask, Changes, Command, Delta, EditAct, El, Entry, Id, Motion, Query, Receipt,
    Reply, ShelfNote, Style, WireSpan,
};

fn text(alloc: Global, characters: &str) -> Result<Text, NoMemory> {
    Text::from_str(alloc, characters)
}

fn one<T: Drop>(alloc: Global, item: T) -> Result<List<T>, NoMemory> {
    let mut list = List::new(alloc);
    list.push(item)?;
    Ok(list)
}

// Whether a value was made, and has a copy that equals it.
fn has_a_copy<T: TryClone + PartialEq + Drop>(alloc: Global, value: Result<T, NoMemory>) -> bool {
    match value {
        Ok(value) => equals(value.copy(alloc), &value),
        Err(_) => false,
    }
}

fn spans(alloc: Global) -> Result<Act, NoMemory> {
    let style = Style {
        fg_color: Some(1),
        bg_color: None,
        weight: Some(700),
        italic: Some(true),
        underline: Some(false),
    };
    let span = WireSpan {
        start: 1,
        end: 2,
        style,
    };
    let view = text(alloc, "v")?;
    let spans = one(alloc, span)?;
    Ok(Act::UpdateSpans {
        view,
        rev: 3,
        start: 4,
        len: 5,
        spans,
    })
}

fn plugin_edit(alloc: Global) -> Result<Act, NoMemory> {
    let els = one(alloc, El::Copy { a: 0, b: 1 })?;
    let view = text(alloc, "v")?;
    let author = text(alloc, "a")?;
    Ok(Act::PluginEdit {
        view,
        rev: 1,
        delta: Delta { els, base_len: 2 },
        priority: 3,
        after_cursor: true,
        author,
        named: Some(4),
    })
}

fn search(alloc: Global) -> Result<Act, NoMemory> {
    let chars = text(alloc, "é")?;
    let view = text(alloc, "v")?;
    let act = EditAct::Find {
        chars,
        case_sensitive: Some(true),
        regex: None,
        whole_words: Some(false),
    };
    Ok(Act::Edit { view, act })
}

fn saving(alloc: Global) -> Result<Act, NoMemory> {
    let view = text(alloc, "v")?;
    let path = text(alloc, "p")?;
    Ok(Act::Save { view, path })
}

// An entry of a plugin that was not sent.
fn entry(alloc: Global, act: Act) -> Result<Entry, NoMemory> {
    let bytes = one(alloc, 255)?;
    Ok(Entry {
        caller: 1,
        command: Command {
            id: Id::Num(-7),
            act,
        },
        shelf: ShelfNote::Held(bytes),
        sent: false,
    })
}

// Whether an entry with this act has a copy that equals it.
fn is_copied(alloc: Global, act: Result<Act, NoMemory>) -> bool {
    match act {
        Ok(act) => has_a_copy(alloc, entry(alloc, act)),
        Err(_) => false,
    }
}

const CHANGES: Changes = Changes {
    tab: Some(8),
    width: None,
    spaces: Some(true),
};

#[test]
fn a_copy_of_an_entry_equals_it(rt: HostRuntime) {
    let alloc = rt.alloc();
    assert!(rt; is_copied(alloc, spans(alloc)));
    assert!(rt; is_copied(alloc, plugin_edit(alloc)));
    assert!(rt; is_copied(alloc, search(alloc)));
    assert!(rt; is_copied(alloc, saving(alloc)));
    assert!(rt; is_copied(alloc, Ok(Act::Configure(CHANGES))));
    assert!(rt; is_copied(alloc, Ok(Act::Ended)));
}

fn notices(alloc: Global) -> Result<Answer, NoMemory> {
    let line = text(alloc, "{}\n")?;
    let lines = one(alloc, line)?;
    Ok(Answer::Notices {
        lines,
        next: 3,
        over: true,
    })
}

fn plugin_line(alloc: Global) -> Result<Ask, NoMemory> {
    let line = one(alloc, 10)?;
    Ok(Ask::PluginLine(line))
}

fn taken(alloc: Global) -> Result<Reply, NoMemory> {
    let line = text(alloc, "{}\n")?;
    Ok(Reply::Taken(line))
}

#[test]
fn a_copy_of_an_ask_and_its_answer_equals_it(rt: HostRuntime) {
    let alloc = rt.alloc();
    assert!(rt; has_a_copy(alloc, plugin_line(alloc)));
    assert!(rt; has_a_copy(alloc, notices(alloc)));
    assert!(rt; has_a_copy(alloc, taken(alloc)));
    assert!(rt; Reply::SinkFault.has_entry() && !Reply::Closed.has_entry());
}

fn taken_has_an_entry(alloc: Global) -> bool {
    match taken(alloc) {
        Ok(reply) => reply.has_entry(),
        Err(_) => false,
    }
}

#[test]
fn a_reply_that_took_the_line_has_an_entry(rt: HostRuntime) {
    assert!(rt; taken_has_an_entry(rt.alloc()));
}

/// What words of an edit, a query and a receipt print.
fn printed(alloc: Global, act: &EditAct) -> Result<String, AllocError> {
    let changes = Changes {
        tab: None,
        width: Some(0),
        spaces: None,
    };
    let query = Query::Notices { from: 1 };
    let receipt = Receipt {
        place: 2,
        entered: false,
    };
    format!(in alloc; "{act:?} {changes:?} {query:?} {receipt:?}")
}

const MOVE: &str =
    "Move { motion: WordLeft, extend: true } Changes { tab: None, width: Some(0), spaces: None } Notices { from: 1 } Receipt { place: 2, entered: false }";

fn print_so(alloc: Global, act: &EditAct, expected: &str) -> bool {
    match printed(alloc, act) {
        Ok(found) => found.as_str() == expected,
        Err(_) => false,
    }
}

#[test]
fn words_print_as_they_are_declared(rt: HostRuntime) {
    let act = EditAct::Move {
        motion: Motion::WordLeft,
        extend: true,
    };
    assert!(rt; print_so(rt.alloc(), &act, MOVE));
}
