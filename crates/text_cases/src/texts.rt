//! Texts, and copies of plain values.

use plain_edits::{Added, Delta, El, UnitDelta};
use plain_screen::{Line, Op, Restyle, Triple, Update};
use plain_text::{List, NoMemory, Region, Run, Sel, Text, TryClone};
use std::alloc::Global;
use xi_plain::{Act, Command, EditAct, Entry, Id, Notice, ShelfNote};

fn text(alloc: Global, characters: &str) -> Result<Text, NoMemory> {
    Text::from_str(alloc, characters)
}

fn one<T: Drop>(alloc: Global, item: T) -> Result<List<T>, NoMemory> {
    let mut list = List::new(alloc);
    list.push(item)?;
    Ok(list)
}

fn two<T: Drop>(alloc: Global, first: T, second: T) -> Result<List<T>, NoMemory> {
    let mut list = one(alloc, first)?;
    list.push(second)?;
    Ok(list)
}

// Whether the text grows by this.
fn grows_by(alloc: Global, some: &mut Text, more: &str) -> bool {
    match text(alloc, more) {
        Ok(more) => some.push_text(&more).is_ok(),
        Err(_) => false,
    }
}

// Whether the characters from one gap up to another are these.
fn is_cut(alloc: Global, some: &Text, from: u64, to: u64, characters: &str) -> bool {
    if from > to || to > some.char_count() {
        return false;
    }
    match some.slice(alloc, from, to) {
        Ok(cut) => cut.as_str() == characters,
        Err(_) => false,
    }
}

// Whether these are the bytes of the text.
fn reads_back(bytes: Vec<u8>, characters: &str) -> bool {
    match Text::from_utf8(bytes) {
        Ok(some) => some.as_str() == characters,
        Err(_) => false,
    }
}

// Whether the text grows in each way.
fn is_joined(alloc: Global, some: &mut Text) -> bool {
    some.push('é').is_ok() && some.push_str("\n").is_ok() && grows_by(alloc, some, "𝄞")
}

// Whether these are the characters of the text, and it is as long as they are.
fn is_text(some: &Text, characters: &str, bytes: u64, count: u64) -> bool {
    some.as_str() == characters && some.byte_len() == bytes && some.char_count() == count
}

fn is_joined_and_cut(alloc: Global) -> bool {
    let Ok(mut some) = Text::from_ascii(alloc, "a") else {
        return false;
    };
    is_joined(alloc, &mut some)
        && is_text(&some, "aé\n𝄞", 8, 4)
        && is_cut(alloc, &some, 1, 3, "é\n")
        && reads_back(some.into_bytes(), "aé\n𝄞")
}

#[test]
fn a_text_is_joined_and_cut(rt: HostRuntime) {
    assert!(rt; is_joined_and_cut(rt.alloc()));
}

// Whether a list of one has room for two more.
fn has_room(alloc: Global) -> bool {
    let Ok(mut list) = one(alloc, 1) else {
        return false;
    };
    list.reserve(2).is_ok()
        && list.push_reserved(2).is_ok()
        && list.push_reserved(3).is_ok()
        && list.as_slice() == [1, 2, 3].as_slice()
}

#[test]
fn a_list_has_room_when_it_was_taken(rt: HostRuntime) {
    assert!(rt; has_room(rt.alloc()));
}

fn element(alloc: Global) -> Result<El, NoMemory> {
    let text = text(alloc, "é")?;
    Ok(El::Insert { text })
}

// A notice of a delta with an element of each kind.
fn notice(alloc: Global) -> Result<Notice, NoMemory> {
    let els = two(alloc, El::Copy { a: 1, b: 2 }, element(alloc)?)?;
    let view = text(alloc, "view-id-1")?;
    Ok(Notice {
        view,
        author: 2,
        rev: 3,
        new_len: 4,
        delta: Delta { els, base_len: 5 },
    })
}

fn addition(alloc: Global) -> Result<Added, NoMemory> {
    let text = text(alloc, "x")?;
    Ok(Added { gap: 3, text })
}

fn units(alloc: Global) -> Result<UnitDelta, NoMemory> {
    let added = one(alloc, addition(alloc)?)?;
    let kept = one(alloc, Run { start: 1, end: 2 })?;
    Ok(UnitDelta {
        base: 6,
        kept,
        added,
    })
}

fn act(alloc: Global) -> Result<Act, NoMemory> {
    let chars = text(alloc, "b")?;
    let view = text(alloc, "view-id-1")?;
    Ok(Act::Edit {
        view,
        act: EditAct::Insert { chars },
    })
}

fn entry(alloc: Global) -> Result<Entry, NoMemory> {
    let act = act(alloc)?;
    let id = Id::Word(text(alloc, "w")?);
    Ok(Entry {
        caller: 1,
        command: Command { id, act },
        shelf: ShelfNote::NoCall,
        sent: false,
    })
}

fn line(alloc: Global) -> Result<Line, NoMemory> {
    let triple = Triple {
        start: -1,
        len: 2,
        id: 3,
    };
    let text = text(alloc, "a\n")?;
    let cursor = one(alloc, 1)?;
    let styles = one(alloc, triple)?;
    Ok(Line {
        text,
        ln: Some(7),
        cursor,
        styles,
    })
}

fn restyling(alloc: Global) -> Result<Op, NoMemory> {
    let Line {
        text: _,
        ln,
        cursor,
        styles,
    } = line(alloc)?;
    let lines = one(alloc, Restyle { cursor, styles })?;
    Ok(Op::Update { ln, lines })
}

fn insertion(alloc: Global) -> Result<Op, NoMemory> {
    let lines = one(alloc, line(alloc)?)?;
    Ok(Op::Ins { lines })
}

// An update with an operation of each kind.
fn update(alloc: Global) -> Result<Update, NoMemory> {
    let mut ops = two(alloc, Op::Copy { n: 1, ln: Some(2) }, insertion(alloc)?)?;
    ops.push(Op::Skip { n: 3 })?;
    ops.push(Op::Invalidate { n: 4 })?;
    ops.push(restyling(alloc)?)?;
    Ok(Update {
        ops,
        pristine: true,
    })
}

fn selection(alloc: Global) -> Result<Sel, NoMemory> {
    let region = Region {
        anchor: 1,
        caret: 2,
        goal: Some(3),
    };
    let regions = one(alloc, region)?;
    Ok(Sel { regions })
}

// Whether a copy equals the value.
fn equals<T: PartialEq + Drop>(copy: Result<T, NoMemory>, value: &T) -> bool {
    match copy {
        Ok(copy) => copy == *value,
        Err(_) => false,
    }
}

// Whether a value was made, and has a copy that equals it.
fn has_a_copy<T: TryClone + PartialEq + Drop>(alloc: Global, value: Result<T, NoMemory>) -> bool {
    match value {
        Ok(value) => equals(value.copy(alloc), &value),
        Err(_) => false,
    }
}

#[test]
fn a_copy_equals_its_value(rt: HostRuntime) {
    let alloc = rt.alloc();
    assert!(rt; has_a_copy(alloc, notice(alloc)), "a notice");
    assert!(rt; has_a_copy(alloc, units(alloc)), "a unit delta");
    assert!(rt; has_a_copy(alloc, entry(alloc)), "an entry");
    assert!(rt; has_a_copy(alloc, update(alloc)), "an update");
    assert!(rt; has_a_copy(alloc, selection(alloc)), "a selection");
}
