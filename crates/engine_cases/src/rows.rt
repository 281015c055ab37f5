//! Engines of a text, and edits of rows.

use crate::elements::replacing;
use crate::made::{is_made, reads};
use plain_text::{NoMemory, Text};
use rev_engine::{Change, Edit, EditFault, Engine};
use std::alloc::Global;

// An edit against a base of `len` bytes: it puts a text in the place of the bytes from `from` up to `to`.
#[derive(Clone, Copy)]
pub(crate) struct Row {
    pub(crate) rev: u64,
    pub(crate) len: u64,
    pub(crate) from: u64,
    pub(crate) to: u64,
    pub(crate) added: &'static str,
    pub(crate) priority: u32,
    pub(crate) author: u32,
    pub(crate) group: u64,
}

// An insertion by a group.
pub(crate) fn insertion(rev: u64, len: u64, at: u64, added: &'static str, group: u64) -> Row {
    Row {
        rev,
        len,
        from: at,
        to: at,
        added,
        priority: 0,
        author: 0,
        group,
    }
}

// A deletion by a group.
pub(crate) fn deletion(rev: u64, len: u64, from: u64, to: u64, group: u64) -> Row {
    Row {
        rev,
        len,
        from,
        to,
        added: "",
        priority: 0,
        author: 0,
        group,
    }
}

fn edit_of(alloc: Global, row: Row) -> Result<Edit, NoMemory> {
    let delta = replacing(alloc, row.from, row.to, row.len, row.added)?;
    Ok(Edit {
        rev: row.rev,
        delta,
        priority: row.priority,
        after_cursor: false,
        author: row.author,
        group: row.group,
    })
}

// Takes an edit that may come.
fn taken(alloc: Global, engine: &mut Engine, edit: &Edit) -> Result<Change, EditFault> {
    if edit.group == 0 || engine.is_collected(edit.group) || 1000 < engine.head() {
        return Err(EditFault::NoMemory);
    }
    engine.edit(alloc, edit)
}

// Takes the row's edit.
pub(crate) fn take(alloc: Global, engine: &mut Engine, row: Row) -> Result<Change, EditFault> {
    match edit_of(alloc, row) {
        Ok(edit) => taken(alloc, engine, &edit),
        Err(_) => Err(EditFault::NoMemory),
    }
}

// Whether the engine takes the edits of the rows, one after the other.
pub(crate) fn takes_all(alloc: Global, engine: &mut Engine, rows: &[Row]) -> bool {
    for row in rows {
        if !is_made(take(alloc, engine, *row)) {
            return false;
        }
    }
    true
}

// The engine of a text, with room for so many characters more.
pub(crate) fn loaded_with(alloc: Global, text: &str, limit: u32) -> Result<Engine, NoMemory> {
    let text = Text::from_str(alloc, text)?;
    Engine::of_text(alloc, text, u64::from(limit))
}

// The engine of a text.
pub(crate) fn loaded(alloc: Global, text: &str) -> Result<Engine, NoMemory> {
    loaded_with(alloc, text, 1000)
}

// Whether the revision shows this.
pub(crate) fn shows(alloc: Global, engine: &Engine, rev: u64, shown: &str) -> bool {
    reads(engine.text_at(alloc, rev), shown)
}
