use crate::command::Command;
use plain_text::{Bytes, List, NoMemory, TryClone};
use std::alloc::Global;

/// What the shelf answered an entry.
#[derive(PartialEq, Eq, Drop)]
pub enum ShelfNote {
    /// It was not asked.
    NoCall,
    /// The file is there, and has these bytes.
    Held(Bytes),
    /// There is no such file.
    Absent,
    /// It could not do what was asked.
    Failed,
    /// The file was written.
    Done,
}

/// An entry of the journal.
#[derive(PartialEq, Eq, Drop)]
pub struct Entry {
    /// Who asked: 0 is the front end, a plugin has its number from 1.
    pub caller: u32,
    pub command: Command,
    pub shelf: ShelfNote,
    /// Whether all that the entry wrote was taken by the sink.
    pub sent: bool,
}

/// The entries of a session, from the first.
pub type Entries = List<Entry>;

impl TryClone for ShelfNote {
    fn copy(&self, alloc: Global) -> Result<ShelfNote, NoMemory> {
        match self {
            ShelfNote::NoCall => Ok(ShelfNote::NoCall),
            ShelfNote::Held(bytes) => Ok(ShelfNote::Held(bytes.copy(alloc)?)),
            ShelfNote::Absent => Ok(ShelfNote::Absent),
            ShelfNote::Failed => Ok(ShelfNote::Failed),
            ShelfNote::Done => Ok(ShelfNote::Done),
        }
    }
}

impl TryClone for Entry {
    fn copy(&self, alloc: Global) -> Result<Entry, NoMemory> {
        Ok(Entry {
            caller: self.caller,
            command: self.command.copy(alloc)?,
            shelf: self.shelf.copy(alloc)?,
            sent: self.sent,
        })
    }
}
