use plain_text::{Bytes, NoMemory, TryClone};
use std::alloc::Global;

/// What a caller asks of an object that keeps a journal.
#[derive(PartialEq, Eq, Drop)]
pub enum Ask {
    /// To take a line of the front end, with or without its LF.
    FrontLine(Bytes),
    /// To take a line of a plugin.
    PluginLine(Bytes),
    /// To end the session of a plugin.
    PluginEnd,
    /// To close the journal.
    CloseDown,
}

/// What a caller asks without an entry.
#[derive(Clone, Copy, Debug, PartialEq, Eq)]
pub enum Query {
    /// What happened in the entries from this place on.
    Notices { from: u64 },
}

impl TryClone for Ask {
    fn copy(&self, alloc: Global) -> Result<Ask, NoMemory> {
        match self {
            Ask::FrontLine(line) => Ok(Ask::FrontLine(line.copy(alloc)?)),
            Ask::PluginLine(line) => Ok(Ask::PluginLine(line.copy(alloc)?)),
            Ask::PluginEnd => Ok(Ask::PluginEnd),
            Ask::CloseDown => Ok(Ask::CloseDown),
        }
    }
}

impl TryClone for Query {
    fn copy(&self, _alloc: Global) -> Result<Query, NoMemory> {
        Ok(*self)
    }
}
