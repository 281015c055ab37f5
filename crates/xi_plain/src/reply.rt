ghost use Rattle.std.specs.Prelude.{◌≡◌};
ghost use Rattle.xi_plain.specs.Reply.{has_entry};

use plain_text::{NoMemory, Text, Texts, TryClone};
use std::alloc::Global;

/// What came of an ask.
#[derive(PartialEq, Eq, Drop)]
pub enum Reply {
    /// It is an entry. The text is the line that answers a plugin, empty where none does.
    Taken(Text),
    /// A line of a plugin was refused by this line, and is no entry.
    Refused(Text),
    /// It is an entry of which not all was sent, since the sink failed.
    SinkFault,
    /// It is no entry, since the journal is closed or an entry before was not sent.
    Closed,
    /// It is no entry, for want of memory.
    NoMemory,
}

/// What came of a query.
#[derive(PartialEq, Eq, Drop)]
pub enum Answer {
    /// The lines that tell what happened, the place from which to ask next, and whether nothing more will come.
    Notices { lines: Texts, next: u64, over: bool },
    /// There is no entry from there on: the journal has so many.
    Nothing { len: u64 },
    NoMemory,
}

/// Where in the journal an ask was served.
#[derive(Clone, Copy, Debug, PartialEq, Eq)]
pub struct Receipt {
    /// The place of its entry; where it made none, how many entries there were.
    pub place: u64,
    /// Whether it made an entry.
    pub entered: bool,
}

impl Reply {
    /// Whether the ask made an entry.
    pub fn has_entry(&self) -> bool
        ensures { result ≡ has_entry self.now }
    {
        matches!(self, Reply::Taken(_) | Reply::SinkFault)
    }
}

impl TryClone for Reply {
    fn copy(&self, alloc: Global) -> Result<Reply, NoMemory> {
        match self {
            Reply::Taken(line) => Ok(Reply::Taken(line.copy(alloc)?)),
            Reply::Refused(line) => Ok(Reply::Refused(line.copy(alloc)?)),
            Reply::SinkFault => Ok(Reply::SinkFault),
            Reply::Closed => Ok(Reply::Closed),
            Reply::NoMemory => Ok(Reply::NoMemory),
        }
    }
}

impl TryClone for Answer {
    fn copy(&self, alloc: Global) -> Result<Answer, NoMemory> {
        match self {
            Answer::Notices { lines, next, over } => Ok(Answer::Notices {
                lines: lines.copy(alloc)?,
                next: *next,
                over: *over,
            }),
            Answer::Nothing { len } => Ok(Answer::Nothing { len: *len }),
            Answer::NoMemory => Ok(Answer::NoMemory),
        }
    }
}

impl TryClone for Receipt {
    fn copy(&self, _alloc: Global) -> Result<Receipt, NoMemory> {
        Ok(*self)
    }
}
