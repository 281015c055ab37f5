use plain_edits::Delta;
use plain_text::{NoMemory, Text, TryClone};
use std::alloc::Global;

/// How texts are laid out and edited.
#[derive(Clone, Copy, PartialEq, Eq)]
pub struct Config {
    /// The columns from one tab stop to the next, 1 to 16.
    pub tab: u32,
    /// The columns at which lines are wrapped, at most 10,000; 0 where they are not.
    pub width: u32,
    /// Whether a tab key inserts spaces.
    pub spaces: bool,
}

/// What a line changes of the configuration: a member that is `None` stays as it is.
#[derive(Clone, Copy, Debug, PartialEq, Eq)]
pub struct Changes {
    pub tab: Option<u32>,
    pub width: Option<u32>,
    pub spaces: Option<bool>,
}

/// What plugins are told of a revision.
#[derive(PartialEq, Eq, Drop)]
pub struct Notice {
    pub view: Text,
    /// The number of the caller whose edit it is.
    pub author: u32,
    pub rev: u64,
    /// The length of the new text, in bytes.
    pub new_len: u64,
    /// What leads from the text of the revision before to the new one.
    pub delta: Delta,
}

impl TryClone for Config {
    fn copy(&self, _alloc: Global) -> Result<Config, NoMemory> {
        Ok(*self)
    }
}

impl TryClone for Changes {
    fn copy(&self, _alloc: Global) -> Result<Changes, NoMemory> {
        Ok(*self)
    }
}

impl TryClone for Notice {
    fn copy(&self, alloc: Global) -> Result<Notice, NoMemory> {
        Ok(Notice {
            view: self.view.copy(alloc)?,
            author: self.author,
            rev: self.rev,
            new_len: self.new_len,
            delta: self.delta.copy(alloc)?,
        })
    }
}
