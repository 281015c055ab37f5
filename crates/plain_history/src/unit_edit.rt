ghost use Rattle.std.specs.Prelude.{◌≡◌, ℕ, IfOk};
ghost use Rattle.plain_edits.specs.Edits.{insertion_rank};
ghost use Rattle.plain_history.specs.UnitEdit.{edit_of, over_text};

use crate::deltas;
use plain_edits::{Adds, Delta, Rank};
use plain_text::{NoMemory, Runs, Text, TryClone};
use std::alloc::Global;

/// An edit in characters of its base's text: those in the runs are kept, and each text is added at its gap.
#[derive(Drop)]
pub struct UnitEdit {
    pub base: u64,
    pub kept: Runs,
    pub added: Adds,
    pub group: u64,
    pub priority: u32,
    pub author: u32,
}

impl UnitEdit {
    /// The edit that a delta over a text says.
    pub fn of_delta(
        alloc: Global,
        base: u64,
        text: &Text,
        delta: &Delta,
        group: u64,
        priority: u32,
        author: u32,
    ) -> Result<UnitEdit, NoMemory>
        ensures { IfOk result (λ e. edit_of e ≡ over_text base text.now delta.now group priority author) }
    {
        Ok(UnitEdit {
            base,
            kept: deltas::kept_runs(alloc, text, delta.els.as_slice())?,
            added: deltas::insertions(alloc, text, delta.els.as_slice())?,
            group,
            priority,
            author,
        })
    }

    /// What orders its insertions.
    pub fn rank(&self) -> Rank
        ensures { result ≡ insertion_rank (edit_of self.now) }
    {
        Rank {
            priority: self.priority,
            author: self.author,
        }
    }
}

impl TryClone for UnitEdit {
    fn copy(&self, alloc: Global) -> Result<UnitEdit, NoMemory> {
        Ok(UnitEdit {
            base: self.base,
            kept: self.kept.copy(alloc)?,
            added: self.added.copy(alloc)?,
            group: self.group,
            priority: self.priority,
            author: self.author,
        })
    }
}
