// What is up to the floor of a list, said once for each group that has an edit by then and is not collected.
ghost use Rattle.std.specs.Prelude.{◌≡◌, IfOk};
ghost use Rattle.std.specs.List.{fold};
ghost use Rattle.plain_text.specs.Numbers.{has, with_number};
ghost use Rattle.rev_list.specs.Settled.{settled_loaded};

use number_runs::NumberRuns;
use number_set::NumberSet;
use plain_text::NoMemory;
use std::alloc::Global;
use std::collections::BTreeSet;
use std::marker::Model;
use subset_runs::Subset;

/// A group that has an edit by the floor: its last one there, and what its edits by the floor inserted and deleted, as positions of
/// the union at the floor.
#[derive(Drop)]
pub struct SettledGroup {
    pub group: u64,
    pub last: u64,
    pub inserted: Subset,
    pub deleted: Subset,
}

/// The floor, the length of the union there, the groups, which groups are undone there, and the collected ones.
#[derive(Drop)]
pub(crate) struct UpToFloor {
    floor: u64,
    len: u64,
    groups: Vec<SettledGroup>,
    undone: NumberSet,
    collected: NumberRuns,
}

impl Model for UpToFloor {
    ghost use Rattle.rev_list.specs.Settled.{Settled};

    ghost Value = { Settled };

    ghost view = { λ s. record { floor = s.floor; len = s.len; groups = s.groups.items; undone = s.undone; collected = s.collected } };
}

impl UpToFloor {
    // Of a text that was just loaded, with this many characters.
    pub(crate) fn loaded(alloc: Global, len: u64) -> UpToFloor
        ensures { result ≡ settled_loaded len }
    {
        UpToFloor {
            floor: 0,
            len,
            groups: Vec::new(alloc),
            undone: NumberSet::new(alloc),
            collected: NumberRuns::new(alloc),
        }
    }

    // With another floor and other groups, where these are collected beside those that were.
    pub(crate) fn collecting(
        &self,
        alloc: Global,
        floor: u64,
        len: u64,
        groups: Vec<SettledGroup>,
        undone: NumberSet,
        collected: &BTreeSet<u64>,
    ) -> Result<UpToFloor, NoMemory>
        ensures { IfOk result (λ made. made ≡ record {
          floor = floor;
          len = len;
          groups = groups.items;
          undone = undone;
          collected = fold with_number self.now.collected collected.now.keys;
        }) }
    {
        Ok(UpToFloor {
            floor,
            len,
            groups,
            undone,
            collected: self.collected.with_all(alloc, collected)?,
        })
    }

    pub(crate) fn floor(&self) -> u64
        ensures { result ≡ self.now.floor }
    {
        self.floor
    }

    pub(crate) fn len(&self) -> u64
        ensures { result ≡ self.now.len }
    {
        self.len
    }

    pub(crate) fn groups(&self) -> &[SettledGroup]
        ensures { result.now ≡ self.now.groups }
    {
        &self.groups
    }

    pub(crate) fn undone(&self) -> &NumberSet
        ensures { result.now ≡ self.now.undone }
    {
        &self.undone
    }

    pub(crate) fn has_collected(&self, group: u64) -> bool
        ensures { result ≡ has self.now.collected group }
    {
        self.collected.has(group)
    }
}
