ghost use Rattle.std.specs.Prelude.{◌≡◌, ◌+◌, ◌-◌, ◌^◌, ◌<◌, ◌≤◌, ◌↔◌, true, ◌++◌, ◌∷◌, [], length, take, drop, slice_get, vec_len, vec_capacity, IfOk, IfSome, IsNone, IsTrue, OnOk, OnErr};
ghost use Rattle.std.specs.List.{fold};
ghost use Rattle.plain_text.specs.Numbers.{has, with_number, IsRising};
ghost use Rattle.undo_groups.specs.Groups.{no_groups, excess, retiring, after_opening, next_undo, undone_one, next_redo, redone_one, forgotten, is_known, IsStack};

use number_set::NumberSet;
use plain_text::NoMemory;
use std::alloc::Global;
use std::collections::BTreeSet;
use std::marker::Model;

/// How many groups an undo or a redo can reach at most.
const LIVE: usize = 20;

/// The undo groups of a document.
#[derive(Drop)]
pub struct Stack {
    alloc: Global,
    live: Vec<u64>,
    /// How many live groups, from the front, are not undone.
    index: usize,
    retired: NumberSet,
    undone: NumberSet,
    given: u64,
}

impl Model for Stack {
    ghost use Rattle.undo_groups.specs.Groups.{Groups, groups_of, IsStack};

    ghost Value = { Groups };

    ghost view = { λ s. groups_of s.live.items s.index s.retired s.undone s.given };

    ghost invariant = { λ s. IsStack (groups_of s.live.items s.index s.retired s.undone s.given) };
}

impl Stack {
    /// The stack of a document without an edit. It takes no memory.
    pub fn new(alloc: Global) -> Stack
        ensures { result ≡ no_groups }
    {
        Stack {
            alloc,
            live: Vec::new(alloc),
            index: 0,
            retired: NumberSet::new(alloc),
            undone: NumberSet::new(alloc),
            given: 0,
        }
    }

    /// How many groups were given out, which is the number of the last one.
    pub fn given(&self) -> u64
        ensures given { result ≡ self.now.given }
        ensures sound { IsStack self.now }
    {
        self.given
    }

    /// The number that the next group will have, in O(1).
    pub fn next_group(&self) -> u64
        ensures { result ≡ self.now.given + 1 }
    {
        self.given + 1
    }

    /// Opens the next group and gives its number. The groups that are undone and still live retire and stay undone; of more than
    /// twenty live groups the oldest retires. Each group that retires costs O(log r) look-ups among r retired groups.
    pub fn open_group(&mut self) -> Result<u64, NoMemory>
        requires { self.old.given + 1 < 2 ^ 63 }
        ensures group { IfOk result (λ group. group ≡ self.old.given + 1) }
        ensures opened { OnOk result (self.new ≡ after_opening self.old) }
        ensures unchanged { OnErr result (self.new ≡ self.old) }
    {
        self.live.reserve(1)?;
        let retired = self.retired_then()?;
        let group = self.given + 1;
        self.live.truncate(self.index);
        self.live.push_reserved(group);
        drop_oldest(&mut self.live);
        self.retired = retired;
        self.index = self.live.len();
        self.given = group;
        Ok(group)
    }

    // The retired groups after the next one is opened.
    fn retired_then(&self) -> Result<NumberSet, NoMemory>
        ensures { IfOk result (λ retired. retired
            ≡ fold with_number self.now.retired (retiring self.now)) }
    {
        let retired = self.retired.with_all(self.alloc, &self.live[self.index..])?;
        if self.index < LIVE {
            return Ok(retired);
        }
        retired.with_all(self.alloc, &self.live[..1])
    }

    /// Whether an edit may join the group: it was given out and is not forgotten. In O(log r) look-ups among r retired groups.
    pub fn join_group(&mut self, group: u64) -> bool
        ensures known { result ≡ is_known self.old group }
        ensures unchanged { self.new ≡ self.old }
    {
        self.live.contains(&group) || self.is_retired(group)
    }

    /// Undoes the newest live group that is not undone, and gives it; `None` where there is no such group. In O(log u) look-ups among
    /// u undone groups.
    pub fn undo_group(&mut self) -> Result<Option<u64>, NoMemory>
        ensures group { IfOk result (λ found. found ≡ next_undo self.old) }
        ensures undone { OnOk result (self.new ≡ undone_one self.old) }
        ensures unchanged { OnErr result (self.new ≡ self.old) }
    {
        if self.index == 0 {
            return Ok(None);
        }
        let group = self.live[self.index - 1];
        self.undone = self.undone.with(self.alloc, group)?;
        self.index -= 1;
        Ok(Some(group))
    }

    /// Takes the last undo back, and gives its group; `None` where no live group is undone. In O(log u) look-ups among u undone groups.
    pub fn redo_group(&mut self) -> Result<Option<u64>, NoMemory>
        ensures group { IfOk result (λ found. found ≡ next_redo self.old) }
        ensures redone { OnOk result (self.new ≡ redone_one self.old) }
        ensures unchanged { OnErr result (self.new ≡ self.old) }
    {
        if self.index == self.live.len() {
            return Ok(None);
        }
        let group = self.live[self.index];
        self.undone = self.undone.without(self.alloc, group)?;
        self.index += 1;
        Ok(Some(group))
    }

    /// As [`Stack::undo_group`], and gives all groups that are then undone; in O(u log u) for u of them.
    pub fn undo(&mut self) -> Result<Option<BTreeSet<u64>>, NoMemory>
        ensures groups { IfOk result (λ found. IfSome found (λ groups. groups.keys ≡ self.new.undone)) }
        ensures end { IfOk result (λ found. IsNone found ↔ (self.old.index ≡ 0)) }
        ensures undone { OnOk result (self.new ≡ undone_one self.old) }
        ensures unchanged { OnErr result (self.new ≡ self.old) }
    {
        let mut stack = self.copy(self.alloc)?;
        match stack.undo_group()? {
            Some(_) => {
                let groups = stack.undone.set(self.alloc)?;
                *self = stack;
                Ok(Some(groups))
            }
            None => Ok(None),
        }
    }

    /// As [`Stack::redo_group`], and gives all groups that are then undone; in O(u log u) for u of them.
    pub fn redo(&mut self) -> Result<Option<BTreeSet<u64>>, NoMemory>
        ensures groups { IfOk result (λ found. IfSome found (λ groups. groups.keys ≡ self.new.undone)) }
        ensures end { IfOk result (λ found. IsNone found ↔ (self.old.index ≡ length self.old.live)) }
        ensures redone { OnOk result (self.new ≡ redone_one self.old) }
        ensures unchanged { OnErr result (self.new ≡ self.old) }
    {
        let mut stack = self.copy(self.alloc)?;
        match stack.redo_group()? {
            Some(_) => {
                let groups = stack.undone.set(self.alloc)?;
                *self = stack;
                Ok(Some(groups))
            }
            None => Ok(None),
        }
    }

    /// Whether the group is undone, in O(log u) look-ups among u undone groups.
    pub fn is_undone(&self, group: u64) -> bool
        ensures { result ≡ has self.now.undone group }
    {
        self.undone.has(group)
    }

    /// Whether there is a retired group that is not forgotten, in O(1).
    pub fn has_retired(&self) -> bool
        ensures { IsTrue result ↔ (0 < length self.now.retired) }
    {
        self.retired.len() > 0
    }

    /// The retired group with this index, from 0, among those that are not forgotten, in O(log r) with r such groups.
    pub fn retired(&self, i: usize) -> Option<u64>
        ensures group { result ≡ slice_get self.now.retired i }
        ensures rising { IsRising self.now.retired }
    {
        let index = i as u64;
        if index < self.retired.len() {
            return Some(self.retired.at(index));
        }
        None
    }

    /// Whether the group is retired and not forgotten, in O(log r) look-ups among r such groups.
    pub fn is_retired(&self, group: u64) -> bool
        ensures { result ≡ has self.now.retired group }
    {
        self.retired.has(group)
    }

    /// Forgets a retired group, in O(log r) look-ups among r of them. Where it is undone it stays so.
    pub fn forget(&mut self, group: u64) -> Result<(), NoMemory>
        requires { has self.old.retired group ≡ true }
        ensures forgotten { OnOk result (self.new ≡ forgotten self.old group) }
        ensures unchanged { OnErr result (self.new ≡ self.old) }
    {
        self.retired = self.retired.without(self.alloc, group)?;
        Ok(())
    }

    /// The same stack once more, in the time of a copy of the live groups: all others are shared.
    pub fn copy(&self, alloc: Global) -> Result<Stack, NoMemory>
        ensures { IfOk result (λ made. made ≡ self.now) }
    {
        Ok(Stack {
            alloc,
            live: Vec::from_slice(alloc, &self.live)?,
            index: self.index,
            retired: self.retired.copy(alloc)?,
            undone: self.undone.copy(alloc)?,
            given: self.given,
        })
    }
}

// Of more live groups than may be, the oldest goes.
fn drop_oldest(live: &mut Vec<u64>)
    requires { vec_len live.old ≤ 21 }
    ensures { live.new.items ≡ drop (excess live.old.items) live.old.items }
{
    if live.len() > LIVE {
        live.remove(0);
    }
}
