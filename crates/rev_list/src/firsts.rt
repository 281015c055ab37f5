// The first edit of each group, in trees whose copies share.
ghost use Rattle.std.specs.Prelude.{◌≡◌, ℕ, ◌<◌, [], ◌∷◌, length, slice_index_or, IfOk};
ghost use Rattle.std.specs.List.Sorted.{IsBinarySearchResult};
ghost use Rattle.std.specs.Ordering.{nat_cmp};
ghost use Rattle.rev_list.specs.Groups.{first_after, first_after_step, first_with, rev_of};

use crate::{RevStep, SettledGroup};
use number_set::NumberSet;
use plain_text::NoMemory;
use shared_tree::{Batch, Tree};
use std::alloc::Global;
use std::marker::Model;

/// The groups that have an edit, and beside each its first one. The loaded text is of group 0.
#[derive(Drop)]
pub(crate) struct FirstEdits {
    groups: NumberSet,
    revs: Tree<Batch<u64>>,
}

impl Model for FirstEdits {
    ghost use Rattle.std.specs.Prelude.{◌≡◌, length};
    ghost use Rattle.std.specs.List.{flat_map};
    ghost use Rattle.rev_list.specs.Groups.{Firsts};

    ghost Value = { Firsts };

    ghost view = { λ s. record { groups = s.groups; revs = flat_map (λ batch. batch) s.revs.leaves } };

    ghost invariant = { λ s. length (flat_map (λ batch. batch) s.revs.leaves) ≡ length s.groups };
}

impl FirstEdits {
    pub(crate) fn start(alloc: Global) -> Result<FirstEdits, NoMemory>
        ensures { IfOk result (λ made. made ≡ record { groups = 0 ∷ []; revs = 0 ∷ [] }) }
    {
        Ok(FirstEdits {
            groups: NumberSet::new(alloc).with(alloc, 0)?,
            revs: Tree::of_leaf(alloc, Batch::of_one(alloc, 0)?)?,
        })
    }

    // Of groups of which only the last edit is said.
    pub(crate) fn of_groups(alloc: Global, groups: &[SettledGroup]) -> Result<FirstEdits, NoMemory>
        ensures { IfOk result (λ made. (other : ℕ) → rev_of made.groups made.revs other
            ≡ first_with (rev_of (0 ∷ []) (0 ∷ []) other) groups.now other) }
    {
        let mut firsts = FirstEdits::start(alloc)?;
        for group in groups {
            firsts = firsts.with(alloc, group.group, group.last)?;
        }
        Ok(firsts)
    }

    // The same, shared, in O(1).
    pub(crate) fn copy(&self, alloc: Global) -> Result<FirstEdits, NoMemory>
        ensures { IfOk result (λ made. made ≡ self.now) }
    {
        Ok(FirstEdits {
            groups: self.groups.copy(alloc)?,
            revs: self.revs.copy(alloc)?,
        })
    }

    // By O(log n) look-ups.
    pub(crate) fn get(&self, group: u64) -> Option<u64>
        ensures { result ≡ rev_of self.now.groups self.now.revs group }
    {
        match self.groups.search(group) {
            Ok(at) => Some(self.rev_at(at)),
            Err(_) => None,
        }
    }

    fn rev_at(&self, index: u64) -> u64
        requires { index < length self.now.revs }
        ensures { result ≡ slice_index_or self.now.revs index result }
    {
        let (batch, place) = self.revs.get(index);
        *batch.get(place)
    }

    // With an edit of a group, which is the first one where the group had none: O(log n) look-ups and a copy of two paths.
    pub(crate) fn with(&self, alloc: Global, group: u64, rev: u64) -> Result<FirstEdits, NoMemory>
        ensures { IfOk result (λ made. (other : ℕ) → rev_of made.groups made.revs other
            ≡ first_after (rev_of self.now.groups self.now.revs other) group rev other) }
    {
        match self.groups.search(group) {
            Ok(_) => self.copy(alloc),
            Err(at) => self.inserted(alloc, at, group, rev),
        }
    }

    // After a step, which is this revision.
    pub(crate) fn after(
        &self,
        alloc: Global,
        step: &RevStep,
        rev: u64,
    ) -> Result<FirstEdits, NoMemory>
        ensures { IfOk result (λ made. (other : ℕ) → rev_of made.groups made.revs other
            ≡ first_after_step (rev_of self.now.groups self.now.revs other) step.now rev other) }
    {
        match step {
            RevStep::Edit(edit) => self.with(alloc, edit.group, rev),
            RevStep::Undo(_) => self.copy(alloc),
        }
    }

    fn inserted(&self, alloc: Global, at: u64, group: u64, rev: u64) -> Result<FirstEdits, NoMemory>
        requires { IsBinarySearchResult (λ y. nat_cmp y group) self.now.groups (Err at) }
        ensures { IfOk result (λ made. (other : ℕ) → rev_of made.groups made.revs other
            ≡ first_after (rev_of self.now.groups self.now.revs other) group rev other) }
    {
        if self.revs.len() == u64::MAX {
            return Err(NoMemory);
        }
        let one = Tree::of_leaf(alloc, Batch::of_one(alloc, rev)?)?;
        Ok(FirstEdits {
            groups: self.groups.with(alloc, group)?,
            revs: self.revs.edited(alloc, at, at, &one)?,
        })
    }
}
