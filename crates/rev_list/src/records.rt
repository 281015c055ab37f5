// What a list of revisions keeps of each of them, behind shared pointers.
ghost use Rattle.std.specs.Prelude.{◌≡◌, ◌+◌, ◌^◌, ◌<◌, [], ◌∷◌, ◌++◌, length, ◌≤◌, slice_index_or, take, drop, IfOk, OnOk, OnErr};

use crate::RevStep;
use shared_tree::{Batch, Tree};
use std::alloc::{AllocError, Global};
use std::marker::Model;
use subset_runs::Subset;

/// A revision, and the positions of its own union that it turned from dead to alive or back. What is new there counts as alive
/// before it.
#[derive(Drop)]
pub struct RevRecord {
    pub step: RevStep,
    pub turned: Subset,
}

/// The records of the revisions after the loaded text, the oldest first.
#[derive(Drop)]
pub(crate) struct Records {
    tree: Tree<Batch<RevRecord>>,
}

impl Model for Records {
    ghost use Rattle.std.specs.Prelude.{List};
    ghost use Rattle.std.specs.List.{flat_map};
    ghost use Rattle.rev_list.specs.declared.records.RevRecord.{RevRecord};

    ghost Value = { List RevRecord };

    ghost view = { λ records. flat_map (λ batch. batch) records.tree.leaves };
}

impl Records {
    pub(crate) fn new(alloc: Global) -> Records
        ensures { result ≡ [] }
    {
        Records {
            tree: Tree::new(alloc),
        }
    }

    // The same records, shared, in O(1).
    pub(crate) fn copy(&self, alloc: Global) -> Result<Records, AllocError>
        ensures { IfOk result (λ made. made ≡ self.now) }
    {
        Ok(Records {
            tree: self.tree.copy(alloc)?,
        })
    }

    pub(crate) fn len(&self) -> u64
        ensures { result ≡ length self.now }
    {
        self.tree.len()
    }

    // In O(height).
    pub(crate) fn get(&self, index: u64) -> &RevRecord
        requires { index < length self.now }
        ensures { result.now ≡ slice_index_or self.now index result.now }
    {
        let (batch, place) = self.tree.get(index);
        batch.get(place)
    }

    // The first `to` records, shared, in O(height).
    pub(crate) fn front(&self, alloc: Global, to: u64) -> Result<Records, AllocError>
        requires { to ≤ length self.now }
        ensures { IfOk result (λ made. made ≡ take to self.now) }
    {
        Ok(Records {
            tree: self.tree.front(alloc, to)?,
        })
    }

    // The records from `from` on, shared, in O(height).
    pub(crate) fn back(&self, alloc: Global, from: u64) -> Result<Records, AllocError>
        requires { from ≤ length self.now }
        ensures { IfOk result (λ made. made ≡ drop from self.now) }
    {
        Ok(Records {
            tree: self.tree.back(alloc, from)?,
        })
    }

    // These records and then the others, shared, in O(height).
    #[tactic(auto, using(shared_tree::proofs::ForCallers::few_fit))]
    pub(crate) fn joined(&self, alloc: Global, others: &Records) -> Result<Records, AllocError>
        requires { length (self.now ++ others.now) < 2 ^ 64 }
        ensures { IfOk result (λ made. made ≡ self.now ++ others.now) }
    {
        Ok(Records {
            tree: self.tree.joined(alloc, &others.tree)?,
        })
    }

    // Puts a record at the end, in O(height).
    #[tactic(auto, using(shared_tree::proofs::ForCallers::few_fit))]
    pub(crate) fn push(&mut self, alloc: Global, newest: RevRecord) -> Result<(), AllocError>
        requires { length self.old + 1 < 2 ^ 64 }
        ensures pushed { OnOk result (self.new ≡ self.old ++ newest ∷ []) }
        ensures unchanged { OnErr result (self.new ≡ self.old) }
    {
        self.tree.push_leaf(alloc, Batch::of_one(alloc, newest)?)
    }
}
