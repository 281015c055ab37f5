ghost use Rattle.std.specs.Prelude.{◌≡◌, ◌+◌, ◌<◌, ◌≤◌, List, [], ◌∷◌, length, slice_index_or, IfOk};

use crate::shared::{copied, joined, joined_three, single};
use crate::{Leaf, Summary};
use std::alloc::{AllocError, Global};
use std::marker::Model;
use std::sync::Arc;

/// How many records.
#[derive(Drop)]
pub struct Tally {
    records: u64,
}

impl Summary for Tally {
    ghost use Rattle.shared_tree.specs.Batch.{both, is_few, tally, tallies};

    ghost zero = { tally 0 };

    ghost plus = { both };

    ghost fits = { is_few };

    ghost count = { λ a. a.records };

    ghost adds = { tallies };

    fn zero() -> Self {
        Tally { records: 0 }
    }

    fn plus(&self, other: &Self) -> Self {
        Tally {
            records: self.records + other.records,
        }
    }

    fn count(&self) -> u64 {
        self.records
    }
}

/// At most 32 shared records side by side.
#[derive(Drop)]
pub struct Batch<T: Drop> {
    records: Vec<Arc<T, Global>>,
}

impl<T: Drop> Model for Batch<T> {
    ghost use Rattle.std.specs.Prelude.{◌≤◌, List, length};
    ghost use Rattle.shared_tree.specs.Shared.{values};

    ghost Value = { List T };

    ghost view = { λ batch. values batch.records.items };

    ghost invariant = { λ batch. length batch.records.items ≤ 32 };
}

impl<T: Drop> Batch<T> {
    pub fn of_one(alloc: Global, value: T) -> Result<Batch<T>, AllocError>
        ensures { IfOk result (λ batch. batch ≡ value ∷ []) }
    {
        Ok(Batch {
            records: single(alloc, value)?,
        })
    }

    pub fn get(&self, index: u64) -> &T
        requires { index < length self.now }
        ensures { result.now ≡ slice_index_or self.now index result.now }
    {
        &self.records[index as usize]
    }
}

impl<T: Drop> Leaf for Batch<T> {
    ghost use Rattle.shared_tree.specs.Batch.{tally_of, tallied};

    type Item = T;

    type Sum = Tally;

    ghost items = { λ batch. batch };

    ghost summed = { tally_of };

    ghost sums = { tallied };

    fn len(&self) -> u64 {
        self.records.len() as u64
    }

    fn summary(&self) -> Tally {
        Tally {
            records: self.len(),
        }
    }

    fn part(&self, alloc: Global, from: u64, to: u64) -> Result<Self, AllocError> {
        Ok(Batch {
            records: copied(alloc, &self.records[from as usize..to as usize])?,
        })
    }

    fn glued(&self, alloc: Global, other: &Self) -> Result<Option<Self>, AllocError> {
        if self.records.len() + other.records.len() > 32 {
            return Ok(None);
        }
        Ok(Some(Batch {
            records: joined(alloc, &self.records, &other.records)?,
        }))
    }

    fn spliced(
        &self,
        alloc: Global,
        from: u64,
        to: u64,
        other: &Self,
    ) -> Result<Option<Self>, AllocError> {
        let (front, _) = self.records.split_at(from as usize);
        let (_, back) = self.records.split_at(to as usize);
        if front.len() + other.records.len() + back.len() > 32 {
            return Ok(None);
        }
        Ok(Some(Batch {
            records: joined_three(alloc, front, &other.records, back)?,
        }))
    }

    fn without(&self, alloc: Global, from: u64, to: u64) -> Result<Self, AllocError> {
        let (front, _) = self.records.split_at(from as usize);
        let (_, back) = self.records.split_at(to as usize);
        Ok(Batch {
            records: joined(alloc, front, back)?,
        })
    }
}
