ghost use Rattle.std.specs.Prelude.{◌≡◌, IfOk};
ghost use Rattle.plain_text.specs.Numbers.{IsRising};

use number_set::NumberSet;
use std::alloc::{AllocError, Global};
use std::marker::Model;

/// Some groups, in rising order.
#[derive(Drop)]
pub struct Groups {
    numbers: Vec<u64>,
}

impl Model for Groups {
    ghost use Rattle.std.specs.Prelude.{List, ℕ};
    ghost use Rattle.plain_text.specs.Numbers.{IsRising};

    ghost Value = { List ℕ };

    ghost view = { λ groups. groups.numbers.items };

    ghost invariant = { λ groups. IsRising groups.numbers.items };
}

impl Groups {
    /// The groups in order, in O(1).
    pub fn as_slice(&self) -> &[u64]
        ensures all { result.now ≡ self.now }
        ensures rising { IsRising result.now }
    {
        &self.numbers
    }

    /// The same groups, one by one.
    pub fn copy(&self, alloc: Global) -> Result<Groups, AllocError>
        ensures { IfOk result (λ made. made ≡ self.now) }
    {
        Groups::of_slice(alloc, self.as_slice())
    }

    pub(crate) fn of_slice(alloc: Global, groups: &[u64]) -> Result<Groups, AllocError>
        requires { IsRising groups.now }
        ensures { IfOk result (λ made. made ≡ groups.now) }
    {
        Ok(Groups {
            numbers: Vec::from_slice(alloc, groups)?,
        })
    }

    /// The numbers of a set, in their order.
    pub fn of_set(alloc: Global, groups: &NumberSet) -> Result<Groups, AllocError>
        ensures { IfOk result (λ made. made ≡ groups.now) }
    {
        Ok(Groups {
            numbers: listed(alloc, groups)?,
        })
    }
}

// The numbers of a set, one by one.
fn listed(alloc: Global, groups: &NumberSet) -> Result<Vec<u64>, AllocError>
    ensures all { IfOk result (λ made. made.items ≡ groups.now) }
    ensures rising { IsRising groups.now }
{
    let mut numbers = Vec::new(alloc);
    for index in 0..groups.len() {
        numbers.push(groups.at(index))?;
    }
    Ok(numbers)
}
