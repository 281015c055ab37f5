// A set of numbers as its longest runs.
ghost use Rattle.std.specs.Prelude.{◌≡◌, [], IfOk};
ghost use Rattle.std.specs.List.{fold};
ghost use Rattle.plain_text.specs.Numbers.{has, with_number};

use crate::run::{NumberRun, is_in_some, joined};
use plain_text::NoMemory;
use std::alloc::Global;
use std::collections::BTreeSet;
use std::marker::Model;

/// A set of numbers, kept as its longest runs: sixteen bytes for each, however many numbers it has.
#[derive(Drop)]
pub struct NumberRuns {
    runs: Vec<NumberRun>,
}

impl Model for NumberRuns {
    ghost use Rattle.std.specs.Prelude.{ℕ, List};
    ghost use Rattle.number_runs.specs.Runs.{numbers_in, AreSeparate};

    ghost Value = { List ℕ };

    ghost view = { λ numbers. numbers_in numbers.runs.items };

    ghost invariant = { λ numbers. AreSeparate 0 numbers.runs.items };
}

impl NumberRuns {
    pub fn new(alloc: Global) -> NumberRuns
        ensures { result ≡ [] }
    {
        NumberRuns {
            runs: Vec::new(alloc),
        }
    }

    /// In the logarithm of the number of runs.
    pub fn has(&self, number: u64) -> bool
        ensures { result ≡ has self.now number }
    {
        is_in_some(&self.runs, number)
    }

    /// The numbers and all of these, in the time of the runs and of these.
    pub fn with_all(&self, alloc: Global, more: &BTreeSet<u64>) -> Result<NumberRuns, NoMemory>
        ensures { IfOk result (λ made. made ≡ fold with_number self.now more.now.keys) }
    {
        Ok(NumberRuns {
            runs: joined(alloc, &self.runs, more)?,
        })
    }
}
