ghost use Rattle.std.specs.Prelude.{◌≡◌, ◌+◌, ◌^◌, ◌<◌, ◌≤◌, ◌++◌, length, take, slice_get, IfOk, IsTrue, Some};
ghost use Rattle.match_index.specs.Inner.{IsLastBy};
ghost use Rattle.match_index.specs.Strides.{is_countable, reach_of, span};

use shared_tree::{Leaf, Measure, Summary};
use std::alloc::{AllocError, Global};
use std::marker::Model;

/// What strides add up to.
#[derive(Drop)]
pub struct Reach {
    pub matches: u64,
    pub chars: u64,
}

impl Summary for Reach {
    ghost use Rattle.match_index.specs.Strides.{reaches_add, is_countable, no_reach, together};

    ghost zero = { no_reach };

    ghost plus = { together };

    ghost fits = { is_countable };

    ghost count = { λ a. a.matches };

    ghost adds = { reaches_add };

    fn zero() -> Self {
        Reach {
            matches: 0,
            chars: 0,
        }
    }

    fn plus(&self, other: &Self) -> Self {
        Reach {
            matches: self.matches + other.matches,
            chars: self.chars + other.chars,
        }
    }

    fn count(&self) -> u64 {
        self.matches
    }
}

/// How many characters.
#[derive(Clone, Copy)]
pub(crate) struct Chars;

impl Measure<Reach> for Chars {
    ghost use Rattle.std.specs.Prelude.{refl};

    ghost width = { λ _ reach. reach.chars };

    ghost starts = { λ _. refl };

    fn width(&self, summary: &Reach) -> u64 {
        summary.chars
    }
}

/// At most 128 strides side by side.
#[derive(Drop)]
pub struct Strides {
    numbers: Vec<u64>,
}

impl Model for Strides {
    ghost use Rattle.std.specs.Prelude.{◌≤◌, ℕ, List, length};

    ghost Value = { List ℕ };

    ghost view = { λ own. own.numbers.items };

    ghost invariant = { λ own. length own.numbers.items ≤ 128 };
}

impl Strides {
    pub(crate) fn of_numbers(alloc: Global, numbers: &[u64]) -> Result<Strides, AllocError>
        requires { length numbers.now ≤ 128 }
        ensures { IfOk result (λ made. made ≡ numbers.now) }
    {
        Ok(Strides {
            numbers: joined(alloc, numbers, &[], &[])?,
        })
    }

    pub(crate) fn get(&self, index: u64) -> u64
        requires { index < length self.now }
        ensures { slice_get self.now index ≡ Some result }
    {
        self.numbers[index as usize]
    }

    /// How many of the strides end by a gap, and how many characters these have.
    pub(crate) fn ending_by(&self, gap: u64) -> (u64, u64)
        requires inside { gap < span self.now }
        requires fits { span self.now < 2 ^ 64 }
        ensures { IsLastBy self.now gap result.0 result.1 }
    {
        last_by(&self.numbers, gap)
    }
}

impl Leaf for Strides {
    ghost use Rattle.match_index.specs.Strides.{reach_of, reaches_sum};

    type Item = u64;

    type Sum = Reach;

    ghost items = { λ own. own };

    ghost summed = { reach_of };

    ghost sums = { reaches_sum };

    fn len(&self) -> u64 {
        self.numbers.len() as u64
    }

    fn summary(&self) -> Reach {
        Reach {
            matches: self.numbers.len() as u64,
            chars: span(&self.numbers),
        }
    }

    fn part(&self, alloc: Global, from: u64, to: u64) -> Result<Self, AllocError> {
        let (_, back) = self.numbers.split_at(from as usize);
        let (part, _) = back.split_at((to - from) as usize);
        Ok(Strides {
            numbers: joined(alloc, part, &[], &[])?,
        })
    }

    fn glued(&self, alloc: Global, other: &Self) -> Result<Option<Self>, AllocError> {
        if self.numbers.len() + other.numbers.len() > 128 {
            return Ok(None);
        }
        Ok(Some(Strides {
            numbers: joined(alloc, &self.numbers, &other.numbers, &[])?,
        }))
    }

    fn spliced(
        &self,
        alloc: Global,
        from: u64,
        to: u64,
        other: &Self,
    ) -> Result<Option<Self>, AllocError> {
        let (front, _) = self.numbers.split_at(from as usize);
        let (_, back) = self.numbers.split_at(to as usize);
        if front.len() + other.numbers.len() + back.len() > 128 {
            return Ok(None);
        }
        Ok(Some(Strides {
            numbers: joined(alloc, front, &other.numbers, back)?,
        }))
    }

    fn without(&self, alloc: Global, from: u64, to: u64) -> Result<Self, AllocError> {
        let (front, _) = self.numbers.split_at(from as usize);
        let (_, back) = self.numbers.split_at(to as usize);
        Ok(Strides {
            numbers: joined(alloc, front, &[], back)?,
        })
    }
}

/// Three stretches of numbers, one after the other.
fn joined(
    alloc: Global,
    front: &[u64],
    middle: &[u64],
    back: &[u64],
) -> Result<Vec<u64>, AllocError>
    ensures { IfOk result (λ made. made.items ≡ front.now ++ (middle.now ++ back.now)) }
{
    let mut made = Vec::with_capacity(alloc, front.len() + middle.len() + back.len())?;
    made.extend_from_slice(front)?;
    made.extend_from_slice(middle)?;
    made.extend_from_slice(back)?;
    Ok(made)
}

/// How many characters the strides have.
fn span(numbers: &[u64]) -> u64
    requires { span numbers.now < 2 ^ 64 }
    ensures { result ≡ span numbers.now }
{
    let mut count: u64 = 0;
    for stride in numbers {
        count += *stride;
    }
    count
}

fn last_by(numbers: &[u64], gap: u64) -> (u64, u64)
    requires inside { gap < span numbers.now }
    requires fits { span numbers.now < 2 ^ 64 }
    ensures { IsLastBy numbers.now gap result.0 result.1 }
{
    let mut count: u64 = 0;
    let mut end: u64 = 0;
    for stride in numbers {
        if *stride > gap - end {
            return (count, end);
        }
        end += *stride;
        count += 1;
    }
    (count, end)
}
