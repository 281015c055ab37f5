// Numbers in order, in a tree whose copies share.
ghost use Rattle.std.specs.Prelude.{◌≡◌, ◌+◌, ◌^◌, ◌<◌, ◌≤◌, [], ◌∷◌, length, slice_index_or, IfOk};
ghost use Rattle.std.specs.List.{fold};
ghost use Rattle.std.specs.List.Sorted.{IsBinarySearchResult};
ghost use Rattle.std.specs.Ordering.{nat_cmp};
ghost use Rattle.shared_tree.specs.Replaced.{replaced};
ghost use Rattle.plain_text.specs.Numbers.{has, with_number, without_number, turned, flipped, IsRising};

use plain_text::NoMemory;
use shared_tree::{Batch, Tree};
use std::alloc::Global;
use std::cmp::Ordering;
use std::collections::BTreeSet;
use std::marker::Model;

/// A set of numbers, the least first.
#[derive(Drop)]
pub struct NumberSet {
    tree: Tree<Batch<u64>>,
}

impl Model for NumberSet {
    ghost use Rattle.std.specs.Prelude.{ℕ, List};
    ghost use Rattle.std.specs.List.{flat_map};
    ghost use Rattle.plain_text.specs.Numbers.{IsRising};

    ghost Value = { List ℕ };

    ghost view = { λ numbers. flat_map (λ batch. batch) numbers.tree.leaves };

    ghost invariant = { λ numbers. IsRising (flat_map (λ batch. batch) numbers.tree.leaves) };
}

impl NumberSet {
    pub fn new(alloc: Global) -> NumberSet
        ensures { result ≡ [] }
    {
        NumberSet {
            tree: Tree::new(alloc),
        }
    }

    /// The same numbers, shared, in O(1).
    pub fn copy(&self, alloc: Global) -> Result<NumberSet, NoMemory>
        ensures { IfOk result (λ made. made ≡ self.now) }
    {
        Ok(NumberSet {
            tree: self.tree.copy(alloc)?,
        })
    }

    pub fn len(&self) -> u64
        ensures len { result ≡ length self.now }
        ensures rising { IsRising self.now }
    {
        self.tree.len()
    }

    /// In O(log n).
    pub fn at(&self, index: u64) -> u64
        requires { index < length self.now }
        ensures { result ≡ slice_index_or self.now index result }
    {
        let (batch, place) = self.tree.get(index);
        *batch.get(place)
    }

    /// Where the number stands, or where it would go, by O(log d) look-ups with d numbers from there on.
    pub fn search(&self, number: u64) -> Result<u64, u64>
        ensures place { IsBinarySearchResult (λ y. nat_cmp y number) self.now result }
        ensures rising { IsRising self.now }
        ensures few { length self.now < 2 ^ 64 }
    {
        let mut low = 0;
        let mut high = self.len();
        let mut back = 0u64;
        while low < high {
            let middle = place_back(low, high, back);
            back = back.saturating_mul(2).saturating_add(1);
            match self.at(middle).cmp(&number) {
                Ordering::Less => low = middle + 1,
                Ordering::Equal => return Ok(middle),
                Ordering::Greater => high = middle,
            }
        }
        Err(low)
    }

    pub fn has(&self, number: u64) -> bool
        ensures has { result ≡ has self.now number }
        ensures rising { IsRising self.now }
    {
        self.search(number).is_ok()
    }

    /// The numbers and this one, in O(log n) look-ups and a copy of one path.
    pub fn with(&self, alloc: Global, number: u64) -> Result<NumberSet, NoMemory>
        ensures made { IfOk result (λ made. made ≡ with_number self.now number) }
        ensures len { IfOk result (λ made. length made ≤ length self.now + 1) }
        ensures rising { IsRising self.now }
    {
        match self.search(number) {
            Ok(_) => self.copy(alloc),
            Err(at) => self.put(alloc, at, number),
        }
    }

    // No memory holds as many numbers as 64 bits count.
    fn put(&self, alloc: Global, at: u64, number: u64) -> Result<NumberSet, NoMemory>
        requires { IsBinarySearchResult (λ y. nat_cmp y number) self.now (Err at) }
        ensures made { IfOk result (λ made. made ≡ with_number self.now number) }
        ensures len { IfOk result (λ made. length made ≤ length self.now + 1) }
    {
        if self.len() == u64::MAX {
            return Err(NoMemory);
        }
        self.inserted(alloc, at, number)
    }

    fn inserted(&self, alloc: Global, at: u64, number: u64) -> Result<NumberSet, NoMemory>
        requires few { length self.now + 1 < 2 ^ 64 }
        requires place { IsBinarySearchResult (λ y. nat_cmp y number) self.now (Err at) }
        ensures made { IfOk result (λ made. made ≡ with_number self.now number) }
        ensures len { IfOk result (λ made. length made ≤ length self.now + 1) }
    {
        let one = Tree::of_leaf(alloc, Batch::of_one(alloc, number)?)?;
        Ok(NumberSet {
            tree: self.tree.edited(alloc, at, at, &one)?,
        })
    }

    /// The numbers but this one, as `with`.
    pub fn without(&self, alloc: Global, number: u64) -> Result<NumberSet, NoMemory>
        ensures { IfOk result (λ made. made ≡ without_number self.now number) }
    {
        match self.search(number) {
            Ok(at) => self.removed(alloc, at, number),
            Err(_) => self.copy(alloc),
        }
    }

    fn removed(&self, alloc: Global, at: u64, number: u64) -> Result<NumberSet, NoMemory>
        requires few { length self.now < 2 ^ 64 }
        requires place { IsBinarySearchResult (λ y. nat_cmp y number) self.now (Ok at) }
        ensures { IfOk result (λ made. made ≡ without_number self.now number) }
    {
        Ok(NumberSet {
            tree: self.tree.edited(alloc, at, at + 1, &Tree::new(alloc))?,
        })
    }

    /// The numbers but this one where it is among them, and else with it.
    pub fn turned(&self, alloc: Global, number: u64) -> Result<NumberSet, NoMemory>
        ensures made { IfOk result (λ made. made ≡ turned self.now number) }
        ensures rising { IsRising self.now }
    {
        if self.has(number) {
            return self.without(alloc, number);
        }
        self.with(alloc, number)
    }

    /// The numbers that are in exactly one of the two, in O(log n) look-ups and a copy of one path for each of the others.
    pub fn flipped(&self, alloc: Global, others: &[u64]) -> Result<NumberSet, NoMemory>
        ensures made { IfOk result (λ made. made ≡ flipped self.now others.now) }
        ensures rising { IsRising self.now }
    {
        let _count = self.len();
        let mut made = self.copy(alloc)?;
        for number in others {
            made = made.turned(alloc, *number)?;
        }
        Ok(made)
    }

    /// The same, of a whole set.
    #[tactic(auto, using(crate::proofs::FlipLemmas::rising_of_sorted))]
    pub fn flipped_by_set(
        &self,
        alloc: Global,
        others: &BTreeSet<u64>,
    ) -> Result<NumberSet, NoMemory>
        ensures made { IfOk result (λ made. made ≡ flipped self.now others.now.keys) }
        ensures rising { IsRising self.now }
        ensures others_rising { IsRising others.now.keys }
    {
        let _count = (self.len(), others.len());
        let mut made = self.copy(alloc)?;
        for number in others {
            made = made.turned(alloc, *number)?;
        }
        Ok(made)
    }

    /// The numbers and all of these.
    pub fn with_all(&self, alloc: Global, more: &[u64]) -> Result<NumberSet, NoMemory>
        ensures made { IfOk result (λ made. made ≡ fold with_number self.now more.now) }
        ensures len { IfOk result (λ made. length made ≤ length self.now + length more.now) }
    {
        let mut made = self.copy(alloc)?;
        for number in more {
            made = made.with(alloc, *number)?;
        }
        Ok(made)
    }

    /// All of the numbers, in O(n log n).
    pub fn set(&self, alloc: Global) -> Result<BTreeSet<u64>, NoMemory>
        ensures { IfOk result (λ set. set.keys ≡ self.now) }
    {
        let mut set = BTreeSet::new(alloc);
        for index in 0..self.len() {
            set.insert(self.at(index))?;
        }
        Ok(set)
    }
}

// So many places before the last one of what is left to search, and none before its middle.
fn place_back(low: u64, high: u64, back: u64) -> u64
    requires { low < high }
    ensures from { low ≤ result }
    ensures to { result < high }
{
    high - 1 - back.min((high - low) / 2)
}
