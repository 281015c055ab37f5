ghost use Rattle.std.specs.Prelude.{◌≡◌, ℕ, ◌-◌, ◌<◌, ◌≤◌, ◌++◌, Bool, List, [], length, take, drop, IfOk, IfSome, IsTrue};
ghost use Rattle.shared_tree.specs.Laws.{Adds, Sums};
ghost use Rattle.shared_tree.specs.Replaced.{replaced};

use std::alloc::{AllocError, Global};

/// What each node keeps of the items below it: a sum, as the number of its items, characters, bytes.
pub trait Summary: Drop {
    ghost zero: { Self };

    ghost plus: { Self → Self → Self };

    // every number of it fits its place
    ghost fits: { Self → Bool };

    // how many items it is of
    ghost count: { Self → ℕ };

    fn zero() -> Self
        ensures { result ≡ zero };

    fn plus(&self, other: &Self) -> Self
        requires { IsTrue (fits (plus self.now other.now)) }
        ensures { result ≡ plus self.now other.now };

    fn count(&self) -> u64
        ensures { result ≡ count self.now };

    ghost adds: { Adds zero plus fits count };
}

/// A few items that stand side by side. How many is its own affair: two are `glued` where they fit into one.
pub trait Leaf: Drop {
    type Item;

    type Sum: Summary;

    ghost items: { Self → List Self.Item };

    // the sum of a list of items
    ghost summed: { List Self.Item → Self.Sum };

    /// How many items, in O(1).
    fn len(&self) -> u64
        ensures { result ≡ length (items self.now) };

    fn summary(&self) -> Self::Sum
        requires { IsTrue (Self.Sum.fits (summed (items self.now))) }
        ensures { result ≡ summed (items self.now) };

    /// The items from one index up to another.
    fn part(&self, alloc: Global, from: u64, to: u64) -> Result<Self, AllocError>
        requires some { from < to }
        requires inside { to ≤ length (items self.now) }
        ensures { IfOk result (λ part. items part ≡ take (to - from) (drop from (items self.now))) };

    /// Both, one after the other, where they fit into one leaf.
    fn glued(&self, alloc: Global, other: &Self) -> Result<Option<Self>, AllocError>
        ensures { IfOk result (λ both. IfSome both (λ leaf. items leaf ≡ items self.now ++ items other.now)) };

    /// The items with those from one index up to another replaced by another leaf's, where all fit into one leaf.
    fn spliced(
        &self,
        alloc: Global,
        from: u64,
        to: u64,
        other: &Self,
    ) -> Result<Option<Self>, AllocError>
        requires ordered { from ≤ to }
        requires inside { to ≤ length (items self.now) }
        ensures { IfOk result (λ made. IfSome made (λ leaf. items leaf
            ≡ replaced (items self.now) from to (items other.now))) };

    /// The items without those from one index up to another.
    fn without(&self, alloc: Global, from: u64, to: u64) -> Result<Self, AllocError>
        requires ordered { from ≤ to }
        requires inside { to ≤ length (items self.now) }
        ensures { IfOk result (λ leaf. items leaf ≡ replaced (items self.now) from to []) };

    ghost sums: { Sums summed Self.Sum.zero Self.Sum.plus Self.Sum.count };
}

/// One number of a summary, by which a tree is searched.
pub trait Measure<I: Summary> {
    ghost width: { Self → I → ℕ };

    fn width(&self, summary: &I) -> u64
        ensures { result ≡ width self.now summary.now };

    ghost starts: { (measure : Self) → width measure I.zero ≡ 0 };
}

/// How many items.
#[derive(Clone, Copy)]
pub struct Count;

impl<I: Summary> Measure<I> for Count {
    ghost width = { λ _ summary. I.count summary };

    ghost starts = { λ _. I.adds.none };

    fn width(&self, summary: &I) -> u64 {
        summary.count()
    }
}
