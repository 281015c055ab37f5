ghost use Rattle.std.specs.Prelude.{◌≡◌, ℕ, ◌+◌, ◌^◌, ◌<◌, ◌≤◌, List, Bool, length};
ghost use Rattle.subset_runs.specs.Subset.{contains};
ghost use Rattle.line_cache.specs.Ahead.{IsLeftOf};

use std::marker::Model;
use subset_runs::{Stretch, Subset, Walk};

/// A walk over old lines. To a contract it is how many of them are done with, and which of the others are valid.
#[derive(Drop)]
pub(crate) struct OldLines<'a> {
    done: u64,
    ahead: Walk<'a>,
}

impl<'a> Model for OldLines<'a> {
    ghost use Rattle.std.specs.Prelude.{◌+◌, ◌<◌, ◌^◌, length};
    ghost use Rattle.line_cache.specs.Ahead.{Ahead};

    ghost Value = { Ahead };

    ghost view = { λ o. record { done = o.done; truths = o.ahead } };

    ghost invariant = { λ o. o.done + length o.ahead < 2 ^ 64 };
}

impl<'a> OldLines<'a> {
    /// All of them, in O(1).
    pub(crate) fn new(lines: &'a Subset) -> OldLines<'a>
        ensures start { result.done ≡ 0 }
        ensures all { result.truths ≡ lines.now }
        ensures bound { length lines.now < 2 ^ 64 }
    {
        OldLines {
            done: 0,
            ahead: lines.walk(),
        }
    }

    /// The lines from one on that are all valid, or all not; those before it are done with then. It takes the time of the runs that it
    /// passes.
    pub(crate) fn stretch_from(&mut self, old: u64) -> Stretch
        requires ahead { self.old.done ≤ old }
        requires inside { old < self.old.done + length self.old.truths }
        ensures done { self.new.done ≡ old }
        ensures left { (all : List Bool) → IsLeftOf all self.old → IsLeftOf all self.new }
        ensures some { 0 < result.len }
        ensures same { (all : List Bool) → IsLeftOf all self.old → (k : ℕ) → k < result.len → contains all (old + k) ≡ result.member }
    {
        self.ahead.skip(old - self.done);
        self.done = old;
        self.ahead.front()
    }
}
