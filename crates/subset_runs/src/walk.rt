ghost use Rattle.std.specs.Prelude.{◌≡◌, ◌≢◌, ℕ, ◌+◌, ◌↔◌, ◌≤◌, List, [], Bool, length, drop, IsTrue};
ghost use Rattle.subset_runs.specs.Runs.{AreSeparate, EndsAfter, flags_in, next_start};
ghost use Rattle.subset_runs.specs.Inner.{IsRest};
ghost use Rattle.subset_runs.specs.Stretch.{IsFront};

use crate::Stretch;
use std::marker::Model;

/// A walk over a subset from its first position on. To a contract it is the flags that are still ahead.
#[derive(Drop)]
pub struct Walk<'a> {
    /// The runs that end after `at`.
    runs: &'a [(u64, u64)],
    at: u64,
    len: u64,
}

impl<'a> Model for Walk<'a> {
    ghost use Rattle.std.specs.Prelude.{◌-◌, List, Bool};
    ghost use Rattle.subset_runs.specs.Runs.{flags_in, IsAhead};

    ghost Value = { List Bool };

    ghost view = { λ w. flags_in w.runs.now w.at (w.len - w.at) };

    ghost invariant = { λ w. IsAhead w.runs.now w.at w.len };
}

impl<'a> Walk<'a> {
    pub(crate) fn new(runs: &'a [(u64, u64)], len: u64) -> Self
        requires apart { AreSeparate 0 runs.now }
        requires within { next_start 0 runs.now ≤ len + 1 }
        ensures { result ≡ flags_in runs.now 0 len }
    {
        Walk { runs, at: 0, len }
    }

    /// Whether no position is ahead.
    pub fn is_empty(&self) -> bool
        ensures { IsTrue result ↔ (self.now ≡ []) }
    {
        self.at == self.len
    }

    /// The longest stretch at the front, in O(1).
    pub fn front(&self) -> Stretch
        requires { self.now ≢ [] }
        ensures { IsFront self.now result }
    {
        match self.runs.first() {
            Some(&(start, _)) if self.at < start => Stretch {
                len: start - self.at,
                member: false,
            },
            Some(&(_, end)) => Stretch {
                len: end - self.at,
                member: true,
            },
            None => Stretch {
                len: self.len - self.at,
                member: false,
            },
        }
    }

    /// Goes on by `n` positions, in the time of the runs that it passes.
    pub fn skip(&mut self, n: u64)
        requires { n ≤ length self.old }
        ensures { self.new ≡ drop n self.old }
    {
        self.at += n;
        self.runs = rest_after(self.runs, self.at);
    }
}

// The runs that end after `at`.
fn rest_after(runs: &[(u64, u64)], at: u64) -> &[(u64, u64)]
    requires { AreSeparate 0 runs.now }
    ensures rest { IsRest runs.now result.now at }
    ensures ahead { EndsAfter at result.now }
{
    let mut rest = runs;
    while !rest.is_empty() && rest[0].1 <= at {
        rest = &rest[1..];
    }
    rest
}
