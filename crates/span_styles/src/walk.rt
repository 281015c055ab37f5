ghost use Rattle.std.specs.Prelude.{◌≡◌, ◌≢◌, ◌+◌, ◌-◌, ◌^◌, ◌<◌, ◌≤◌, ◌↔◌, [], ◌++◌, length, take, drop, IsTrue, OnOk};
ghost use Rattle.span_styles.specs.Inner.{AreStyleRuns, IsAhead, IsRestAt, IsStyleFront, layer_of};

use crate::run::{Stretch, StyleRun, StyleRuns};
use plain_text::NoMemory;
use std::marker::Model;

/// A walk over a layer. To a contract it is the layer of the characters that are still ahead.
#[derive(Drop)]
pub(crate) struct RunWalk<'a> {
    at: u64,
    /// The runs that end after `at`.
    runs: &'a [StyleRun],
}

impl<'a> Model for RunWalk<'a> {
    ghost use Rattle.plain_edits.specs.Styles.{Layer};
    ghost use Rattle.span_styles.specs.Inner.{IsAhead, layer_of};

    ghost Value = { Layer };

    ghost view = { λ w. layer_of w.at w.runs.now };

    ghost invariant = { λ w. IsAhead w.at w.runs.now };
}

impl<'a> RunWalk<'a> {
    pub(crate) fn new(runs: &'a [StyleRun], at: u64) -> RunWalk<'a>
        requires { IsAhead at runs.now }
        ensures { result ≡ layer_of at runs.now }
    {
        RunWalk { at, runs }
    }

    pub(crate) fn is_empty(&self) -> bool
        ensures { IsTrue result ↔ (self.now ≡ []) }
    {
        self.runs.is_empty()
    }

    /// The longest stretch at the front, in O(1).
    pub(crate) fn front(&self) -> Stretch
        requires { self.now ≢ [] }
        ensures { IsStyleFront self.now result }
    {
        let run = self.runs[0];
        Stretch {
            len: run.end - self.at,
            style: run.style,
        }
    }

    /// Goes on by `n` characters, in the time of the runs that it passes.
    pub(crate) fn skip(&mut self, n: u64)
        requires { n ≤ length self.old }
        ensures { self.new ≡ drop n self.old }
    {
        let from = self.at;
        self.at += n;
        self.runs = runs_past(self.runs, from, self.at);
    }

    /// Goes on by `n` characters, and puts them at the end of a layer.
    pub(crate) fn take_into(&mut self, n: u64, made: &mut StyleRuns) -> Result<(), NoMemory>
        requires within { n ≤ length self.old }
        requires room { length made.old + n < 2 ^ 64 }
        ensures taken { OnOk result (made.new ≡ made.old ++ take n self.old) }
        ensures ahead { OnOk result (self.new ≡ drop n self.old) }
    {
        let mut left = n;
        while left > 0 {
            let front = self.front();
            let len = front.len.min(left);
            made.push(len, front.style)?;
            self.skip(len);
            left -= len;
        }
        Ok(())
    }
}

// The runs that end after `at`, where the first one starts at `from`.
fn runs_past(runs: &[StyleRun], from: u64, at: u64) -> &[StyleRun]
    requires runs { AreStyleRuns from runs.now }
    requires ahead { from ≤ at }
    ensures { IsRestAt at (drop (at - from) (layer_of from runs.now)) result.now }
{
    let mut rest = runs;
    while !rest.is_empty() && rest[0].end <= at {
        rest = &rest[1..];
    }
    rest
}
