ghost use Rattle.std.specs.Prelude.{◌≡◌, ◌≢◌, ◌<◌, ◌≤◌, ◌↔◌, ℕ, [], ◌∷◌, ◌++◌, length, drop, IsTrue, IfSome, IfNone};
ghost use Rattle.plain_edits.specs.UnitDelta.{IsUnitDelta};
ghost use Rattle.delta_core.specs.Inner.{steps_of, part_steps};
ghost use Rattle.delta_core.specs.Inner.{ReachesPast, IsRestOfKept, IsStretch, Rise, next_stop};

use crate::part::Part;
use plain_edits::{Added, UnitDelta};
use plain_text::{Run, Text};
use std::marker::Model;

/// A walk over a unit delta from the left end of its base on. To a contract it is the steps that are still ahead.
#[derive(Drop)]
pub struct UnitWalk<'a> {
    at: u64,
    base: u64,
    // The runs that end after `at`.
    kept: &'a [Run],
    // The additions at `at` and right of it.
    added: &'a [Added],
}

impl<'a> Model for UnitWalk<'a> {
    ghost use Rattle.std.specs.Prelude.{◌-◌, List};
    ghost use Rattle.plain_edits.specs.Delta.{is_in_runs, text_at_gap};
    ghost use Rattle.delta_core.specs.UnitStep.{UnitStep};
    ghost use Rattle.delta_core.specs.Inner.{steps_from};
    ghost use Rattle.delta_core.specs.Inner.{IsToCome};

    ghost Value = { List UnitStep };

    ghost view = { λ w. steps_from (is_in_runs w.kept.now) (text_at_gap w.added.now) w.at (w.base - w.at) };

    ghost invariant = { λ w. IsToCome w.base w.at w.kept.now w.added.now };
}

impl<'a> UnitWalk<'a> {
    pub fn new(units: &'a UnitDelta) -> UnitWalk<'a>
        requires { IsUnitDelta units.now }
        ensures { result ≡ steps_of units.now }
    {
        UnitWalk {
            at: 0,
            base: units.base,
            kept: runs_after(units.kept.as_slice(), 0),
            added: units.added.as_slice(),
        }
    }

    pub fn is_empty(&self) -> bool
        ensures { IsTrue result ↔ (self.now ≡ []) }
    {
        self.at == self.base && self.added.is_empty()
    }

    /// The next part, which is not empty.
    pub fn next(&mut self) -> Part<'a>
        requires { self.old ≢ [] }
        ensures next { self.old ≡ part_steps result ++ self.new }
        ensures some { 0 < length (part_steps result) }
    {
        match addition_at(self.added, self.at) {
            Some(text) => {
                self.added = &self.added[1..];
                Part::Add(text)
            }
            None => {
                let (kept, end) = next_stretch(self.kept, self.at, next_gap(self.added, self.base));
                let n = end - self.at;
                self.at = end;
                self.kept = runs_after(self.kept, end);
                if kept { Part::Keep(n) } else { Part::Drop(n) }
            }
        }
    }
}

// The text of the first addition, where it is at this gap.
fn addition_at(added: &[Added], gap: u64) -> Option<&Text>
    ensures some { IfSome result (λ text. added.now ≡ record { gap = gap; text = text.now } ∷ drop 1 added.now) }
    ensures none { IfNone result ((base : ℕ) → next_stop base added.now ≡ gap → added.now ≡ []) }
{
    match added.first() {
        Some(first) if first.gap == gap => Some(&first.text),
        _ => None,
    }
}

fn next_gap(added: &[Added], base: u64) -> u64
    ensures { result ≡ next_stop base added.now }
{
    match added.first() {
        Some(first) => first.gap,
        None => base,
    }
}

// Whether the next characters are kept, and where that ends.
fn next_stretch(kept: &[Run], at: u64, stop: u64) -> (bool, u64)
    requires rise { Rise 0 kept.now }
    requires ends { ReachesPast at kept.now }
    requires more { at < stop }
    ensures { IsStretch kept.now at stop result.1 result.0 }
{
    match kept.first() {
        Some(run) if run.start <= at => (true, run.end.min(stop)),
        Some(run) => (false, run.start.min(stop)),
        None => (false, stop),
    }
}

// The runs that end after `at`.
fn runs_after(runs: &[Run], at: u64) -> &[Run]
    ensures rest { IsRestOfKept runs.now result.now at }
    ensures ends { ReachesPast at result.now }
{
    let mut rest = runs;
    while !rest.is_empty() && rest[0].end <= at {
        rest = &rest[1..];
    }
    rest
}
