// Which lines an edit touches: those from its first change to its last.
ghost use Rattle.std.specs.Prelude.{◌≡◌, ◌+◌, ◌^◌, ◌<◌, ◌++◌, ◌≢◌, [], List, length};
ghost use Rattle.plain_edits.specs.UnitDelta.{IsUnitDelta};
ghost use Rattle.delta_core.specs.UnitStep.{UnitStep, part_steps, steps_of};
ghost use Rattle.delta_core.specs.Inner.{base_count};
ghost use Rattle.delta_core.specs.Units.{text_after};
ghost use Rattle.line_index.specs.Inner.{start_or, AreChanges, HasLines, IsSeen, IsTouched};

use crate::offsets::{lf_count, line_at};
use delta_core::{Part, UnitWalk};
use plain_edits::UnitDelta;
use plain_text::Run;
use rope_tree::Rope;

/// The logical lines that an edit touches: in the text before those from one index up to another, and in the text after those from the same
/// index up to a third.
#[derive(Clone, Copy)]
pub(crate) struct Touched {
    pub from: u64,
    pub old: u64,
    pub new: u64,
}

/// The lines from that of the first change to that of the last.
pub(crate) fn touched_lines(before: &Rope, after: &Rope, units: &UnitDelta) -> Touched
    requires well_formed { IsUnitDelta units.now }
    requires base { units.now.base ≡ length before.now }
    requires leads { after.now ≡ text_after units.now before.now }
    requires short { length before.now < 2 ^ 63 }
    requires short_after { length after.now < 2 ^ 63 }
    ensures { HasLines units.now before.now after.now result.from result.old result.new }
{
    let run = changed_run(units);
    let from = line_at(before, run.start);
    let old = line_at(before, run.end) + 1;
    let new = lf_count(after) + old - lf_count(before);
    Touched { from, old, new }
}

/// The run of the base from the first change to the last; where nothing changes, the first gap.
fn changed_run(units: &UnitDelta) -> Run
    requires well_formed { IsUnitDelta units.now }
    requires small { units.now.base < 2 ^ 64 }
    ensures { IsTouched (steps_of units.now) result }
{
    let mut seen = Seen {
        at: 0,
        changed: None,
    };
    let mut walk = UnitWalk::new(units);
    while !walk.is_empty() {
        seen = seen.after(walk.next());
    }
    seen.run()
}

/// An edit, as far as it was walked: up to which gap of its base, and the run from its first change to its last.
#[derive(Clone, Copy)]
struct Seen {
    at: u64,
    changed: Option<Run>,
}

impl Seen {
    /// What is seen with one part more.
    fn after(self, part: Part<'_>) -> Seen
        requires { self.at + base_count (part_steps part) < 2 ^ 64 }
        ensures seen { (done : List UnitStep) → part_steps part.entry ≢ [] → IsSeen done self.changed self.at
            → IsSeen (done ++ part_steps part.entry) result.changed result.at }
        ensures at { result.at ≡ self.at + base_count (part_steps part.entry) }
    {
        match part {
            Part::Keep(n) => Seen {
                at: self.at + n,
                changed: self.changed,
            },
            Part::Drop(n) => self.changed_to(self.at + n),
            Part::Add(_) => self.changed_to(self.at),
        }
    }

    /// What is seen with a change more, up to this gap.
    fn changed_to(self, to: u64) -> Seen
        ensures seen { (done part : List UnitStep) → part ≢ [] → AreChanges part → self.at + base_count part ≡ to
            → IsSeen done self.changed self.at → IsSeen (done ++ part) result.changed result.at }
        ensures at { result.at ≡ to }
    {
        Seen {
            at: to,
            changed: Some(Run {
                start: self.start(),
                end: to,
            }),
        }
    }

    fn start(self) -> u64
        ensures { result ≡ start_or self.changed self.at }
    {
        match self.changed {
            Some(run) => run.start,
            None => self.at,
        }
    }

    fn run(self) -> Run
        ensures { (done : List UnitStep) → IsSeen done self.changed self.at → IsTouched done result }
    {
        match self.changed {
            Some(run) => run,
            None => Run { start: 0, end: 0 },
        }
    }
}
