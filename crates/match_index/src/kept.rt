// What an edit keeps of a text at its ends.
ghost use Rattle.plain_edits.specs.UnitDelta.{IsUnitDelta};
ghost use Rattle.delta_core.specs.UnitStep.{part_steps, steps_of};
ghost use Rattle.match_index.specs.Changed.{KeepsEnds};
ghost use Rattle.match_index.specs.Edited.{IsKeptOf};

use delta_core::{Part, UnitWalk};
use plain_edits::UnitDelta;

/// How many characters the edit keeps in its first part, and how many in its last where that is another one. It walks the parts.
pub(crate) fn kept_ends(units: &UnitDelta) -> (u64, u64)
    requires { IsUnitDelta units.now }
    ensures { KeepsEnds (steps_of units.now) result.0 result.1 }
{
    let mut walk = UnitWalk::new(units);
    if walk.is_empty() {
        return (0, 0);
    }
    let front = kept_in(walk.next());
    let mut back: u64 = 0;
    while !walk.is_empty() {
        back = kept_in(walk.next());
    }
    (front, back)
}

/// How many characters a part keeps.
fn kept_in(part: Part<'_>) -> u64
    ensures { IsKeptOf (part_steps part.entry) result }
{
    match part {
        Part::Keep(n) => n,
        Part::Drop(_) | Part::Add(_) => 0,
    }
}
