ghost use Rattle.std.specs.Prelude.{◌≡◌, length, IfOk};
ghost use Rattle.plain_edits.specs.UnitDelta.{IsUnitDelta};
ghost use Rattle.delta_core.specs.Units.{text_after};

use crate::part::Part;
use crate::unit_walk::UnitWalk;
use plain_edits::UnitDelta;
use plain_text::{NoMemory, Text, split_at_gap};
use std::alloc::Global;

/// The text that the unit delta makes of a text. This costs the bytes of the two and the elements of the delta.
pub fn apply(alloc: Global, text: &Text, units: &UnitDelta) -> Result<Text, NoMemory>
    requires well_formed { IsUnitDelta units.now }
    requires base { units.now.base ≡ length text.now }
    ensures { IfOk result (λ made. made ≡ text_after units.now text.now) }
{
    let mut made = Text::new(alloc);
    let mut rest = text.as_str();
    let mut walk = UnitWalk::new(units);
    while !walk.is_empty() {
        match walk.next() {
            Part::Keep(n) => {
                let (front, back) = split_at_gap(rest, n);
                made.push_str(front)?;
                rest = back;
            }
            Part::Drop(n) => rest = split_at_gap(rest, n).1,
            Part::Add(added) => made.push_text(added)?,
        }
    }
    Ok(made)
}
