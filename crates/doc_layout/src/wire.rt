ghost use Rattle.std.specs.Prelude.{◌≡◌, length, IfOk};
ghost use Rattle.plain_edits.specs.UnitDelta.{IsUnitDelta};
ghost use Rattle.delta_core.specs.Wire.{wire_of};

use crate::texts::place_of;
use crate::wire_builder::WireBuilder;
use delta_core::{Part, UnitWalk};
use plain_edits::{Delta, UnitDelta};
use plain_text::NoMemory;
use rope_tree::Rope;
use std::alloc::Global;

/// The delta of the notices over the text before. This costs the height of the rope for each element of the change, the texts of the
/// elements, and no walk over the text.
pub fn to_wire(alloc: Global, before: &Rope, units: &UnitDelta) -> Result<Delta, NoMemory>
    requires well_formed { IsUnitDelta units.now }
    requires base { units.now.base ≡ length before.now }
    ensures { IfOk result (λ delta. delta ≡ wire_of before.now units.now) }
{
    let base_len = before.byte_len();
    let mut wire = WireBuilder::new(alloc);
    let mut gap: u64 = 0;
    let mut at: u64 = 0;
    let mut walk = UnitWalk::new(units);
    while !walk.is_empty() {
        match walk.next() {
            Part::Keep(n) => {
                gap += n;
                let end = place_of(before, gap);
                wire.keep(at, end)?;
                at = end;
            }
            Part::Drop(n) => {
                gap += n;
                at = place_of(before, gap);
            }
            Part::Add(text) => wire.add(text)?,
        }
    }
    Ok(Delta {
        els: wire.into_els()?,
        base_len,
    })
}
