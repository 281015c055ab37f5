ghost use Rattle.std.specs.Prelude.{◌≡◌, length, IfOk};
ghost use Rattle.plain_edits.specs.UnitDelta.{IsUnitDelta};
ghost use Rattle.delta_core.specs.Wire.{IsWireOf};

use crate::part::Part;
use crate::unit_walk::UnitWalk;
use crate::wire_builder::WireBuilder;
use plain_edits::{Delta, UnitDelta};
use plain_text::{NoMemory, Text, split_at_gap};
use std::alloc::Global;

/// The delta of the notices over the text before: its copies are the longest runs that stand side by side in both texts, and the
/// text between two copies is one insertion. This costs the bytes of the text and the elements of the delta with theirs.
pub fn to_wire(alloc: Global, before: &Text, units: &UnitDelta) -> Result<Delta, NoMemory>
    requires well_formed { IsUnitDelta units.now }
    requires base { units.now.base ≡ length before.now }
    ensures { IfOk result (λ delta. IsWireOf before.now units.now delta) }
{
    let base_len = before.byte_len();
    let mut wire = WireBuilder::new(alloc);
    let mut rest = before.as_str();
    let mut at = 0;
    let mut walk = UnitWalk::new(units);
    while !walk.is_empty() {
        match walk.next() {
            Part::Keep(n) => {
                let (front, back) = split_at_gap(rest, n);
                let end = at + front.len() as u64;
                wire.keep(at, end)?;
                at = end;
                rest = back;
            }
            Part::Drop(n) => {
                let (front, back) = split_at_gap(rest, n);
                at += front.len() as u64;
                rest = back;
            }
            Part::Add(text) => wire.add(text)?,
        }
    }
    Ok(Delta {
        els: wire.into_els()?,
        base_len,
    })
}
