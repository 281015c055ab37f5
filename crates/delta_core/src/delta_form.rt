ghost use Rattle.std.specs.Prelude.{◌≡◌, length, IfOk};
ghost use Rattle.plain_edits.specs.UnitDelta.{IsUnitDelta};
ghost use Rattle.delta_core.specs.Elements.{IsDeltaOf};

use crate::delta_builder::DeltaBuilder;
use crate::part::Part;
use crate::unit_walk::UnitWalk;
use plain_edits::{Delta, UnitDelta};
use plain_text::{NoMemory, Text, split_at_gap};
use std::alloc::Global;

/// The delta over the text that says the same, element for element: the text of each gap stands at that gap, after an empty copy where
/// no other copy ends there. (`to_wire` joins the texts between two copies.) This costs the bytes of the text and the elements of
/// the delta with theirs.
pub fn to_delta(alloc: Global, text: &Text, units: &UnitDelta) -> Result<Delta, NoMemory>
    requires well_formed { IsUnitDelta units.now }
    requires base { units.now.base ≡ length text.now }
    ensures { IfOk result (λ delta. IsDeltaOf text.now units.now delta) }
{
    let base_len = text.byte_len();
    let mut delta = DeltaBuilder::new(alloc);
    let mut rest = text.as_str();
    let mut at = 0;
    let mut walk = UnitWalk::new(units);
    while !walk.is_empty() {
        match walk.next() {
            Part::Keep(n) => {
                let (front, back) = split_at_gap(rest, n);
                let end = at + front.len() as u64;
                delta.keep(at, end)?;
                at = end;
                rest = back;
            }
            Part::Drop(n) => {
                let (front, back) = split_at_gap(rest, n);
                delta.settle(at)?;
                at += front.len() as u64;
                rest = back;
            }
            Part::Add(added) => delta.add(added)?,
        }
    }
    Ok(Delta {
        els: delta.into_els(at)?,
        base_len,
    })
}
