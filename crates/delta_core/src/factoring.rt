ghost use Rattle.std.specs.Prelude.{◌≡◌, ◌+◌, ◌<◌, ◌^◌, ◌++◌, length, IfOk, OnOk};
ghost use Rattle.plain_edits.specs.UnitDelta.{IsUnitDelta};
ghost use Rattle.delta_core.specs.Factor.{IsFactored, inserted_flags};
ghost use Rattle.delta_core.specs.UnitStep.{drops};
ghost use Rattle.delta_core.specs.Inner.{base_count, news, part_steps};

use crate::part::Part;
use crate::unit_walk::UnitWalk;
use plain_edits::UnitDelta;
use plain_text::NoMemory;
use std::alloc::Global;
use subset_runs::Subset;

/// What the unit delta drops of its base, and what it inserts in the base with the insertions. This costs the elements of the delta
/// and the bytes that it adds.
pub fn factor(alloc: Global, units: &UnitDelta) -> Result<(Subset, Subset), NoMemory>
    requires well_formed { IsUnitDelta units.now }
    requires bound { length (inserted_flags units.now) < 2 ^ 64 }
    ensures { IfOk result (λ sets. IsFactored units.now sets.0 sets.1) }
{
    let mut dropped = Subset::none(alloc, 0);
    let mut inserted = Subset::none(alloc, 0);
    let mut walk = UnitWalk::new(units);
    while !walk.is_empty() {
        let part = walk.next();
        put_part(&mut dropped, &mut inserted, part)?;
    }
    Ok((dropped, inserted))
}

fn put_part(dropped: &mut Subset, inserted: &mut Subset, part: Part) -> Result<(), NoMemory>
    requires base_room { length dropped.old + base_count (part_steps part) < 2 ^ 64 }
    requires union_room { length inserted.old + length (part_steps part) < 2 ^ 64 }
    ensures dropped { OnOk result (dropped.new ≡ dropped.old ++ drops (part_steps part.entry)) }
    ensures inserted { OnOk result (inserted.new ≡ inserted.old ++ news (part_steps part.entry)) }
{
    match part {
        Part::Keep(n) => {
            dropped.append(n, false)?;
            inserted.append(n, false)?;
        }
        Part::Drop(n) => {
            dropped.append(n, true)?;
            inserted.append(n, false)?;
        }
        Part::Add(text) => inserted.append(text.char_count(), true)?,
    }
    Ok(())
}
