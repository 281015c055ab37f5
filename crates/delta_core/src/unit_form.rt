ghost use Rattle.std.specs.Prelude.{◌≡◌, [], ◌∷◌, None, IfOk, IsTrue};
ghost use Rattle.plain_text.specs.Text.{gap_of, is_place};
ghost use Rattle.plain_edits.specs.Delta.{Fits, copies_misfit};
ghost use Rattle.delta_core.specs.Units.{IsUnitsOf};
ghost use Rattle.delta_core.specs.Inner.{PutsElement};

use crate::unit_builder::UnitBuilder;
use plain_edits::{Delta, El, UnitDelta};
use plain_text::{NoMemory, Text};
use std::alloc::Global;

/// The delta in characters. This costs the bytes of the text and the elements of the delta with theirs.
pub fn to_units(alloc: Global, text: &Text, delta: &Delta) -> Result<UnitDelta, NoMemory>
    requires { Fits text.now delta.now }
    ensures { IfOk result (λ units. IsUnitsOf text.now delta.now units) }
{
    let mut units = UnitBuilder::new(alloc);
    let mut at = 0;
    for el in delta.els.as_slice() {
        at = put_el(&mut units, text, at, el)?;
    }
    units.pass(text.gaps_between(at, text.byte_len()))?;
    Ok(units.into_units()?)
}

// Puts an element in, where the copy before it ends at `at`, which is the end of the base so far.
fn put_el(units: &mut UnitBuilder, text: &Text, at: u64, el: &El) -> Result<u64, NoMemory>
    requires place { IsTrue (is_place text.now at) }
    requires base { units.old.base ≡ gap_of text.now at }
    requires fits { copies_misfit text.now at (el.now ∷ []) ≡ None }
    ensures { IfOk result (PutsElement text.now at el.now units.old units.new) }
{
    match el {
        El::Copy { a, b } => {
            units.pass(text.gaps_between(at, *a))?;
            units.keep(text.gaps_between(*a, *b))?;
            Ok(*b)
        }
        El::Insert { text: added } => {
            units.add(added.as_str())?;
            Ok(at)
        }
    }
}
