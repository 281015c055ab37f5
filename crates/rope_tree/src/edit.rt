// A rope under a unit delta.
ghost use Rattle.std.specs.Prelude.{◌≡◌, ◌+◌, ◌^◌, ◌<◌, ◌≤◌, ◌++◌, [], length, IfOk, IfSome, IsTrue};
ghost use Rattle.plain_text.specs.Text.{byte_len};
ghost use Rattle.plain_edits.specs.UnitDelta.{IsUnitDelta};
ghost use Rattle.delta_core.specs.Units.{text_after};
ghost use Rattle.shared_tree.specs.Replaced.{replaced};

use crate::Rope;
use delta_core::{Part, UnitWalk};
use plain_edits::UnitDelta;
use plain_text::{NoMemory, Text};
use std::alloc::Global;

impl Rope {
    /// What the unit delta makes of the rope: all that it keeps is shared. This costs O(height) for each part of the delta, and the
    /// characters that it adds.
    pub fn edited(&self, alloc: Global, units: &UnitDelta) -> Result<Rope, NoMemory>
        requires well_formed { IsUnitDelta units.now }
        requires base { units.now.base ≡ length self.now }
        requires fits { byte_len (text_after units.now self.now) < 2 ^ 64 }
        ensures { IfOk result (λ made. made ≡ text_after units.now self.now) }
    {
        match self.changed(alloc, units)? {
            Some(made) => Ok(made),
            None => self.gathered(alloc, units),
        }
    }

    /// Each change is made where it stands, one after the other. `None` where a text on the way would have too many bytes, since what
    /// comes later may still drop some.
    fn changed(&self, alloc: Global, units: &UnitDelta) -> Result<Option<Rope>, NoMemory>
        requires well_formed { IsUnitDelta units.now }
        requires base { units.now.base ≡ length self.now }
        ensures { IfOk result (λ made. IfSome made (λ rope. rope ≡ text_after units.now self.now)) }
    {
        let _bytes = self.byte_len();
        let mut rope = self.copy(alloc)?;
        let mut at: u64 = 0;
        let mut walk = UnitWalk::new(units);
        while !walk.is_empty() {
            match walk.next() {
                Part::Keep(n) => at += n,
                Part::Drop(n) => rope = rope.without(alloc, at, at + n)?,
                Part::Add(text) => {
                    if !rope.has_room(text) {
                        return Ok(None);
                    }
                    rope = rope.with_text(alloc, at, text)?;
                    at += text.char_count();
                }
            }
        }
        Ok(Some(rope))
    }

    /// What is kept is cut out and joined, so that each text on the way is a front of the result.
    fn gathered(&self, alloc: Global, units: &UnitDelta) -> Result<Rope, NoMemory>
        requires well_formed { IsUnitDelta units.now }
        requires base { units.now.base ≡ length self.now }
        requires fits { byte_len (text_after units.now self.now) < 2 ^ 64 }
        ensures { IfOk result (λ made. made ≡ text_after units.now self.now) }
    {
        let mut made = Rope::empty(alloc);
        let mut rest = self.copy(alloc)?;
        let mut walk = UnitWalk::new(units);
        while !walk.is_empty() {
            match walk.next() {
                Part::Keep(n) => {
                    made = made.joined(alloc, &rest.front(alloc, n)?)?;
                    rest = rest.back(alloc, n)?;
                }
                Part::Drop(n) => rest = rest.back(alloc, n)?,
                Part::Add(text) => made = made.joined(alloc, &Rope::of_text(alloc, text)?)?,
            }
        }
        Ok(made)
    }

    /// Whether the bytes of both fit 64 bits.
    fn has_room(&self, text: &Text) -> bool
        ensures { IsTrue result → byte_len self.now + byte_len text.now < 2 ^ 64 }
    {
        self.byte_len().checked_add(text.byte_len()).is_some()
    }

    fn without(&self, alloc: Global, from: u64, to: u64) -> Result<Rope, NoMemory>
        requires ordered { from ≤ to }
        requires inside { to ≤ length self.now }
        ensures { IfOk result (λ made. made ≡ replaced self.now from to []) }
    {
        let _bytes = self.byte_len();
        self.replaced(alloc, from, to, &Text::new(alloc))
    }

    fn with_text(&self, alloc: Global, at: u64, text: &Text) -> Result<Rope, NoMemory>
        requires inside { at ≤ length self.now }
        requires fits { byte_len self.now + byte_len text.now < 2 ^ 64 }
        ensures { IfOk result (λ made. made ≡ replaced self.now at at text.now) }
    {
        self.replaced(alloc, at, at, text)
    }
}
