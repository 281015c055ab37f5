ghost use Rattle.std.specs.Prelude.{◌≡◌, ℕ, ◌<◌, ◌≤◌, List, [], ◌∷◌, ◌++◌, IfOk, OnOk};
ghost use Rattle.plain_edits.specs.declared.delta.El.{El as ElValue};
ghost use Rattle.plain_edits.specs.declared.delta.El.TheVariants.{Copy};
ghost use Rattle.delta_core.specs.Wire.{copy_before};
ghost use Rattle.delta_core.specs.Elements.{fixed_before};
ghost use Rattle.delta_core.specs.Inner.{with_copy};

use crate::wire_builder::put_copy;
use plain_edits::{El, Els};
use plain_text::{NoMemory, Text};
use std::alloc::Global;
use std::marker::Model;
use std::mem;

// The elements of a delta in the making. To a contract it is these elements, the copy that may still grow, and the text of the gap
// where the walk stands.
#[derive(Drop)]
pub(crate) struct DeltaBuilder {
    alloc: Global,
    els: Els,
    // The copy after them, which may still grow; an empty one is none.
    from: u64,
    to: u64,
    // The text of the gap, which may still grow.
    text: Text,
}

impl Model for DeltaBuilder {
    ghost use Rattle.std.specs.Prelude.{◌≤◌};
    ghost use Rattle.delta_core.specs.Inner.{Gathered};

    ghost Value = { Gathered };

    ghost view = { λ d. record { els = d.els; from = d.from; to = d.to; text = d.text } };

    ghost invariant = { λ d. d.from ≤ d.to };
}

impl DeltaBuilder {
    pub(crate) fn new(alloc: Global) -> DeltaBuilder
        ensures els { (ahead : List ElValue) → with_copy result ahead ≡ ahead }
        ensures text { result.text ≡ [] }
    {
        DeltaBuilder {
            alloc,
            els: Els::new(alloc),
            from: 0,
            to: 0,
            text: Text::new(alloc),
        }
    }

    // Puts a copy at the end, after the text of the gap where it starts.
    pub(crate) fn keep(&mut self, from: u64, to: u64) -> Result<(), NoMemory>
        requires { from < to }
        ensures els { OnOk result ((ahead : List ElValue) → with_copy self.new ahead ≡
            with_copy self.old (fixed_before from self.old.text (copy_before from to ahead))) }
        ensures text { OnOk result (self.new.text ≡ []) }
    {
        self.settle(from)?;
        self.reach(from)?;
        self.to = to;
        Ok(())
    }

    // Adds to the text of the gap.
    pub(crate) fn add(&mut self, text: &Text) -> Result<(), NoMemory>
        ensures els { OnOk result ((ahead : List ElValue) → with_copy self.new ahead ≡ with_copy self.old ahead) }
        ensures text { OnOk result (self.new.text ≡ self.old.text ++ text.now) }
    {
        self.text.push_text(text)
    }

    // Puts the text of the gap, whose place this is, at the end.
    pub(crate) fn settle(&mut self, at: u64) -> Result<(), NoMemory>
        ensures els { OnOk result ((ahead : List ElValue) → with_copy self.new ahead ≡
            with_copy self.old (fixed_before at self.old.text ahead)) }
        ensures text { OnOk result (self.new.text ≡ []) }
    {
        if self.text.is_empty() {
            return Ok(());
        }
        self.reach(at)?;
        let text = mem::replace(&mut self.text, Text::new(self.alloc));
        self.els.push(El::Copy {
            a: self.from,
            b: at,
        })?;
        self.els.push(El::Insert { text })?;
        self.from = at;
        Ok(())
    }

    // Has a copy that ends at this place: the one at the end, or else an empty one.
    fn reach(&mut self, at: u64) -> Result<(), NoMemory>
        ensures els { OnOk result ((end : ℕ) (ahead : List ElValue) → with_copy self.new (Copy at end ∷ ahead) ≡
            with_copy self.old (Copy at end ∷ ahead)) }
        ensures to { OnOk result (self.new.to ≡ at) }
        ensures text { OnOk result (self.new.text ≡ self.old.text) }
    {
        if self.to != at {
            put_copy(&mut self.els, self.from, self.to)?;
            self.from = at;
            self.to = at;
        }
        Ok(())
    }

    // The elements, where the text of the last gap, whose place this is, is still to be put.
    pub(crate) fn into_els(mut self, at: u64) -> Result<Els, NoMemory>
        ensures { IfOk result (λ els. els ≡ with_copy self (fixed_before at self.text [])) }
    {
        self.settle(at)?;
        let DeltaBuilder {
            alloc: _,
            mut els,
            from,
            to,
            text: _,
        } = self;
        put_copy(&mut els, from, to)?;
        Ok(els)
    }
}
