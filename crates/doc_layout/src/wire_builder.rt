ghost use Rattle.std.specs.Prelude.{◌≡◌, ◌<◌, ◌≤◌, List, [], ◌++◌, IfOk, OnOk, OnErr};
ghost use Rattle.plain_edits.specs.declared.delta.El.{El as ElValue};
ghost use Rattle.delta_core.specs.Wire.{copy_before, text_before};
ghost use Rattle.delta_core.specs.Inner.{whole};

use plain_edits::{El, Els};
use plain_text::{NoMemory, Text};
use std::alloc::Global;
use std::marker::Model;
use std::mem;

// The elements of the notices in the making. To a contract it is these elements, and the copy and the text that may still grow.
#[derive(Drop)]
pub(crate) struct WireBuilder {
    alloc: Global,
    els: Els,
    // The copy after them, which may still grow; an empty one is none.
    from: u64,
    to: u64,
    // The text after the copy, which may still grow.
    text: Text,
}

impl Model for WireBuilder {
    ghost use Rattle.std.specs.Prelude.{◌≤◌};
    ghost use Rattle.delta_core.specs.Inner.{Gathered};

    ghost Value = { Gathered };

    ghost view = { λ w. record { els = w.els; from = w.from; to = w.to; text = w.text } };

    ghost invariant = { λ w. w.from ≤ w.to };
}

impl WireBuilder {
    pub(crate) fn new(alloc: Global) -> WireBuilder
        ensures { (ahead : List ElValue) → whole result ahead ≡ ahead }
    {
        WireBuilder {
            alloc,
            els: Els::new(alloc),
            from: 0,
            to: 0,
            text: Text::new(alloc),
        }
    }

    // Puts a copy at the end.
    pub(crate) fn keep(&mut self, from: u64, to: u64) -> Result<(), NoMemory>
        requires { from < to }
        ensures { OnOk result ((ahead : List ElValue) → whole self.new ahead ≡ whole self.old (copy_before from to ahead)) }
    {
        if self.text.is_empty() && self.to == from {
            self.to = to;
            return Ok(());
        }
        let text = mem::replace(&mut self.text, Text::new(self.alloc));
        put_copy(&mut self.els, self.from, self.to)?;
        self.from = from;
        self.to = to;
        put_text(&mut self.els, text)
    }

    // Puts a text at the end.
    pub(crate) fn add(&mut self, text: &Text) -> Result<(), NoMemory>
        ensures { OnOk result ((ahead : List ElValue) → whole self.new ahead ≡ whole self.old (text_before text.now ahead)) }
    {
        self.text.push_text(text)
    }

    pub(crate) fn into_els(self) -> Result<Els, NoMemory>
        ensures { IfOk result (λ els. els ≡ whole self []) }
    {
        let WireBuilder {
            alloc: _,
            mut els,
            from,
            to,
            text,
        } = self;
        put_copy(&mut els, from, to)?;
        put_text(&mut els, text)?;
        Ok(els)
    }
}

// Puts a copy at the end, unless it is empty.
fn put_copy(els: &mut Els, from: u64, to: u64) -> Result<(), NoMemory>
    requires { from ≤ to }
    ensures put { OnOk result (els.new ≡ els.old ++ copy_before from to []) }
    ensures unchanged { OnErr result (els.new ≡ els.old) }
{
    if from < to {
        els.push(El::Copy { a: from, b: to })?;
    }
    Ok(())
}

// Puts a text at the end, unless it is empty.
fn put_text(els: &mut Els, text: Text) -> Result<(), NoMemory>
    ensures put { OnOk result (els.new ≡ els.old ++ text_before text []) }
    ensures unchanged { OnErr result (els.new ≡ els.old) }
{
    if !text.is_empty() {
        els.push(El::Insert { text })?;
    }
    Ok(())
}
