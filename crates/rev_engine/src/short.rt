// An edit in bytes of the text of a rope, in characters: each copy costs the height of the rope, and the text is not walked over.
ghost use Rattle.std.specs.Prelude.{◌≡◌, ◌<◌, Some, [], ◌∷◌, ◌++◌, List, ℕ, IfErr, IfOk, OnOk};
ghost use Rattle.plain_text.specs.declared.run.Run.{Run as RunValue};
ghost use Rattle.plain_text.specs.Text.{gap_at, gap_of, is_place};
ghost use Rattle.plain_edits.specs.declared.delta.Added.{Added as AddedValue};
ghost use Rattle.plain_edits.specs.Delta.{Fits, copy_misfit, insertions, kept_runs, misfit_of};
ghost use Rattle.delta_core.specs.Units.{IsUnitsOf};
ghost use Rattle.rev_engine.specs.Joined.{joined_adds, joined_runs, with_run, with_text};

use plain_edits::{Added, Adds, Delta, El, Misfit, UnitDelta};
use plain_text::{NoMemory, Run, Runs, Steps, Text, TryClone};
use rope_metrics::{Measure, convert};
use rope_tree::Rope;
use std::alloc::Global;
use std::marker::Brand;
use std::sync::ledger::{Blank, Ledger};

// Whether the delta fits the text, or else its first misfit: the base length is looked at first, and then each copy in turn.
pub(crate) fn fits(text: &Rope, delta: &Delta) -> Result<(), Misfit>
    ensures fits { OnOk result (Fits text.now delta.now) }
    ensures misfit { IfErr result (λ misfit. misfit_of text.now delta.now ≡ Some misfit) }
{
    if delta.base_len != text.byte_len() {
        return Err(Misfit {
            kind: 1,
            at: delta.base_len,
        });
    }
    let mut end = 0;
    for el in delta.els.as_slice() {
        if let El::Copy { a, b } = el {
            if let Some(misfit) = copy_misfit(text, end, *a, *b) {
                return Err(misfit);
            }
            end = *b;
        }
    }
    Ok(())
}

// The misfit of one copy, where the copy before it ends at `end`.
fn copy_misfit(text: &Rope, end: u64, a: u64, b: u64) -> Option<Misfit>
    ensures { result ≡ copy_misfit text.now end a b }
{
    if b < a || a < end {
        return Some(Misfit { kind: 2, at: a });
    }
    if text.byte_len() < b {
        return Some(Misfit { kind: 3, at: b });
    }
    if !is_place(text, a) {
        return Some(Misfit { kind: 4, at: a });
    }
    if !is_place(text, b) {
        return Some(Misfit { kind: 4, at: b });
    }
    None
}

fn is_place(text: &Rope, at: u64) -> bool
    ensures { result ≡ is_place text.now at }
{
    gap_at(text, at).is_some()
}

// The gap of a place.
fn gap_of(text: &Rope, at: u64) -> u64
    ensures { result ≡ gap_of text.now at }
{
    gap_at(text, at).unwrap_or(0)
}

// The gap whose place is this byte offset, if the offset is a place.
fn gap_at(text: &Rope, at: u64) -> Option<u64>
    ensures { result ≡ gap_at text.now at }
{
    gap_by::<Brand>(text, at, Blank::new(1))
}

fn gap_by<L: Ledger>(text: &Rope, at: u64, blank: Blank) -> Option<u64>
    requires blank { (blank.name ≡ L.name) × ((blank.parts ≡ L.parts) × (0 < blank.parts)) }
    ensures { result ≡ gap_at text.now at }
{
    let mut steps = Steps::<L>::new(blank);
    convert(text.node(), Measure::Bytes, Measure::Chars, at, &mut steps)
}

// The delta in characters.
pub(crate) fn to_units(alloc: Global, text: &Rope, delta: &Delta) -> Result<UnitDelta, NoMemory>
    requires { Fits text.now delta.now }
    ensures { IfOk result (λ units. IsUnitsOf text.now delta.now units) }
{
    let kept = kept_of(alloc, text, delta.els.as_slice())?;
    let added = added_of(alloc, text, delta.els.as_slice())?;
    Ok(UnitDelta {
        base: text.len(),
        kept,
        added,
    })
}

// The characters that the elements keep.
fn kept_of(alloc: Global, text: &Rope, els: &[El]) -> Result<Runs, NoMemory>
    ensures { IfOk result (λ runs. runs ≡ joined_runs 0 0 (kept_runs text.now els.now)) }
{
    let mut made = Runs::new(alloc);
    let mut from = 0;
    let mut to = 0;
    for el in els {
        if let El::Copy { a, b } = el {
            let start = gap_of(text, *a);
            from = put_run(&mut made, from, to, start)?;
            to = gap_of(text, *b);
        }
    }
    push_run(&mut made, from, to)?;
    Ok(made)
}

// Where the last run starts, when one more starts at `start`.
fn put_run(made: &mut Runs, from: u64, to: u64, start: u64) -> Result<u64, NoMemory>
    ensures { IfOk result (λ next. (end : ℕ) (ahead : List RunValue)
        → made.new ++ joined_runs next end ahead ≡ made.old ++ joined_runs from to (record { start = start; end = end } ∷ ahead)) }
{
    if to < start {
        push_run(made, from, to)?;
        return Ok(start);
    }
    Ok(from)
}

// Puts a run at the end, unless it is empty.
fn push_run(made: &mut Runs, from: u64, to: u64) -> Result<(), NoMemory>
    ensures { OnOk result ((ahead : List RunValue) → made.new ++ ahead ≡ made.old ++ with_run from to ahead) }
{
    if from < to {
        made.push(Run {
            start: from,
            end: to,
        })?;
    }
    Ok(())
}

// The texts that the elements insert.
fn added_of(alloc: Global, text: &Rope, els: &[El]) -> Result<Adds, NoMemory>
    ensures { IfOk result (λ adds. adds ≡ joined_adds 0 [] (insertions text.now 0 els.now)) }
{
    let mut made = Adds::new(alloc);
    let mut gap = 0;
    let mut here = Text::new(alloc);
    let mut at = 0;
    for el in els {
        match el {
            El::Copy { a: _, b } => at = gap_of(text, *b),
            El::Insert { text: more } => {
                here = put_text(alloc, &mut made, gap, here, at, more)?;
                gap = at;
            }
        }
    }
    push_text(&mut made, gap, here)?;
    Ok(made)
}

// The last text, when one more is put in at the gap `at`.
fn put_text(
    alloc: Global,
    made: &mut Adds,
    gap: u64,
    here: Text,
    at: u64,
    more: &Text,
) -> Result<Text, NoMemory>
    ensures { IfOk result (λ next. (ahead : List AddedValue)
        → made.new ++ joined_adds at next ahead ≡ made.old ++ joined_adds gap here (record { gap = at; text = more.now } ∷ ahead)) }
{
    if at == gap {
        let mut longer = here;
        longer.push_text(more)?;
        return Ok(longer);
    }
    push_text(made, gap, here)?;
    more.copy(alloc)
}

// Puts a text at the end, unless it is empty.
fn push_text(made: &mut Adds, gap: u64, text: Text) -> Result<(), NoMemory>
    ensures { OnOk result ((ahead : List AddedValue) → made.new ++ ahead ≡ made.old ++ with_text gap text ahead) }
{
    if !text.is_empty() {
        made.push(Added { gap, text })?;
    }
    Ok(())
}
