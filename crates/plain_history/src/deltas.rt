//! What a delta says over a base text: its first misfit, what it keeps, and what it adds.

ghost use Rattle.std.specs.Prelude.{◌≡◌, ℕ, ◌+◌, ◌≤◌, ◌^◌, IfOk};
ghost use Rattle.plain_text.specs.Text.{is_place, gap_of};
ghost use Rattle.plain_edits.specs.Delta.{copy_misfit, copies_misfit, misfit_of, kept_runs, insertions, is_in_runs, text_at_gap};
ghost use Rattle.plain_edits.specs.Delta.{inserted_len};

use plain_edits::{Added, Adds, Delta, El, Misfit};
use plain_text::{List, NoMemory, Run, Runs, Text, TryClone};
use std::alloc::Global;

/// Whether the byte offset is a place of the text.
fn is_place(text: &Text, at: u64) -> bool
    ensures { result ≡ is_place text.now at }
{
    text.gap_at(at).is_some()
}

/// The misfit of the copy from `a` to `b`, where the copy before it ends at `end`.
fn copy_misfit(text: &Text, end: u64, a: u64, b: u64) -> Option<Misfit>
    ensures { result ≡ copy_misfit text.now end a b }
{
    if b < a || a < end {
        Some(Misfit { kind: 2, at: a })
    } else if text.byte_len() < b {
        Some(Misfit { kind: 3, at: b })
    } else if !is_place(text, a) {
        Some(Misfit { kind: 4, at: a })
    } else if !is_place(text, b) {
        Some(Misfit { kind: 4, at: b })
    } else {
        None
    }
}

/// The first misfit of a copy.
fn copies_misfit(text: &Text, els: &[El]) -> Option<Misfit>
    ensures { result ≡ copies_misfit text.now 0 els.now }
{
    let mut end = 0;
    for el in els {
        if let El::Copy { a, b } = el {
            let found = copy_misfit(text, end, *a, *b);
            if found.is_some() {
                return found;
            }
            end = *b;
        }
    }
    None
}

/// The first fault of a delta over a text, and `None` exactly where it fits.
pub fn misfit(text: &Text, delta: &Delta) -> Option<Misfit>
    ensures { result ≡ misfit_of text.now delta.now }
{
    if delta.base_len == text.byte_len() {
        copies_misfit(text, delta.els.as_slice())
    } else {
        Some(Misfit {
            kind: 1,
            at: delta.base_len,
        })
    }
}

/// The gap whose place is this byte offset, which is a place.
fn gap_of(text: &Text, at: u64) -> u64
    ensures { result ≡ gap_of text.now at }
{
    text.gap_at(at).unwrap_or(0)
}

/// The characters that the copies keep, as runs.
pub fn kept_runs(alloc: Global, text: &Text, els: &[El]) -> Result<Runs, NoMemory>
    ensures { IfOk result (λ made. made ≡ kept_runs text.now els.now) }
{
    let mut made = List::new(alloc);
    for el in els {
        if let El::Copy { a, b } = el {
            made.push(Run {
                start: gap_of(text, *a),
                end: gap_of(text, *b),
            })?;
        }
    }
    Ok(made)
}

/// The insertions, each at the gap where the last copy before it ends.
pub fn insertions(alloc: Global, text: &Text, els: &[El]) -> Result<Adds, NoMemory>
    ensures { IfOk result (λ made. made ≡ insertions text.now 0 els.now) }
{
    let mut made = List::new(alloc);
    let mut gap = 0;
    for el in els {
        match el {
            El::Copy { a: _, b } => gap = gap_of(text, *b),
            El::Insert { text: added } => made.push(Added {
                gap,
                text: added.copy(alloc)?,
            })?,
        }
    }
    Ok(made)
}

/// Whether the character with this index is in one of the runs.
pub fn is_in_runs(runs: &[Run], index: u64) -> bool
    ensures { result ≡ is_in_runs runs.now index }
{
    runs.iter().any(|run| run.start <= index && index < run.end)
}

/// The texts that are added at a gap, joined in their order.
pub fn text_at_gap(alloc: Global, adds: &[Added], gap: u64) -> Result<Text, NoMemory>
    ensures { IfOk result (λ made. made ≡ text_at_gap adds.now gap) }
{
    let mut made = Text::new(alloc);
    for added in adds {
        if added.gap == gap {
            made.push_text(&added.text)?;
        }
    }
    Ok(made)
}
