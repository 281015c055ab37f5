ghost use Rattle.std.specs.Prelude.{◌≡◌, ◌+◌, IfOk, ◌∷◌, []};
ghost use Rattle.std.specs.Str.{chars};
ghost use Rattle.line_break.specs.Breaks.{breaks_of};
ghost use Rattle.line_break.specs.Test.{AreBreaks, AreBreaksFrom};

use crate::line::Line;
use plain_text::{NoMemory, Offsets, Steps, Text};
use std::alloc::Global;
use std::sync::ledger::Ledger;

/// The ends of the pieces of one logical line, in characters, at this width and tab width. Want of memory is its only error.
///
/// It makes one tick, and takes the time of the line and memory for its answer.
pub fn breaks<L: Ledger>(
    alloc: Global,
    line: &Text,
    width: u32,
    tab: u32,
    steps: &mut Steps<L>,
) -> Result<Offsets, NoMemory>
    ensures test { IfOk result (AreBreaks width tab line.now) }
    ensures value { IfOk result (λ ends. ends ≡ breaks_of width tab line.now) }
    ensures tick { steps.new ≡ steps.old + 1 }
{
    steps.tick();
    let text = line.as_str();
    cut(
        alloc,
        &Line {
            text,
            len: line.char_count(),
            width,
            tab,
        },
    )
}

/// The ends of the pieces of the line.
fn cut(alloc: Global, line: &Line<'_>) -> Result<Offsets, NoMemory>
    ensures { IfOk result (AreBreaks line.now.width line.now.tab (chars line.now.text.now)) }
{
    if line.width == 0 {
        return whole(alloc, line.len);
    }
    if line.len == 0 {
        return whole(alloc, line.len);
    }
    wrapped(alloc, line)
}

/// The one end of a line that is not cut.
fn whole(alloc: Global, len: u64) -> Result<Offsets, NoMemory>
    ensures { IfOk result (λ ends. ends ≡ len ∷ []) }
{
    let mut ends = Vec::new(alloc);
    ends.push(len)?;
    Ok(Offsets::from_vec(ends))
}

/// The ends of the pieces, one after the other.
fn wrapped(alloc: Global, line: &Line<'_>) -> Result<Offsets, NoMemory>
    ensures { IfOk result (AreBreaksFrom line.now.width line.now.tab (chars line.now.text.now) 0) }
{
    let mut ends = Vec::new(alloc);
    let mut at = line.start();
    while let Some(next) = line.next_piece(&at) {
        ends.push(next.end)?;
        at = line.plain_pieces(next, &mut ends)?;
    }
    Ok(Offsets::from_vec(ends))
}
