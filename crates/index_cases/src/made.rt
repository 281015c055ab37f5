//! Indices of lines, and how two of them are compared.

ghost use Rattle.std.specs.Prelude.{◌≡◌, ◌<◌, IfOk};

use delta_core::{apply, fits, to_units};
use line_index::LineIndex;
use plain_edits::Delta;
use plain_screen::{Piece, TextView};
use plain_text::{NoMemory, Steps, Text};
use rope_tree::Rope;
use std::alloc::Global;
use std::marker::Brand;
use std::sync::ledger::{Blank, Ledger};

// Whether the value was made, and stands the test.
pub(crate) fn passes<T: Drop, F: FnOnce(&T) -> bool>(made: Result<T, NoMemory>, test: F) -> bool
    requires { F.IsAlwaysCallable test }
{
    match made {
        Ok(value) => test(&value),
        Err(_) => false,
    }
}

fn counted<L: Ledger>(
    alloc: Global,
    text: &Text,
    width: u32,
    blank: Blank,
) -> Result<LineIndex, NoMemory>
    requires name { blank.name ≡ L.name }
    requires parts { blank.parts ≡ L.parts }
    requires some { 0 < blank.parts }
    ensures { IfOk result (λ made. made.text ≡ text.now) }
{
    let mut steps = Steps::<L>::new(blank);
    let rope = Rope::of_text(alloc, text)?;
    let made = LineIndex::of_rope(alloc, &rope, width, 4, &mut steps)?;
    Ok(made)
}

pub(crate) fn lines_over(alloc: Global, text: &Text, width: u32) -> Result<LineIndex, NoMemory>
    ensures { IfOk result (λ made. made.text ≡ text.now) }
{
    counted::<Brand>(alloc, text, width, Blank::new(1))
}

pub(crate) fn lines_of(alloc: Global, text: &str, width: u32) -> Result<LineIndex, NoMemory> {
    lines_over(alloc, &Text::from_str(alloc, text)?, width)
}

fn applied<L: Ledger>(
    alloc: Global,
    lines: &LineIndex,
    delta: &Delta,
    blank: Blank,
) -> Result<(LineIndex, Text), NoMemory>
    requires name { blank.name ≡ L.name }
    requires parts { blank.parts ≡ L.parts }
    requires some { 0 < blank.parts }
{
    let text = whole(alloc, lines)?;
    if fits(&text, delta).is_err() {
        return Err(NoMemory);
    }
    let units = to_units(alloc, &text, delta)?;
    let after = apply(alloc, &text, &units)?;
    let _bytes = after.byte_len();
    let rope = lines.rope().edited(alloc, &units)?;
    let mut steps = Steps::<L>::new(blank);
    let made = lines.edited(alloc, &rope, &units, &mut steps)?;
    Ok((made, after))
}

// The lines after an edit of their text, and that text as a plain one.
pub(crate) fn edited(
    alloc: Global,
    lines: &LineIndex,
    delta: &Delta,
) -> Result<(LineIndex, Text), NoMemory> {
    applied::<Brand>(alloc, lines, delta, Blank::new(1))
}

// The text of the lines.
pub(crate) fn whole(alloc: Global, lines: &LineIndex) -> Result<Text, NoMemory>
    ensures { IfOk result (λ text. text ≡ lines.now.text) }
{
    lines.rope().slice(alloc, 0, lines.rope().len())
}

// Whether both have this piece there, at the same places and in the same logical line.
fn have_piece(lines: &LineIndex, others: &LineIndex, i: u64, piece: Piece) -> bool {
    others.line(i) == Some(piece)
        && lines.locate(piece.start) == others.locate(piece.start)
        && lines.locate(piece.end) == others.locate(piece.end)
        && i < lines.lines()
        && i < others.lines()
        && lines.logical_of(i) == others.logical_of(i)
}

fn have_same_pieces(lines: &LineIndex, others: &LineIndex) -> bool {
    for i in 0..others.lines() {
        match lines.line(i) {
            Some(piece) if have_piece(lines, others, i, piece) => {}
            _ => return false,
        }
    }
    lines.lines() == others.lines()
}

// Whether the lines are those of the text, line by line.
pub(crate) fn are_of(
    alloc: Global,
    lines: &LineIndex,
    text: &Text,
    width: u32,
) -> Result<bool, NoMemory> {
    let others = lines_over(alloc, text, width)?;
    let own = whole(alloc, lines)?;
    Ok(own.as_str() == text.as_str() && have_same_pieces(lines, &others))
}
