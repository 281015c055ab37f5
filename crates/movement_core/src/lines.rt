ghost use Rattle.std.specs.Prelude.{◌≡◌, ◌<◌, Some, length, slice_get, IfOk};
ghost use Rattle.plain_screen.specs.View.{line_under};
ghost use Rattle.movement_core.specs.Lines.{IsLastGap, IsTextOf};

use plain_screen::{Piece, TextView};
use plain_text::{NoMemory, Text};
use std::alloc::Global;

/// A logical line: the gap where it starts, and its characters.
#[derive(Drop)]
pub struct LineText {
    pub start: u64,
    pub text: Text,
}

/// The piece with this index, which is there.
pub fn piece_at<T: TextView>(view: &T, line: u64) -> Piece
    requires { line < length (T.pieces_of view.now) }
    ensures { slice_get (T.pieces_of view.now) line ≡ Some result }
{
    match view.line(line) {
        Some(piece) => piece,
        None => unreachable!(),
    }
}

/// How many characters the text has.
pub fn text_end<T: TextView>(view: &T) -> u64
    ensures { result ≡ length (T.text_of view.now) }
{
    piece_at(view, view.lines() - 1).end
}

/// The greatest gap of a layout line.
pub fn last_gap<T: TextView>(view: &T, line: u64) -> u64
    requires { line < length (T.pieces_of view.now) }
    ensures { IsLastGap (T.text_of view.now) (T.pieces_of view.now) line result }
{
    let lines = view.lines();
    if line + 1 == lines {
        piece_at(view, line).end
    } else {
        piece_at(view, line + 1).start - 1
    }
}

/// The logical line that a layout line is of, with its LF. This copies its text.
pub fn line_text<T: TextView>(alloc: Global, view: &T, line: u64) -> Result<LineText, NoMemory>
    requires { line < length (T.pieces_of view.now) }
    ensures { IfOk result (IsTextOf (line_under (T.text_of view.now) (T.pieces_of view.now) line)) }
{
    let own = view.logical_of(line);
    let text = view.text(alloc, own.start, own.end)?;
    Ok(LineText {
        start: own.start,
        text,
    })
}
