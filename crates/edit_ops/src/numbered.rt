ghost use Rattle.std.specs.Prelude.{◌≡◌, ◌≤◌, ◌<◌, length};
ghost use Rattle.plain_screen.specs.View.{ArePieces};
ghost use Rattle.edit_ops.specs.Inner.{IsHeadOf};
ghost use Rattle.edit_ops.specs.Points.{start_of_numbered};

use movement_core::{piece_at, text_end};
use plain_screen::TextView;

/// The gap where a logical line starts, counted from 0; the text's end where there is none. This searches the pieces, and looks at
/// those of each line that it meets.
pub(crate) fn start_of_line<T: TextView>(view: &T, line: u64) -> u64
    ensures value { result ≡ start_of_numbered (T.text_of view.now) line }
    ensures inside { result ≤ length (T.text_of view.now) }
{
    let mut low = 0;
    let mut high = view.lines();
    while low < high {
        let middle = low + (high - low) / 2;
        let head = head_of(view, middle);
        if head.line == line {
            return head.start;
        }
        if head.line < line {
            low = middle + 1;
        } else {
            high = head.index;
        }
    }
    text_end(view)
}

// The first piece of a logical line: its index, the line's number from 0, and the gap where it starts.
#[derive(Clone, Copy)]
struct Head {
    index: u64,
    line: u64,
    start: u64,
}

// The first piece of the logical line that a layout line is of. This looks at the pieces before it.
fn head_of<T: TextView>(view: &T, line: u64) -> Head
    requires inside { line < length (T.pieces_of view.now) }
    requires sound { ArePieces (T.text_of view.now) (T.pieces_of view.now) }
    ensures { IsHeadOf (T.pieces_of view.now) line result }
{
    let mut index = line;
    loop {
        let piece = piece_at(view, index);
        match piece.ln {
            Some(number) => {
                return Head {
                    index,
                    line: number - 1,
                    start: piece.start,
                };
            }
            None => index -= 1,
        }
    }
}
