ghost use Rattle.std.specs.Prelude.{◌≡◌, IfOk};
ghost use Rattle.std.specs.Str.{chars};
ghost use Rattle.plain_screen.specs.View.{whole_lines};

use plain_screen::Piece;
use plain_text::{List, NoMemory};
use std::alloc::Global;

// One piece a logical line.
pub(crate) fn whole_pieces(alloc: Global, text: &str) -> Result<List<Piece>, NoMemory>
    ensures { IfOk result (λ pieces. pieces ≡ whole_lines (chars text.now)) }
{
    let mut pieces = List::new(alloc);
    let mut number: u64 = 1;
    let mut start: u64 = 0;
    let mut end: u64 = 0;
    for c in text.chars() {
        end += 1;
        if c == '\n' {
            pieces.push(Piece {
                start,
                end,
                ln: Some(number),
            })?;
            number += 1;
            start = end;
        }
    }
    pieces.push(Piece {
        start,
        end,
        ln: Some(number),
    })?;
    Ok(pieces)
}
