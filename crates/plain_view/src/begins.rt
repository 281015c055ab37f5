ghost use Rattle.std.specs.Prelude.{◌≡◌, IfOk};
ghost use Rattle.std.specs.Str.{chars};
ghost use Rattle.plain_view.specs.Viewed.{begins_of};
ghost use Rattle.plain_screen.specs.View.{ArePieces};

use plain_screen::Piece;
use plain_text::{NoMemory, Offsets, split_at_gap};
use std::alloc::Global;

// The bytes at which the pieces begin, in one walk along the text.
pub(crate) fn begins(alloc: Global, text: &str, pieces: &[Piece]) -> Result<Offsets, NoMemory>
    requires { ArePieces (chars text.now) pieces.now }
    ensures { IfOk result (λ begins. begins ≡ begins_of (chars text.now) pieces.now) }
{
    let mut begins = Offsets::new(alloc);
    let mut gap: u64 = 0;
    let mut begin: u64 = 0;
    let mut rest = text;
    for piece in pieces {
        let (before, after) = split_at_gap(rest, piece.start - gap);
        begin += before.len() as u64;
        gap = piece.start;
        rest = after;
        begins.push(begin)?;
    }
    Ok(begins)
}
