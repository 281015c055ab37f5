ghost use Rattle.std.specs.Prelude.{◌≡◌, ℕ, ◌<◌, ◌≤◌, List, length, IfOk, slice_get, slice_range};
ghost use Rattle.plain_screen.specs.declared.piece.Piece.{Piece as PieceValue};
ghost use Rattle.plain_screen.specs.View.{ArePieces, extent_of, layout_line_of, line_under};

use crate::piece::Piece;
use plain_text::{NoMemory, Run, Text};
use std::alloc::Global;

/// A text that is cut into the lines of a layout. Who goes over lines, as a motion does, needs no more of a document.
pub trait TextView {
    ghost text_of: { Self → List ℕ };

    ghost pieces_of: { Self → List PieceValue };

    /// How many pieces there are.
    fn lines(&self) -> u64
        ensures count { result ≡ length (pieces_of self.now) }
        ensures sound { ArePieces (text_of self.now) (pieces_of self.now) };

    /// The piece with this index; `None` exactly where there is none.
    fn line(&self, i: u64) -> Option<Piece>
        ensures { result ≡ slice_get (pieces_of self.now) i };

    /// The layout line of a gap. A gap past the text's end has that of the end.
    fn line_of(&self, gap: u64) -> u64
        ensures line { result ≡ layout_line_of (pieces_of self.now) gap }
        ensures inside { result < length (pieces_of self.now) }
        ensures sound { ArePieces (text_of self.now) (pieces_of self.now) };

    /// Where the logical line that a layout line is of starts, and where it ends with its LF.
    fn logical_of(&self, line: u64) -> Run
        requires { line < length (pieces_of self.now) }
        ensures { result ≡ extent_of (line_under (text_of self.now) (pieces_of self.now) line) };

    /// The characters between two gaps.
    fn text(&self, alloc: Global, from: u64, to: u64) -> Result<Text, NoMemory>
        requires ordered { from ≤ to }
        requires inside { to ≤ length (text_of self.now) }
        ensures { IfOk result (λ part. part ≡ slice_range (text_of self.now) from to) };
}
