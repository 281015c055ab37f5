ghost use Rattle.std.specs.Prelude.{◌≡◌, ◌<◌, Some, length, drop, slice_get, IfOk};
ghost use Rattle.std.specs.Str.{chars};
ghost use Rattle.plain_screen.specs.View.{ArePieces, extent_of, layout_line_of, line_under, start_of, whole_lines};
ghost use Rattle.plain_view.specs.Viewed.{byte_column_of};

use crate::begins::begins;
use crate::pieces::whole_pieces;
use plain_screen::{Piece, TextView};
use plain_text::{List, NoMemory, Offsets, Run, Text, place_in, split_at_gap};
use std::alloc::Global;
use std::marker::Model;

/// Where a gap stands in a layout.
#[derive(Clone, Copy, Debug, PartialEq, Eq)]
pub struct Point {
    /// The layout line, counted from 0.
    pub line: u64,
    /// The bytes between the line's start and the gap.
    pub column: u64,
}

/// A text and the pieces that it is cut into.
#[derive(Drop)]
pub struct PlainView {
    text: Text,
    pieces: List<Piece>,
    begins: Offsets,
}

impl Model for PlainView {
    ghost use Rattle.plain_view.specs.Viewed.{IsKept, Viewed};

    ghost Value = { Viewed };

    ghost view = { λ v. record { text = v.text; pieces = v.pieces } };

    ghost invariant = { λ v. IsKept v.text v.pieces v.begins };
}

impl PlainView {
    /// The text in these pieces, which are to be its own. This walks the text.
    pub fn of_pieces(alloc: Global, text: Text, pieces: List<Piece>) -> Result<PlainView, NoMemory>
        requires { ArePieces text pieces }
        ensures { IfOk result (λ view. view ≡ record { text = text; pieces = pieces }) }
    {
        let begins = begins(alloc, text.as_str(), pieces.as_slice())?;
        Ok(PlainView {
            text,
            pieces,
            begins,
        })
    }

    /// The text in one piece a logical line. This walks the text.
    pub fn of_text(alloc: Global, text: Text) -> Result<PlainView, NoMemory>
        ensures { IfOk result (λ view. view ≡ record { text = text; pieces = whole_lines text }) }
    {
        let pieces = whole_pieces(alloc, text.as_str())?;
        PlainView::of_pieces(alloc, text, pieces)
    }

    /// The layout line of a gap and its byte column there. This costs a search among the pieces, and a walk along the piece.
    pub fn point_of(&self, gap: u64) -> Point
        ensures line { result.line ≡ layout_line_of self.now.pieces gap }
        ensures column { result.column ≡ byte_column_of self.now.text self.now.pieces gap }
    {
        let line = self.line_of(gap);
        let (start, rest) = self.from_line(line);
        Point {
            line,
            column: place_in(rest, gap.saturating_sub(start)),
        }
    }

    // The piece with this index, which is there.
    fn piece_at(&self, line: u64) -> Piece
        requires { line < length self.now.pieces }
        ensures { slice_get self.now.pieces line ≡ Some result }
    {
        match self.line(line) {
            Some(piece) => piece,
            None => unreachable!(),
        }
    }

    // The gap where the logical line of a layout line starts. This looks at the pieces before it.
    fn start_under(&self, line: u64) -> u64
        requires inside { line < length self.now.pieces }
        requires sound { ArePieces self.now.text self.now.pieces }
        ensures { result ≡ (extent_of (line_under self.now.text self.now.pieces line)).start }
    {
        let mut at = line;
        loop {
            let piece = self.piece_at(at);
            if piece.ln.is_some() {
                return piece.start;
            }
            at -= 1;
        }
    }

    // The gap where that logical line ends. This looks at the pieces after it.
    fn end_under(&self, line: u64) -> u64
        requires { line < length self.now.pieces }
        ensures { result ≡ (extent_of (line_under self.now.text self.now.pieces line)).end }
    {
        let lines = self.lines();
        let mut end = self.piece_at(line).end;
        let mut at = line + 1;
        while at < lines {
            let piece = self.piece_at(at);
            if piece.ln.is_some() {
                return end;
            }
            end = piece.end;
            at += 1;
        }
        end
    }

    // The gap where a line starts, and the text from there on.
    fn from_line(&self, line: u64) -> (u64, &str)
        requires { line < length self.now.pieces }
        ensures start { result.0 ≡ start_of self.now.pieces line }
        ensures rest { chars result.1.now ≡ drop (start_of self.now.pieces line) self.now.text }
    {
        let start = self.pieces.as_slice()[line as usize].start;
        let begin = self.begins.as_slice()[line as usize];
        (start, self.text.as_str().split_at(begin as usize).1)
    }
}

impl TextView for PlainView {
    ghost text_of = { λ view. view.text };

    ghost pieces_of = { λ view. view.pieces };

    fn lines(&self) -> u64 {
        self.pieces.len() as u64
    }

    fn line(&self, i: u64) -> Option<Piece> {
        self.pieces.get(i as usize).copied()
    }

    fn line_of(&self, gap: u64) -> u64 {
        let count = self
            .pieces
            .as_slice()
            .partition_point(|piece| piece.start <= gap);
        count as u64 - 1
    }

    // This looks at the pieces of the logical line.
    fn logical_of(&self, line: u64) -> Run {
        let _lines = self.lines();
        Run {
            start: self.start_under(line),
            end: self.end_under(line),
        }
    }

    fn text(&self, alloc: Global, from: u64, to: u64) -> Result<Text, NoMemory> {
        let (start, rest) = self.from_line(self.line_of(from));
        let (_, wanted) = split_at_gap(rest, from - start);
        Text::from_str(alloc, split_at_gap(wanted, to - from).0)
    }
}
