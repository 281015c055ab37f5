// Where logical lines begin and end, among pieces.
ghost use Rattle.std.specs.Prelude.{◌≡◌, ◌<◌, length, Some, slice_get};
ghost use Rattle.line_stays.specs.Edges.{first_piece, past_piece};

use plain_screen::{Piece, TextView};

/// The piece with this index.
pub(crate) fn piece_at<T: TextView>(view: &T, index: u64) -> Piece
    requires { index < length (T.pieces_of view.now) }
    ensures { Some result ≡ slice_get (T.pieces_of view.now) index }
{
    match view.line(index) {
        Some(piece) => piece,
        None => unreachable!(),
    }
}

/// The first piece of the logical line that a piece is of.
pub fn first_piece<T: TextView>(view: &T, index: u64) -> u64
    requires { index < length (T.pieces_of view.now) }
    ensures { result ≡ first_piece (T.text_of view.now) (T.pieces_of view.now) index }
{
    view.line_of(view.logical_of(index).start)
}

/// The piece behind the logical line that a piece is of; where that is the last one, as many as there are.
pub fn past_piece<T: TextView>(view: &T, index: u64) -> u64
    requires { index < length (T.pieces_of view.now) }
    ensures { result ≡ past_piece (T.pieces_of view.now) index }
{
    let next = view.line_of(view.logical_of(index).end);
    if next <= index {
        return view.lines();
    }
    match piece_at(view, next).ln {
        Some(_) => next,
        None => view.lines(),
    }
}
