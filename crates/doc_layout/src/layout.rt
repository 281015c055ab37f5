ghost use Rattle.std.specs.Prelude.{◌≡◌, ◌<◌, ◌≤◌, length, IfOk, Some, option_map, slice_get, slice_range};
ghost use Rattle.match_index.specs.Found.{runs_in};
ghost use Rattle.doc_layout.specs.Found.{MayShow};
ghost use Rattle.doc_layout.specs.Inner.{IsPieceIn};
ghost use Rattle.doc_layout.specs.Layout.{layout, layout_line};

use crate::found::found_in;
use line_render::render_piece;
use match_index::Matches;
use plain_screen::{Line, Lines, Piece, TextView};
use plain_text::{NoMemory, Run, Sel};
use span_styles::Layers;
use std::alloc::Global;

/// A text in its pieces, and what is shown on it beside its characters: its regions, the results of a search in it, and the layers of its
/// styles.
#[derive(Drop)]
pub struct Shown<'a, T: TextView> {
    pub view: &'a T,
    pub sel: &'a Sel,
    pub results: &'a Matches,
    pub layers: &'a Layers,
}

/// The lines of the pieces from one index up to another. Each costs the view's `text` for its piece, two searches among the regions, one among
/// the results and those of them that touch the piece; and a layer that has a style costs the logarithm of its runs and those that stand in
/// the piece, one that has none a look at it.
pub(crate) fn lines_of<T: TextView>(
    alloc: Global,
    shown: &Shown<'_, T>,
    from: u64,
    to: u64,
) -> Result<Lines, NoMemory>
    requires may { MayShow (T.text_of shown.now.view.now) shown.now.sel.now.regions shown.now.results.now }
    requires ordered { from ≤ to }
    requires inside { to ≤ length (T.pieces_of shown.now.view.now) }
    ensures { IfOk result (λ lines. lines ≡ slice_range
        (layout (T.text_of shown.now.view.now) (T.pieces_of shown.now.view.now) shown.now.sel.now.regions
        (runs_in shown.now.results.now) shown.now.layers.now) from to) }
{
    let mut lines = Lines::new(alloc);
    let mut at = from;
    while at < to {
        lines.push(line_at(alloc, shown, at)?)?;
        at += 1;
    }
    Ok(lines)
}

/// The line of the piece with this index. It costs the view's `text` for the piece, two searches among the regions, one among the results and
/// those of them that touch the piece; and a layer that has a style costs the logarithm of its runs and those that stand in the piece.
pub fn line_at<T: TextView>(
    alloc: Global,
    shown: &Shown<'_, T>,
    index: u64,
) -> Result<Line, NoMemory>
    requires may { MayShow (T.text_of shown.now.view.now) shown.now.sel.now.regions shown.now.results.now }
    requires there { index < length (T.pieces_of shown.now.view.now) }
    ensures { IfOk result (λ line. Some line ≡ option_map
        (layout_line (T.text_of shown.now.view.now) shown.now.sel.now.regions (runs_in shown.now.results.now) shown.now.layers.now)
        (slice_get (T.pieces_of shown.now.view.now) index)) }
{
    let count = shown.view.lines();
    let is_last = index + 1 == count;
    match shown.view.line(index) {
        Some(piece) => line_of(alloc, shown, &piece, is_last),
        None => unreachable!(),
    }
}

// The line of a piece, which is the last of its text or not.
fn line_of<T: TextView>(
    alloc: Global,
    shown: &Shown<'_, T>,
    piece: &Piece,
    is_last: bool,
) -> Result<Line, NoMemory>
    requires may { MayShow (T.text_of shown.now.view.now) shown.now.sel.now.regions shown.now.results.now }
    requires piece { IsPieceIn (T.text_of shown.now.view.now) piece.now is_last }
    ensures { IfOk result (λ line. line
        ≡ layout_line (T.text_of shown.now.view.now) shown.now.sel.now.regions (runs_in shown.now.results.now)
        shown.now.layers.now piece.now) }
{
    let characters = shown.view.text(alloc, piece.start, piece.end)?;
    let range = Run {
        start: piece.start,
        end: piece.end,
    };
    let found = found_in(alloc, shown.results, range)?;
    let styled = shown.layers.spans(alloc, range)?;
    render_piece(
        alloc,
        characters,
        piece,
        is_last,
        shown.sel,
        found.as_slice(),
        styled.as_slice(),
    )
}
