ghost use Rattle.std.specs.Prelude.{◌≡◌, ◌+◌, ◌≤◌, ◌++◌, ◌<◌, ◌^◌, length, IfOk};
ghost use Rattle.std.specs.List.Sorted.{IsNonDecreasingBy};
ghost use Rattle.std.specs.Str.{chars};
ghost use Rattle.selection_core.specs.Selection.{IsSelection};
ghost use Rattle.line_render.specs.Rendered.{ends_in_feed, is_last_piece, own_gaps, rendered, rendered_piece, text_of_piece};

use crate::carets::cursor_in;
use crate::cuts::put_cuts;
use crate::selected::selected_in;
use crate::touching::{regions_touching, spans_touching};
use plain_edits::Span;
use plain_screen::{Line, Piece};
use plain_text::{NoMemory, Sel, Text};
use span_runs::triples;
use std::alloc::Global;

/// The line of a piece of a text. This walks the text, and all spans, which may come in any order; who has the characters of the piece
/// at hand takes [`render_piece`].
pub fn render(
    alloc: Global,
    text: &Text,
    piece: &Piece,
    sel: &Sel,
    spans: &[Span],
) -> Result<Line, NoMemory>
    requires ordered { piece.now.start ≤ piece.now.end }
    requires inside { piece.now.end ≤ length text.now }
    requires selection { IsSelection sel.now.regions }
    ensures { IfOk result (λ line. line ≡ rendered text.now piece.now sel.now.regions spans.now) }
{
    let line = text.slice(alloc, piece.start, piece.end)?;
    let is_last = is_last(text, piece, &line);
    render_piece(alloc, line, piece, is_last, sel, &[], spans)
}

/// The line of a piece from the piece's own characters, which it keeps, and whether it is the last of its text; regions and spans are those
/// of the whole text. What the search found, of which neither starts nor ends go back, is searched, as the regions are; the other spans, which
/// may come in any order, are walked, so hand in those that touch the piece. This costs the characters of the piece, the regions and
/// spans that touch it, and the sort of these spans.
pub fn render_piece(
    alloc: Global,
    line: Text,
    piece: &Piece,
    is_last: bool,
    sel: &Sel,
    found: &[Span],
    spans: &[Span],
) -> Result<Line, NoMemory>
    requires characters { piece.now.start + length line ≡ piece.now.end }
    requires selection { IsSelection sel.now.regions }
    requires starts { IsNonDecreasingBy (λ span. span.start) found.now }
    requires ends { IsNonDecreasingBy (λ span. span.end) found.now }
    ensures { IfOk result (λ made. made ≡ rendered_piece line piece.now is_last sel.now.regions (found.now ++ spans.now)) }
{
    let Piece { start, end, ln } = *piece;
    let regions = regions_touching(sel.regions.as_slice(), start, end);
    let mut shown = selected_in(alloc, regions, start, end)?;
    put_cuts(&mut shown, spans_touching(found, start, end), start, end)?;
    put_cuts(&mut shown, spans, start, end)?;
    let len = end - start;
    let gaps = gaps_of(line.as_str(), len, is_last);
    let cursor = cursor_in(alloc, &line, len, start, gaps, regions)?;
    let styles = triples(alloc, &line, shown.as_slice())?;
    Ok(Line {
        text: line,
        ln,
        cursor,
        styles,
    })
}

// How many gaps of a piece with these so many characters are its own.
fn gaps_of(line: &str, len: u64, is_last: bool) -> u64
    requires { len ≡ length (chars line.now) }
    ensures { result ≡ own_gaps is_last len }
{
    let _bytes = line.len();
    if is_last { len + 1 } else { len }
}

// Whether a piece with these characters is the last of the text.
fn is_last(text: &Text, piece: &Piece, line: &Text) -> bool
    requires { line.now ≡ text_of_piece text.now piece.now }
    ensures { result ≡ is_last_piece text.now piece.now }
{
    piece.end == text.char_count() && !has_feed(line.as_str())
}

// Whether the text ends in LF.
fn has_feed(text: &str) -> bool
    ensures { result ≡ ends_in_feed (chars text.now) }
{
    let mut feed = false;
    for c in text.chars() {
        feed = c == '\n';
    }
    feed
}
