//! Rendered lines, and the triples of a line.

ghost use Rattle.std.specs.Prelude.{IfOk};
ghost use Rattle.selection_core.specs.Selection.{IsSelection};

use line_render::{render, render_piece};
use plain_edits::Span;
use plain_screen::{Line, Piece, Triple};
use plain_text::{NoMemory, Region, Regions, Sel, Text};
use selection_core::Selection;
use span_runs::triples;
use std::alloc::Global;

const fn piece(start: u64, end: u64, ln: Option<u64>) -> Piece {
    Piece { start, end, ln }
}

const fn span(start: u64, end: u64, style: u64) -> Span {
    Span { start, end, style }
}

const fn triple(start: i64, len: u64, id: u64) -> Triple {
    Triple { start, len, id }
}

// The selection of these regions, each an anchor and a caret.
fn selected(alloc: Global, ends: &[(u64, u64)]) -> Result<Sel, NoMemory>
    ensures { IfOk result (λ sel. IsSelection sel.regions) }
{
    let mut regions = Regions::new(alloc);
    for (anchor, caret) in ends {
        regions.push(Region {
            anchor: *anchor,
            caret: *caret,
            goal: None,
        })?;
    }
    Sel::of_regions(alloc, regions)
}

// The line of a piece, from the whole text.
fn line_of(
    alloc: Global,
    text: &str,
    piece: Piece,
    ends: &[(u64, u64)],
    spans: &[Span],
) -> Result<Line, NoMemory> {
    let text = Text::from_str(alloc, text)?;
    let sel = selected(alloc, ends)?;
    if piece.start <= piece.end && piece.end <= text.char_count() {
        render(alloc, &text, &piece, &sel, spans)
    } else {
        Err(NoMemory)
    }
}

// The same from the piece's own characters, the last of its text or not.
fn line_alone(
    alloc: Global,
    text: &str,
    piece: Piece,
    is_last: bool,
    ends: &[(u64, u64)],
    spans: &[Span],
) -> Result<Line, NoMemory> {
    let text = Text::from_str(alloc, text)?;
    let sel = selected(alloc, ends)?;
    if piece.start <= piece.end && piece.end - piece.start == text.char_count() {
        render_piece(alloc, text, &piece, is_last, &sel, &[], spans)
    } else {
        Err(NoMemory)
    }
}

// The same with no regions, beside what the search found.
fn line_with_match(
    alloc: Global,
    text: &str,
    piece: Piece,
    found: Span,
    spans: &[Span],
) -> Result<Line, NoMemory> {
    let text = Text::from_str(alloc, text)?;
    let sel = selected(alloc, &[])?;
    if piece.start <= piece.end && piece.end - piece.start == text.char_count() {
        render_piece(alloc, text, &piece, false, &sel, &[found], spans)
    } else {
        Err(NoMemory)
    }
}

// Whether a line was made, with these carets and styles and the number of its piece.
fn has(line: Result<Line, NoMemory>, ln: Option<u64>, cursor: &[u64], styles: &[Triple]) -> bool {
    match line {
        Ok(line) => {
            line.ln == ln && line.cursor.as_slice() == cursor && line.styles.as_slice() == styles
        }
        Err(_) => false,
    }
}

// Whether these are the triples of the spans.
fn are_triples(alloc: Global, line: &str, span: Span, expected: &[Triple]) -> bool {
    let Ok(line) = Text::from_str(alloc, line) else {
        return false;
    };
    if span.start <= span.end && span.end <= line.char_count() {
        match triples(alloc, &line, &[span]) {
            Ok(made) => made.as_slice() == expected,
            Err(_) => false,
        }
    } else {
        false
    }
}

#[test]
fn triples_count_bytes(rt: HostRuntime) {
    let alloc = rt.alloc();
    assert!(rt; are_triples(alloc, "aé中b", span(1, 2, 2), &[triple(1, 2, 2)]));
    assert!(rt; are_triples(alloc, "aé中b", span(2, 4, 3), &[triple(3, 4, 3)]));
}

#[test]
fn gaps_are_at_bytes(rt: HostRuntime) {
    let alloc = rt.alloc();
    assert!(rt; are_triples(alloc, "aé中b", span(0, 0, 1), &[triple(0, 0, 1)]));
    assert!(rt; are_triples(alloc, "aé中b", span(3, 3, 1), &[triple(6, 0, 1)]));
    assert!(rt; are_triples(alloc, "aé中b", span(4, 4, 1), &[triple(7, 0, 1)]));
}

const WHOLE: &[(u64, u64)] = &[(0, 3)];

#[test]
fn starts_count_from_the_end_of_the_span_before(rt: HostRuntime) {
    let alloc = rt.alloc();
    let first = Some(1);
    let found = line_of(alloc, "abc", piece(0, 3, first), WHOLE, &[span(1, 2, 1)]);
    assert!(rt; has(found, first, &[3], &[triple(0, 3, 0), triple(-2, 1, 1)]));
    let styled = line_of(
        alloc,
        "aé中b",
        piece(0, 4, first),
        &[],
        &[span(2, 3, 3), span(1, 2, 2)],
    );
    assert!(rt; has(styled, first, &[], &[triple(1, 2, 2), triple(0, 3, 3)]));
    let twice = line_of(
        alloc,
        "abc",
        piece(0, 3, first),
        &[],
        &[span(1, 3, 2), span(1, 2, 2)],
    );
    assert!(rt; has(twice, first, &[], &[triple(1, 1, 2), triple(-1, 2, 2)]));
    let around = line_of(
        alloc,
        "aé中b",
        piece(0, 4, first),
        &[],
        &[span(1, 2, 2), span(0, 4, 1)],
    );
    assert!(rt; has(around, first, &[], &[triple(0, 7, 1), triple(-6, 2, 2)]));
}

#[test]
fn feeds_are_selected(rt: HostRuntime) {
    let alloc = rt.alloc();
    let (one, two) = (piece(0, 2, Some(1)), piece(2, 3, Some(2)));
    assert!(rt;
        has(
            line_of(alloc, "a\nb", one, WHOLE, &[]),
            Some(1),
            &[],
            &[triple(0, 2, 0)]
        )
    );
    assert!(rt;
        has(
            line_of(alloc, "a\nb", two, WHOLE, &[]),
            Some(2),
            &[1],
            &[triple(0, 1, 0)]
        )
    );
}

#[test]
fn a_caret_stands_in_the_last_line_that_starts_by_it(rt: HostRuntime) {
    let alloc = rt.alloc();
    let (one, two) = (piece(0, 2, Some(1)), piece(2, 3, Some(2)));
    assert!(rt;
        has(
            line_of(alloc, "a\nb", one, &[(2, 2)], &[]),
            Some(1),
            &[],
            &[]
        )
    );
    assert!(rt;
        has(
            line_of(alloc, "a\nb", two, &[(2, 2)], &[]),
            Some(2),
            &[0],
            &[]
        )
    );
}

#[test]
fn a_caret_at_the_end_stands_in_the_line_that_starts_there(rt: HostRuntime) {
    let alloc = rt.alloc();
    let (one, empty) = (piece(0, 2, Some(1)), piece(2, 2, Some(2)));
    assert!(rt;
        has(
            line_of(alloc, "a\n", one, &[(2, 2)], &[]),
            Some(1),
            &[],
            &[]
        )
    );
    assert!(rt;
        has(
            line_of(alloc, "a\n", empty, &[(2, 2)], &[]),
            Some(2),
            &[0],
            &[]
        )
    );
    let rest = piece(2, 4, None);
    assert!(rt;
        has(
            line_of(alloc, "aabb", rest, &[(2, 2)], &[]),
            None,
            &[0],
            &[]
        )
    );
}

#[test]
fn regions_that_touch_are_one_run_and_a_caret_is_listed_once(rt: HostRuntime) {
    let alloc = rt.alloc();
    let all = piece(0, 6, Some(1));
    let touching = line_of(alloc, "abcdef", all, &[(0, 1), (1, 3)], &[]);
    assert!(rt; has(touching, Some(1), &[1, 3], &[triple(0, 3, 0)]));
    let meeting = line_of(alloc, "abcdef", all, &[(1, 3), (5, 3)], &[]);
    assert!(rt; has(meeting, Some(1), &[3], &[triple(1, 4, 0)]));
    let apart = line_of(alloc, "abcdef", all, &[(4, 6), (0, 1)], &[]);
    assert!(rt; has(apart, Some(1), &[1, 6], &[triple(0, 1, 0), triple(3, 2, 0)]));
}

#[test]
fn a_piece_alone_takes_regions_and_spans_of_the_whole(rt: HostRuntime) {
    let alloc = rt.alloc();
    let middle = piece(12, 14, None);
    let spans = [span(10, 20, 2), span(13, 14, 3), span(0, 12, 4)];
    let inside = line_alone(alloc, "ab", middle, false, &[(11, 13)], &spans);
    assert!(rt;
        has(
            inside,
            None,
            &[1],
            &[triple(0, 1, 0), triple(-1, 2, 2), triple(-1, 1, 3)]
        )
    );
    let found = line_with_match(alloc, "ab", middle, span(11, 13, 1), &[span(12, 20, 2)]);
    assert!(rt; has(found, None, &[], &[triple(0, 1, 1), triple(-1, 2, 2)]));
    assert!(rt;
        has(
            line_alone(alloc, "ab", middle, false, &[(14, 14)], &[]),
            None,
            &[],
            &[]
        )
    );
    assert!(rt;
        has(
            line_alone(alloc, "ab", middle, true, &[(14, 14)], &[]),
            None,
            &[2],
            &[]
        )
    );
}
