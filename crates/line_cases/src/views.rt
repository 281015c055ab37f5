//! Views of a text in memory.

use crate::made::passes;
use plain_screen::{Piece, TextView};
use plain_text::{NoMemory, Text};
use plain_view::{PlainView, Point};
use std::alloc::Global;

const TEXT: &str = "aé 𝄞b\n\ncd";

fn whole(alloc: Global) -> Result<PlainView, NoMemory> {
    let text = Text::from_str(alloc, TEXT)?;
    PlainView::of_text(alloc, text)
}

// Whether the line has this piece, and that number.
fn has_piece(view: &PlainView, line: u64, start: u64, end: u64, ln: u64) -> bool {
    let ln = Some(ln);
    view.line(line) == Some(Piece { start, end, ln })
}

fn has_a_piece_a_line(view: &PlainView) -> bool {
    view.lines() == 3
        && has_piece(view, 0, 0, 6, 1)
        && has_piece(view, 1, 6, 7, 2)
        && has_piece(view, 2, 7, 9, 3)
        && view.line(3).is_none()
}

#[test]
fn a_text_has_one_piece_a_line(rt: HostRuntime) {
    assert!(rt; passes(whole(rt.alloc()), has_a_piece_a_line));
}

// The part of the text between two gaps, as its view gives it; none where there are no such gaps.
fn part_of(alloc: Global, from: u64, to: u64) -> Result<Text, NoMemory> {
    let text = Text::from_str(alloc, TEXT)?;
    let len = text.char_count();
    let view = PlainView::of_text(alloc, text)?;
    if from <= to && to <= len {
        view.text(alloc, from, to)
    } else {
        Err(NoMemory)
    }
}

// Whether this stands between two gaps.
fn is_part(alloc: Global, from: u64, to: u64, part: &str) -> bool {
    match part_of(alloc, from, to) {
        Ok(found) => found.as_str() == part,
        Err(_) => false,
    }
}

#[test]
fn a_part_of_the_text(rt: HostRuntime) {
    let alloc = rt.alloc();
    assert!(rt; is_part(alloc, 0, 9, TEXT));
    assert!(rt; is_part(alloc, 1, 4, "é 𝄞"));
    assert!(rt; is_part(alloc, 4, 8, "b\n\nc"));
    assert!(rt; is_part(alloc, 9, 9, ""));
}

fn stands(view: &PlainView, gap: u64, line: u64, column: u64) -> bool {
    view.point_of(gap) == Point { line, column }
}

fn has_places(view: &PlainView) -> bool {
    stands(view, 0, 0, 0)
        && stands(view, 4, 0, 8)
        && stands(view, 6, 1, 0)
        && stands(view, 7, 2, 0)
        && stands(view, 12, 2, 2)
}

#[test]
fn the_place_of_a_gap(rt: HostRuntime) {
    assert!(rt; passes(whole(rt.alloc()), has_places));
}
