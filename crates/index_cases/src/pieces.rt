//! The pieces of a rope, and where gaps and lines stand.

use crate::made::{lines_of, passes};
use line_index::LineIndex;
use plain_screen::{Piece, TextView};
use plain_text::{NoMemory, Run, Text};
use std::alloc::Global;

const WHOLE: &str = "aé\nb";

const WRAPPED: &str = "aa bb-cc ddddddd";

// Whether the line has this piece, and that number.
fn has_piece(lines: &LineIndex, line: u64, start: u64, end: u64, ln: Option<u64>) -> bool {
    lines.line(line) == Some(Piece { start, end, ln })
}

fn has_two_lines(lines: &LineIndex) -> bool {
    lines.lines() == 2
        && has_piece(lines, 0, 0, 3, Some(1))
        && has_piece(lines, 1, 3, 4, Some(2))
        && lines.line(2).is_none()
}

fn has_one_empty_line(lines: &LineIndex) -> bool {
    lines.lines() == 1 && has_piece(lines, 0, 0, 0, Some(1)) && lines.line(1).is_none()
}

fn ends_with_an_empty_line(lines: &LineIndex) -> bool {
    lines.lines() == 2 && has_piece(lines, 0, 0, 1, Some(1)) && has_piece(lines, 1, 1, 1, Some(2))
}

fn has_four_pieces(lines: &LineIndex) -> bool {
    lines.lines() == 4
        && has_piece(lines, 0, 0, 3, Some(1))
        && has_piece(lines, 1, 3, 9, None)
        && has_piece(lines, 2, 9, 14, None)
        && has_piece(lines, 3, 14, 16, None)
        && lines.line(4).is_none()
}

#[test]
fn a_rope_has_these_pieces(rt: HostRuntime) {
    let alloc = rt.alloc();
    assert!(rt; passes(lines_of(alloc, WHOLE, 0), has_two_lines));
    assert!(rt; passes(lines_of(alloc, "", 0), has_one_empty_line));
    assert!(rt; passes(lines_of(alloc, "\n", 0), ends_with_an_empty_line));
    assert!(rt; passes(lines_of(alloc, WRAPPED, 5), has_four_pieces));
    assert!(rt; passes(lines_of(alloc, "", 5), has_one_empty_line));
    assert!(rt; passes(lines_of(alloc, "\n", 5), ends_with_an_empty_line));
}

fn has_places(lines: &LineIndex) -> bool {
    lines.locate(0) == Some((0, 0))
        && lines.locate(2) == Some((0, 3))
        && lines.locate(3) == Some((1, 0))
        && lines.locate(4) == Some((1, 1))
        && lines.locate(5).is_none()
}

fn has_wrapped_places(lines: &LineIndex) -> bool {
    lines.locate(8) == Some((1, 5))
        && lines.locate(9) == Some((2, 0))
        && lines.locate(16) == Some((3, 2))
        && lines.locate(17).is_none()
}

fn has_lines_of_gaps(lines: &LineIndex) -> bool {
    lines.line_of(2) == 0 && lines.line_of(3) == 1 && lines.line_of(9) == 1
}

// Whether the logical line of a layout line stands there.
fn stands(lines: &LineIndex, line: u64, start: u64, end: u64) -> bool {
    line < lines.lines() && lines.logical_of(line) == Run { start, end }
}

fn has_logical_lines(lines: &LineIndex) -> bool {
    stands(lines, 0, 0, 3) && stands(lines, 1, 3, 4)
}

fn has_one_logical_line(lines: &LineIndex) -> bool {
    stands(lines, 0, 0, 16) && stands(lines, 3, 0, 16)
}

#[test]
fn where_gaps_and_lines_stand(rt: HostRuntime) {
    let alloc = rt.alloc();
    assert!(rt; passes(lines_of(alloc, WHOLE, 0), has_places));
    assert!(rt; passes(lines_of(alloc, WHOLE, 0), has_lines_of_gaps));
    assert!(rt; passes(lines_of(alloc, WHOLE, 0), has_logical_lines));
    assert!(rt; passes(lines_of(alloc, WRAPPED, 5), has_wrapped_places));
    assert!(rt; passes(lines_of(alloc, WRAPPED, 5), has_one_logical_line));
}

// The text between two gaps, as a copy of the lines gives it; none where there are no such gaps.
fn part_of(alloc: Global, width: u32, from: u64, to: u64) -> Result<Text, NoMemory> {
    let lines = lines_of(alloc, WHOLE, width)?.copy(alloc)?;
    let len = lines.rope().len();
    if from <= to && to <= len {
        lines.text(alloc, from, to)
    } else {
        Err(NoMemory)
    }
}

fn is_part(alloc: Global, width: u32, from: u64, to: u64, part: &str) -> bool {
    match part_of(alloc, width, from, to) {
        Ok(found) => found.as_str() == part,
        Err(_) => false,
    }
}

#[test]
fn a_part_of_a_rope(rt: HostRuntime) {
    let alloc = rt.alloc();
    assert!(rt; is_part(alloc, 0, 0, 4, WHOLE));
    assert!(rt; is_part(alloc, 0, 1, 3, "é\n"));
    assert!(rt; is_part(alloc, 5, 4, 4, ""));
}
