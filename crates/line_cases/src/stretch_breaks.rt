//! Where the pieces of long plain stretches end, beside the rule of wrapping as it is said.

use crate::stretches::{COUNTS, PIECES, between, holds};
use crate::wrapping::wrapped;
use cluster_core::{Walk, columns};
use plain_text::{NoMemory, split_at_gap};
use std::alloc::Global;

// A text up to a gap and from there on; all of it and nothing where it has no such gap.
fn parts_at(text: &str, gap: u64) -> (&str, &str) {
    let last = text.chars().count() as u64;
    split_at_gap(text, gap.min(last))
}

// What is shown of a piece: neither its line end nor the blanks before it.
fn shown(piece: &str) -> &str {
    let line = match piece.strip_suffix("\n") {
        Some(line) => line.strip_suffix("\r").unwrap_or(line),
        None => piece,
    };
    line.trim_end_matches(" ")
}

// The end of the first piece of a line, of which each cluster is looked at up to some that are far beyond the width. What is
// shown takes no more columns than the whole.
fn first_end(line: &str, width: u32) -> u64 {
    let mut first = None;
    let mut fitting = None;
    let mut candidate = None;
    for placed in Walk::new(line, 4) {
        if placed.end > width as u64 + 6 {
            break;
        }
        let end = Some(placed.end);
        let piece = parts_at(line, placed.end).0;
        first = first.or(end);
        let most = width as u128;
        if placed.column <= most || columns(shown(piece), 4) <= most {
            fitting = end;
            if piece.len() == line.len() || piece.ends_with(" ") {
                candidate = end;
            }
        }
    }
    candidate.or(fitting).or(first).unwrap_or(0)
}

// Whether a line is cut there and nowhere else.
fn is_cut(line: &str, width: u32, ends: &[u64]) -> bool {
    let mut rest = line;
    let mut start: u64 = 0;
    for end in ends {
        let own = first_end(rest, width);
        if end.checked_sub(start) != Some(own) {
            return false;
        }
        rest = parts_at(rest, own).1;
        start = *end;
    }
    rest.is_empty()
}

// Whether breaks are those of the rule where a stretch stands between these texts.
fn breaks_are_right(alloc: Global, front: &str, back: &str, width: u32) -> Result<bool, NoMemory> {
    for count in COUNTS {
        let text = between(alloc, front, count, back)?;
        let ends = wrapped(alloc, text.as_str(), width, 4)?;
        if !is_cut(text.as_str(), width, ends.as_slice()) {
            return Ok(false);
        }
    }
    Ok(true)
}

// Whether they are behind such a stretch and in front of it, for each piece.
fn all_are_right(alloc: Global, width: u32) -> Result<bool, NoMemory> {
    for piece in PIECES {
        if !breaks_are_right(alloc, "", piece, width)?
            || !breaks_are_right(alloc, piece, "", width)?
        {
            return Ok(false);
        }
    }
    Ok(true)
}

#[test]
fn breaks_at_width_1_beside_plain_stretches(rt: HostRuntime) {
    assert!(rt; holds(all_are_right(rt.alloc(), 1)));
}

#[test]
fn breaks_at_width_5_beside_plain_stretches(rt: HostRuntime) {
    assert!(rt; holds(all_are_right(rt.alloc(), 5)));
}

#[test]
fn breaks_at_width_80_beside_plain_stretches(rt: HostRuntime) {
    assert!(rt; holds(all_are_right(rt.alloc(), 80)));
}

#[test]
fn breaks_at_width_10_000_beside_plain_stretches(rt: HostRuntime) {
    assert!(rt; holds(all_are_right(rt.alloc(), 10_000)));
}
