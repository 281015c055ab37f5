//! Long stretches of plain characters beside characters that join, and a line with no plain character at all.

use crate::motions::{after, view_of};
use cluster_core::{columns_between, next, prev};
use movement_core::column_of;
use plain_text::{NoMemory, Text};
use std::alloc::Global;
use xi_plain::Motion;

// A mark, a joiner, a variation selector, one to three indicators, a syllable's letters, a family and a skin tone, a conjunct, ends of
// lines, controls, a soft hyphen, and a sign that joins on to what follows.
pub(crate) const PIECES: [&str; 16] = [
    "\u{301}",
    "\u{200D}",
    "\u{FE0F}",
    "\u{1F1E9}",
    "\u{1F1E9}\u{1F1EA}",
    "\u{1F1E9}\u{1F1EA}\u{1F1EB}",
    "\u{1112}\u{1161}",
    "\u{1F44D}\u{1F3FD}",
    "\u{915}\u{94D}\u{937}",
    "\r",
    "\n",
    "\r\n",
    "\0",
    "\u{7F}",
    "\u{AD}",
    "\u{600}",
];

pub(crate) const COUNTS: [u64; 5] = [1, 255, 256, 257, 513];

// So many letters and blanks, between two texts.
pub(crate) fn between(
    alloc: Global,
    front: &str,
    count: u64,
    back: &str,
) -> Result<Text, NoMemory> {
    let mut text = Text::from_str(alloc, front)?;
    for i in 0..count {
        text.push(if i % 5 == 3 { ' ' } else { 'a' })?;
    }
    text.push_str(back)?;
    Ok(text)
}

// Whether the boundaries beside a gap are those of the whole text.
fn steps_are_right(alloc: Global, text: &Text, gap: u64) -> Result<bool, NoMemory> {
    let place = text.place_of(gap) as usize;
    let end = Some(text.char_count());
    let right = match next(text.as_str(), place) {
        Some(found) => text.gap_at(found as u64),
        None => end,
    };
    let left = match prev(text.as_str(), place) {
        Some(found) => text.gap_at(found as u64),
        None => Some(0),
    };
    let (to_right, _) = after(alloc, text.as_str(), gap, None, Motion::Right)?;
    let (to_left, _) = after(alloc, text.as_str(), gap, None, Motion::Left)?;
    Ok(Some(to_right) == right && Some(to_left) == left)
}

// The same of some gaps around one.
fn steps_around(alloc: Global, text: &Text, gap: u64) -> Result<bool, NoMemory> {
    let last = text.char_count();
    for less in 0..4u64 {
        let near = gap.saturating_add(2).saturating_sub(less).min(last);
        if !steps_are_right(alloc, text, near)? {
            return Ok(false);
        }
    }
    Ok(true)
}

// Whether steps are right where such a piece stands behind stretches of plain characters.
fn behind(alloc: Global, piece: &str) -> Result<bool, NoMemory> {
    for count in COUNTS {
        let text = between(alloc, "", count, piece)?;
        if !steps_around(alloc, &text, count)? {
            return Ok(false);
        }
    }
    Ok(true)
}

// And where it stands in front of them.
fn in_front(alloc: Global, piece: &str) -> Result<bool, NoMemory> {
    for count in COUNTS {
        let text = between(alloc, piece, count, "")?;
        if !steps_around(alloc, &text, 1)? {
            return Ok(false);
        }
        if !steps_around(alloc, &text, text.char_count())? {
            return Ok(false);
        }
    }
    Ok(true)
}

pub(crate) fn holds(told: Result<bool, NoMemory>) -> bool {
    match told {
        Ok(is) => is,
        Err(_) => false,
    }
}

#[test]
fn steps_at_the_end_of_a_plain_stretch(rt: HostRuntime) {
    for piece in PIECES {
        assert!(rt; holds(behind(rt.alloc(), piece)));
    }
}

#[test]
fn steps_at_the_start_of_a_plain_stretch(rt: HostRuntime) {
    for piece in PIECES {
        assert!(rt; holds(in_front(rt.alloc(), piece)));
    }
}

// Whether the column of a gap is that of the whole line, which is one piece.
fn column_is_right(alloc: Global, text: &Text, gap: u64) -> Result<bool, NoMemory> {
    let view = view_of(alloc, text)?;
    let column = column_of(alloc, &view, gap, 4)?;
    Ok(column == columns_between(text.as_str(), 0, gap, 4))
}

fn columns_are_right(alloc: Global, piece: &str) -> Result<bool, NoMemory> {
    for count in COUNTS {
        let text = between(alloc, piece, count, piece)?;
        let last = text.char_count();
        for less in 0..4u64 {
            if !column_is_right(alloc, &text, last.saturating_add(1).saturating_sub(less))? {
                return Ok(false);
            }
        }
    }
    Ok(true)
}

#[test]
fn columns_beside_a_plain_stretch(rt: HostRuntime) {
    for piece in PIECES {
        if piece != "\n" && piece != "\r\n" {
            assert!(rt; holds(columns_are_right(rt.alloc(), piece)));
        }
    }
}

// So many flags behind one indicator more.
fn flags(alloc: Global, count: u64) -> Result<Text, NoMemory> {
    let mut text = Text::from_str(alloc, "\u{1F1EB}")?;
    for _ in 0..count {
        text.push_str("\u{1F1E9}\u{1F1EA}")?;
    }
    Ok(text)
}

// Whether a step from a gap of such a line goes there.
fn step_in_flags(alloc: Global, gap: u64, motion: Motion, there: u64) -> bool {
    match flags(alloc, 10_000) {
        Ok(text) => match after(alloc, text.as_str(), gap, None, motion) {
            Ok((caret, _)) => caret == there,
            Err(_) => false,
        },
        Err(_) => false,
    }
}

#[test]
fn an_indicator_in_front_shifts_all_flags(rt: HostRuntime) {
    assert!(rt; step_in_flags(rt.alloc(), 1, Motion::Right, 2));
    assert!(rt; step_in_flags(rt.alloc(), 20_001, Motion::Left, 20_000));
}

#[test]
fn a_step_in_the_middle_of_flags_counts_from_the_line_s_start(rt: HostRuntime) {
    assert!(rt; step_in_flags(rt.alloc(), 10_001, Motion::Left, 10_000));
    assert!(rt; step_in_flags(rt.alloc(), 10_001, Motion::Right, 10_002));
}
