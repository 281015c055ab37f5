//! Edits that are drawn from a seed.

use crate::made::{are_of, edited, lines_over, whole};
use line_index::LineIndex;
use plain_edits::{Delta, El, Els};
use plain_text::{NoMemory, Text};
use rand_core::{Rng, SeedableRng};
use rand_pcg::Lcg64Xsh32;
use std::alloc::Global;

// A number below `most`, or 0.
fn below(words: &mut Lcg64Xsh32, most: u64) -> u64 {
    if most == 0 {
        return 0;
    }
    u64::from(words.next_u32()) % most
}

// What a text is put together from: line ends, characters that make clusters with what stands beside them, and words.
const PARTS: [&str; 16] = [
    "\n",
    "\n",
    "\r",
    "\r\n",
    "\t",
    " ",
    "-",
    "é",
    "\u{301}",
    "\u{1F1E6}",
    "\u{1F1E6}",
    "漢",
    "\u{1F469}\u{200D}",
    "words of a line",
    "a",
    "b",
];

fn drawn_text(alloc: Global, words: &mut Lcg64Xsh32, parts: u64) -> Result<Text, NoMemory> {
    let mut text = Text::new(alloc);
    for _ in 0..parts {
        text.push_str(PARTS[(words.next_u32() % 16) as usize])?;
    }
    Ok(text)
}

// A delta over a text that makes at most three changes in it, each from one gap to one a few characters later.
fn drawn_delta(alloc: Global, words: &mut Lcg64Xsh32, text: &Text) -> Result<Delta, NoMemory> {
    let count = text.char_count();
    let mut els = Els::new(alloc);
    let mut kept = 0u64;
    for _ in 0..below(words, 4) {
        let from = kept.wrapping_add(below(words, count.wrapping_sub(kept)));
        let to = from.wrapping_add(below(words, 12)).min(count);
        els.push(El::Copy {
            a: text.place_of(kept),
            b: text.place_of(from),
        })?;
        let parts = below(words, 6);
        let text = drawn_text(alloc, words, parts)?;
        els.push(El::Insert { text })?;
        kept = to;
    }
    els.push(El::Copy {
        a: text.place_of(kept),
        b: text.byte_len(),
    })?;
    Ok(Delta {
        els,
        base_len: text.byte_len(),
    })
}

// The lines after an edit that is drawn, where they are those of the text after.
fn drawn(
    alloc: Global,
    words: &mut Lcg64Xsh32,
    lines: &LineIndex,
    width: u32,
) -> Result<Option<LineIndex>, NoMemory> {
    let text = whole(alloc, lines)?;
    let delta = drawn_delta(alloc, words, &text)?;
    let (made, after) = edited(alloc, lines, &delta)?;
    if are_of(alloc, &made, &after, width)? {
        Ok(Some(made))
    } else {
        Ok(None)
    }
}

// Whether that holds of each of 200 edits, of a text that has so many parts at first.
fn session_agrees(alloc: Global, seed: u64, width: u32, parts: u64) -> Result<bool, NoMemory> {
    let mut words = Lcg64Xsh32::seed_from_u64(seed);
    let text = drawn_text(alloc, &mut words, parts)?;
    let mut lines = lines_over(alloc, &text, width)?;
    for _ in 0u64..200 {
        match drawn(alloc, &mut words, &lines, width)? {
            Some(made) => lines = made,
            None => return Ok(false),
        }
    }
    Ok(true)
}

// Ten sessions, of an empty text and of longer ones.
fn sessions_agree(alloc: Global, width: u32) -> bool {
    for seed in 0u64..10 {
        match session_agrees(alloc, seed, width, seed.wrapping_mul(12)) {
            Ok(true) => {}
            _ => return false,
        }
    }
    true
}

#[test]
fn two_thousand_edits_where_no_line_is_wrapped(rt: HostRuntime) {
    assert!(rt; sessions_agree(rt.alloc(), 0));
}

#[test]
fn two_thousand_edits_at_width_1(rt: HostRuntime) {
    assert!(rt; sessions_agree(rt.alloc(), 1));
}

#[test]
fn two_thousand_edits_at_width_5(rt: HostRuntime) {
    assert!(rt; sessions_agree(rt.alloc(), 5));
}

#[test]
fn two_thousand_edits_at_width_80(rt: HostRuntime) {
    assert!(rt; sessions_agree(rt.alloc(), 80));
}
