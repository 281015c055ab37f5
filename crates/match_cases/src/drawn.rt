//! Edits that are drawn from a seed.

use crate::made::{edited, matches_in};
use match_index::Matches;
use plain_edits::{Delta, El, Els};
use plain_text::{NoMemory, Text};
use rand_core::{Rng, SeedableRng};
use rand_pcg::Lcg64Xsh32;
use std::alloc::Global;

// A number below `most`, or 0.
fn below(words: &mut Lcg64Xsh32, most: u64) -> u64 {
    if most == 0 {
        return 0;
    }
    u64::from(words.next_u32()) % most
}

const LETTERS: [&str; 3] = ["a", "a", "b"];

fn letters(alloc: Global, words: &mut Lcg64Xsh32, count: u64) -> Result<Text, NoMemory> {
    let mut text = Text::new(alloc);
    for _ in 0..count {
        text.push_str(LETTERS[(words.next_u32() % 3) as usize])?;
    }
    Ok(text)
}

// A delta over a text of letters that makes at most three changes in it.
fn drawn_delta(alloc: Global, words: &mut Lcg64Xsh32, count: u64) -> Result<Delta, NoMemory> {
    let mut els = Els::new(alloc);
    let mut kept = 0u64;
    for _ in 0..below(words, 4) {
        let from = kept.wrapping_add(below(words, count.wrapping_sub(kept)));
        let to = from.wrapping_add(below(words, 5)).min(count);
        els.push(El::Copy { a: kept, b: from })?;
        let come = below(words, 5);
        let text = letters(alloc, words, come)?;
        els.push(El::Insert { text })?;
        kept = to;
    }
    els.push(El::Copy { a: kept, b: count })?;
    Ok(Delta {
        els,
        base_len: count,
    })
}

// Whether both tell the same matches, from the left and from the right.
fn are_same(matches: &Matches, others: &Matches) -> bool {
    let mut from: u64 = 0;
    for _ in 0..others.len() {
        let found = others.first_from(from);
        let Some(run) = found else {
            return false;
        };
        if matches.first_from(from) != found || matches.last_to(run.end) != found {
            return false;
        }
        from = run.end;
    }
    matches.len() == others.len() && matches.first_from(from).is_none()
}

// Whether an edit leaves what is found anew in the text after.
fn is_found_anew(
    alloc: Global,
    text: &Text,
    chars: &Text,
    delta: &Delta,
) -> Result<bool, NoMemory> {
    let matches = matches_in(alloc, text, chars, false)?;
    let (made, after) = edited(alloc, &matches, delta)?;
    Ok(are_same(&made, &matches_in(alloc, &after, chars, false)?))
}

// Whether that holds of an edit that is drawn, of a text with fewer letters than `most`, where so many letters are looked for.
fn agrees(alloc: Global, words: &mut Lcg64Xsh32, most: u64, sought: u64) -> Result<bool, NoMemory> {
    let count = below(words, most);
    let text = letters(alloc, words, count)?;
    let chars = letters(alloc, words, sought)?;
    let delta = drawn_delta(alloc, words, count)?;
    is_found_anew(alloc, &text, &chars, &delta)
}

// Whether it holds so many times.
fn all_agree(alloc: Global, times: u64, most: u64, sought: u64) -> bool {
    let mut words = Lcg64Xsh32::seed_from_u64(sought);
    for _ in 0..times {
        if !matches!(agrees(alloc, &mut words, most, sought), Ok(true)) {
            return false;
        }
    }
    true
}

#[test]
fn two_thousand_edits_where_a_letter_is_sought(rt: HostRuntime) {
    assert!(rt; all_agree(rt.alloc(), 2000, 20, 1));
}

#[test]
fn two_thousand_edits_where_two_letters_are_sought(rt: HostRuntime) {
    assert!(rt; all_agree(rt.alloc(), 2000, 20, 2));
}

#[test]
fn two_thousand_edits_where_three_letters_are_sought(rt: HostRuntime) {
    assert!(rt; all_agree(rt.alloc(), 2000, 20, 3));
}

#[test]
fn two_thousand_edits_where_four_letters_are_sought(rt: HostRuntime) {
    assert!(rt; all_agree(rt.alloc(), 2000, 20, 4));
}

#[test]
fn two_thousand_edits_where_five_letters_are_sought(rt: HostRuntime) {
    assert!(rt; all_agree(rt.alloc(), 2000, 20, 5));
}

#[test]
fn edits_of_long_texts_leave_what_is_found_anew(rt: HostRuntime) {
    let alloc = rt.alloc();
    assert!(rt; all_agree(alloc, 50, 600, 1));
    assert!(rt; all_agree(alloc, 50, 600, 2));
}
