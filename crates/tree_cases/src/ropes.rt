//! Ropes: their leaves, cuts, and edits beside a plain text.

ghost use Rattle.std.specs.Prelude.{◌≡◌, IfOk};

use delta_core::{apply, fits, to_units};
use plain_edits::{Delta, El, Els};
use plain_text::{NoMemory, Text, TryClone};
use rand_core::{Rng, SeedableRng};
use rand_pcg::Lcg64Xsh32;
use rope_tree::Rope;
use std::alloc::Global;

// The text of a string, so many times.
fn text_of(alloc: Global, part: &str, times: u64) -> Result<Text, NoMemory> {
    let mut text = Text::new(alloc);
    for _ in 0..times {
        text.push_str(part)?;
    }
    Ok(text)
}

fn rope_of(alloc: Global, text: &str) -> Result<Rope, NoMemory> {
    let text = Text::from_str(alloc, text)?;
    Rope::of_text(alloc, &text)
}

fn whole(alloc: Global, rope: &Rope) -> Result<Text, NoMemory>
    ensures { IfOk result (λ text. text ≡ rope.now) }
{
    rope.slice(alloc, 0, rope.len())
}

// The text before a gap; nothing where there is no such gap.
fn cut(alloc: Global, rope: &Rope, gap: u64) -> Result<Text, NoMemory> {
    if rope.len() < gap {
        return Ok(Text::new(alloc));
    }
    rope.slice(alloc, 0, gap)
}

// The text between two gaps; nothing where there are no such gaps.
fn part(alloc: Global, rope: &Rope, from: u64, to: u64) -> Result<Text, NoMemory> {
    if to < from || rope.len() < to {
        return Ok(Text::new(alloc));
    }
    rope.slice(alloc, from, to)
}

// The rope with what stands between two gaps replaced; empty where there are no such gaps.
#[tactic(auto, using(crate::proofs::Fits::replaced_few))]
fn replaced(alloc: Global, rope: &Rope, from: u64, to: u64, text: &Text) -> Result<Rope, NoMemory> {
    if to < from || rope.len() < to || rope.byte_len() > 1_000_000 || text.byte_len() > 1_000_000 {
        return rope.front(alloc, 0);
    }
    rope.replaced(alloc, from, to, text)
}

// Whether the text was made, and is this.
fn reads(made: Result<Text, NoMemory>, text: &str) -> bool {
    match made {
        Ok(made) => made.as_str() == text,
        Err(_) => false,
    }
}

// The text with `added` in the place of what stands between two gaps.
fn text_after(
    alloc: Global,
    rope: &Rope,
    from: u64,
    to: u64,
    added: &str,
) -> Result<Text, NoMemory> {
    let added = Text::from_str(alloc, added)?;
    let made = replaced(alloc, rope, from, to, &added)?;
    whole(alloc, &made)
}

fn copy_has(alloc: Global, rope: &Rope, gaps: (u64, u64), part_of: &str) -> bool {
    match rope.copy(alloc) {
        Ok(copy) => reads(part(alloc, &copy, gaps.0, gaps.1), part_of),
        Err(_) => false,
    }
}

// Whether `part` stands between two gaps of a copy of the text, with `added` in its place `left` is left, and the rope is as it was.
fn parts(
    alloc: Global,
    text: &str,
    gaps: (u64, u64),
    part_of: &str,
    added: &str,
    left: &str,
) -> bool {
    match rope_of(alloc, text) {
        Ok(rope) => {
            copy_has(alloc, &rope, gaps, part_of)
                && reads(text_after(alloc, &rope, gaps.0, gaps.1, added), left)
                && reads(whole(alloc, &rope), text)
        }
        Err(_) => false,
    }
}

#[test]
fn slices_and_replacements(rt: HostRuntime) {
    let alloc = rt.alloc();
    assert!(rt; parts(alloc, "aé\n𝄞", (1, 3), "é\n", "", "a𝄞"));
    assert!(rt; parts(alloc, "abc", (1, 2), "b", "X", "aXc"));
    assert!(rt; parts(alloc, "", (0, 0), "", "é", "é"));
    assert!(rt; parts(alloc, "𝄞é", (0, 2), "𝄞é", "", ""));
    assert!(rt; parts(alloc, "ab", (2, 2), "", "\n", "ab\n"));
}

// How many leaves, and their texts joined.
fn leaves(alloc: Global, rope: &Rope) -> Result<(u64, Text), NoMemory> {
    let mut text = Text::new(alloc);
    let mut count = 0u64;
    for chunk in rope.chunks()? {
        text.push_text(chunk)?;
        count = count.wrapping_add(1);
    }
    Ok((count, text))
}

// So many letters and a last character.
fn letters_of(alloc: Global, letters: u64, last: &str) -> Result<Text, NoMemory> {
    let mut text = text_of(alloc, "x", letters)?;
    text.push_str(last)?;
    Ok(text)
}

// Whether the rope has so many leaves, which join to the text.
fn has_leaves(alloc: Global, rope: &Rope, count: u64, text: &str) -> bool {
    match leaves(alloc, rope) {
        Ok((found, joined)) => found == count && joined.as_str() == text,
        Err(_) => false,
    }
}

// Whether the rope of a text has this height and so many leaves, and counts as the text does.
fn is_filled(alloc: Global, text: &Text, height: u32, count: u64) -> bool {
    match Rope::of_text(alloc, text) {
        Ok(rope) => {
            rope.node().height() == height
                && rope.len() == text.char_count()
                && rope.byte_len() == text.byte_len()
                && has_leaves(alloc, &rope, count, text.as_str())
        }
        Err(_) => false,
    }
}

fn fills(alloc: Global, letters: u64, last: &str, height: u32, count: u64) -> bool {
    match letters_of(alloc, letters, last) {
        Ok(text) => is_filled(alloc, &text, height, count),
        Err(_) => false,
    }
}

#[test]
fn leaves_are_as_full_as_characters_allow(rt: HostRuntime) {
    let alloc = rt.alloc();
    assert!(rt; fills(alloc, 0, "", 0, 0));
    assert!(rt; fills(alloc, 1024, "", 0, 1));
    assert!(rt; fills(alloc, 1025, "", 1, 2));
    assert!(rt; fills(alloc, 8193, "", 2, 9));
}

#[test]
fn a_character_is_not_cut_at_the_end_of_a_leaf(rt: HostRuntime) {
    let alloc = rt.alloc();
    assert!(rt; fills(alloc, 1022, "é", 0, 1));
    assert!(rt; fills(alloc, 1023, "é", 1, 2));
    assert!(rt; fills(alloc, 1021, "→", 0, 1));
    assert!(rt; fills(alloc, 1022, "→", 1, 2));
    assert!(rt; fills(alloc, 1020, "𝄞", 0, 1));
    assert!(rt; fills(alloc, 1021, "𝄞", 1, 2));
}

// The text of the rope, cut at a gap and joined again; nothing where there is no such gap.
#[tactic(auto, using(crate::proofs::Fits::parted_few))]
fn rejoined(alloc: Global, rope: &Rope, gap: u64) -> Result<Text, NoMemory> {
    let _bytes = rope.byte_len();
    if rope.len() < gap {
        return Ok(Text::new(alloc));
    }
    let front = rope.front(alloc, gap)?;
    let back = rope.back(alloc, gap)?;
    let again = front.joined(alloc, &back)?;
    whole(alloc, &again)
}

const LEAF: &str = "aé→𝄞\nb";

// Whether the rope of the text is cut there after this, and joined again is the text.
fn is_cut(alloc: Global, gap: u64, front: &str) -> bool {
    match rope_of(alloc, LEAF) {
        Ok(rope) => {
            reads(cut(alloc, &rope, gap), front) && reads(rejoined(alloc, &rope, gap), LEAF)
        }
        Err(_) => false,
    }
}

#[test]
fn a_leaf_is_cut_at_each_gap(rt: HostRuntime) {
    let alloc = rt.alloc();
    assert!(rt; is_cut(alloc, 0, ""));
    assert!(rt; is_cut(alloc, 1, "a"));
    assert!(rt; is_cut(alloc, 2, "aé"));
    assert!(rt; is_cut(alloc, 3, "aé→"));
    assert!(rt; is_cut(alloc, 4, "aé→𝄞"));
    assert!(rt; is_cut(alloc, 5, "aé→𝄞\n"));
    assert!(rt; is_cut(alloc, 6, "aé→𝄞\nb"));
}

// The rope after a delta, and the plain text after it; none where it does not fit.
fn edited(alloc: Global, rope: &Rope, delta: &Delta) -> Result<(Rope, Text), NoMemory> {
    let text = whole(alloc, rope)?;
    match fits(&text, delta) {
        Err(_) => Err(NoMemory),
        Ok(()) => {
            let units = to_units(alloc, &text, delta)?;
            let plain = apply(alloc, &text, &units)?;
            let _bytes = plain.byte_len();
            let made = rope.edited(alloc, &units)?;
            Ok((made, plain))
        }
    }
}

// A delta that keeps the letters of an ASCII text that stand in `kept`, one copy each, and adds a text before the copy of this index.
fn delta_of(
    alloc: Global,
    text: &str,
    kept: &str,
    before: u64,
    added: &str,
) -> Result<Delta, NoMemory> {
    let mut els = Els::new(alloc);
    for (i, c) in (0u64..).zip(text.chars()) {
        if i == before {
            push_insert(alloc, &mut els, added)?;
        }
        if kept.contains(c) {
            els.push(El::Copy {
                a: i,
                b: i.wrapping_add(1),
            })?;
        }
    }
    let base_len = text.len() as u64;
    Ok(Delta { els, base_len })
}

fn push_insert(alloc: Global, els: &mut Els, text: &str) -> Result<(), NoMemory> {
    let text = Text::from_str(alloc, text)?;
    els.push(El::Insert { text })
}

// What the delta makes of the text, in a rope and in a plain text.
fn made_of(
    alloc: Global,
    text: &str,
    kept: &str,
    added: (u64, &str),
) -> Result<(Rope, Text), NoMemory> {
    let rope = rope_of(alloc, text)?;
    let delta = delta_of(alloc, text, kept, added.0, added.1)?;
    edited(alloc, &rope, &delta)
}

// Whether the delta makes this of the text, in both.
fn makes(alloc: Global, text: &str, kept: &str, added: (u64, &str), left: &str) -> bool {
    match made_of(alloc, text, kept, added) {
        Ok((made, plain)) => plain.as_str() == left && reads(whole(alloc, &made), left),
        Err(_) => false,
    }
}

#[test]
fn edits_keep_drop_and_add(rt: HostRuntime) {
    let alloc = rt.alloc();
    assert!(rt; makes(alloc, "abc", "ac", (1, "X"), "aXc"));
    assert!(rt; makes(alloc, "abcdef", "", (9, ""), ""));
    assert!(rt; makes(alloc, "abcdef", "abcdef", (9, ""), "abcdef"));
    assert!(rt; makes(alloc, "abcdef", "ace", (9, ""), "ace"));
    assert!(rt; makes(alloc, "abcdef", "abcdef", (2, "é"), "abécdef"));
    assert!(rt; makes(alloc, "abcdef", "", (0, "𝄞"), "𝄞"));
}

// A delta over a text that keeps most characters, one copy each, and adds some texts.
fn drawn_delta(alloc: Global, words: &mut Lcg64Xsh32, text: &Text) -> Result<Delta, NoMemory> {
    let mut els = Els::new(alloc);
    let mut at = 0u64;
    let keeps = words.next_u32() % 40;
    for c in text.as_str().chars() {
        let end = at.wrapping_add(c.len_utf8() as u64);
        if words.next_u32() % 80 == 0 {
            let times = u64::from(words.next_u32() % 20);
            let text = text_of(alloc, "aé→𝄞\n", times)?;
            els.push(El::Insert { text })?;
        }
        if words.next_u32() % 40 <= keeps {
            els.push(El::Copy { a: at, b: end })?;
        }
        at = end;
    }
    Ok(Delta {
        els,
        base_len: text.byte_len(),
    })
}

// The rope after an edit that is drawn; none where it is not what the edit makes of the plain text.
fn drawn(alloc: Global, words: &mut Lcg64Xsh32, rope: &Rope) -> Result<Rope, NoMemory> {
    let text = whole(alloc, rope)?;
    let delta = drawn_delta(alloc, words, &text)?;
    let (made, plain) = edited(alloc, rope, &delta)?;
    let (_, joined) = leaves(alloc, &made)?;
    if joined.as_str() == plain.as_str() {
        Ok(made)
    } else {
        Err(NoMemory)
    }
}

// A rope after so many edits from a seed, each of which makes of it what it makes of a plain text.
fn drawn_all(alloc: Global, seed: u64, count: u64) -> Result<Rope, NoMemory> {
    let mut words = Lcg64Xsh32::seed_from_u64(seed);
    let text = text_of(alloc, "aé→𝄞\n", 120)?;
    let mut rope = Rope::of_text(alloc, &text)?;
    for _ in 0..count {
        rope = drawn(alloc, &mut words, &rope)?;
    }
    Ok(rope)
}

#[test]
fn edits_are_those_of_a_plain_text(rt: HostRuntime) {
    assert!(rt; drawn_all(rt.alloc(), 11, 8).is_ok());
}
