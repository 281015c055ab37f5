//! What edits leave: the lines of the text after.

use crate::made::{are_of, edited, lines_of};
use line_index::LineIndex;
use plain_edits::{Delta, El, Els};
use plain_text::{NoMemory, Text};
use std::alloc::Global;

const WRAPPED: &str = "aa bb-cc ddddddd";

// Whether all places of both are the same.
fn have_same_places(lines: &LineIndex, others: &LineIndex) -> bool {
    for gap in 0..lines.rope().len() {
        if lines.locate(gap) != others.locate(gap) {
            return false;
        }
    }
    lines.locate(lines.rope().len()) == others.locate(lines.rope().len())
}

// The delta that puts a text in place of the bytes between two offsets, and another one behind a third.
fn two_edits(
    alloc: Global,
    bytes: u64,
    from: u64,
    first: &str,
    to: u64,
    at: u64,
    last: &str,
) -> Result<Delta, NoMemory> {
    let mut els = Els::new(alloc);
    els.push(El::Copy { a: 0, b: from })?;
    els.push(El::Insert {
        text: Text::from_str(alloc, first)?,
    })?;
    els.push(El::Copy { a: to, b: at })?;
    els.push(El::Insert {
        text: Text::from_str(alloc, last)?,
    })?;
    els.push(El::Copy { a: at, b: bytes })?;
    Ok(Delta {
        els,
        base_len: bytes,
    })
}

// Whether the lines after two edits are those of the text that comes of them.
fn both_edits_give(
    alloc: Global,
    width: u32,
    text: &str,
    edit: (u64, &str, u64),
    other: (u64, &str),
    after: &str,
) -> Result<bool, NoMemory> {
    let (from, first, to) = edit;
    let (at, last) = other;
    let bytes = text.len() as u64;
    let delta = two_edits(alloc, bytes, from, first, to, at, last)?;
    let (made, left) = edited(alloc, &lines_of(alloc, text, width)?, &delta)?;
    let others = lines_of(alloc, after, width)?;
    Ok(
        left.as_str() == after
            && are_of(alloc, &made, &left, width)?
            && have_same_places(&made, &others),
    )
}

// The same at four widths, of two edits.
fn both_give(
    alloc: Global,
    text: &str,
    edit: (u64, &str, u64),
    other: (u64, &str),
    after: &str,
) -> bool {
    for width in [0, 1, 5, 80] {
        match both_edits_give(alloc, width, text, edit, other, after) {
            Ok(true) => {}
            _ => return false,
        }
    }
    true
}

// The same of one edit: a text in place of the bytes between two offsets.
fn gives(alloc: Global, text: &str, edit: (u64, &str, u64), after: &str) -> bool {
    both_give(alloc, text, edit, (text.len() as u64, ""), after)
}

#[test]
fn line_feeds_come_and_go(rt: HostRuntime) {
    let alloc = rt.alloc();
    assert!(rt; gives(alloc, WRAPPED, (7, "\n", 7), "aa bb-c\nc ddddddd"));
    assert!(rt; gives(alloc, "abcdef\nghijk", (6, "", 7), "abcdefghijk"));
    assert!(rt; gives(alloc, "abcdef\n", (6, "", 7), "abcdef"));
    assert!(rt; gives(alloc, "abcdef\ngh", (9, "\ni", 9), "abcdef\ngh\ni"));
    assert!(rt; gives(alloc, "", (0, "ab cd ef", 0), "ab cd ef"));
    assert!(rt; gives(alloc, "\nb", (0, "aaaaaaa", 0), "aaaaaaa\nb"));
    assert!(rt; gives(alloc, "ab\ncd\nef", (0, "", 8), ""));
    assert!(rt; gives(alloc, "ab\ncd", (1, "", 1), "ab\ncd"));
}

#[test]
fn clusters_are_cut_and_joined(rt: HostRuntime) {
    let alloc = rt.alloc();
    assert!(rt; gives(alloc, "abcde\nf", (5, "\r", 5), "abcde\r\nf"));
    assert!(rt; gives(alloc, "abcde\r\nf", (6, "x", 6), "abcde\rx\nf"));
    assert!(rt; gives(alloc, "abcde\rx\nf", (6, "", 7), "abcde\r\nf"));
    assert!(rt;
        gives(
            alloc,
            "\u{1F1E6}\u{1F1E7}\u{1F1E8}\u{1F1E9}x",
            (4, "\u{1F1EA}", 4),
            "\u{1F1E6}\u{1F1EA}\u{1F1E7}\u{1F1E8}\u{1F1E9}x"
        )
    );
    assert!(rt; gives(alloc, "ab\ncd", (3, "\u{301}", 3), "ab\n\u{301}cd"));
}

#[test]
fn two_changes_at_once(rt: HostRuntime) {
    let alloc = rt.alloc();
    assert!(rt; both_give(alloc, "aa bb cc", (0, "xx", 1), (5, "-y"), "xxa bb-y cc"));
    assert!(rt;
        both_give(
            alloc,
            "a\nb\nc\nd\ne\nf\ng\nh",
            (2, "bbbbbbb", 3),
            (13, "\n\n"),
            "a\nbbbbbbb\nc\nd\ne\nf\ng\n\n\nh"
        )
    );
}

// A text that stands so many times between two others.
fn between(
    alloc: Global,
    first: &str,
    line: &str,
    times: u64,
    last: &str,
) -> Result<Text, NoMemory> {
    let mut text = Text::from_str(alloc, first)?;
    for _ in 0..times {
        text.push_str(line)?;
    }
    text.push_str(last)?;
    Ok(text)
}

// Whether a change in the first line and one in the last give the lines of the text after, with so many lines between.
fn far_edits_give(alloc: Global, times: u64) -> Result<bool, NoMemory> {
    let text = between(alloc, "aa bb\n", "cc dd ee\n", times, "ff gg")?;
    let after = between(alloc, "aa\nbb\n", "cc dd ee\n", times, "ff-x gg")?;
    let last = text.byte_len().saturating_sub(3);
    Ok(both_give(
        alloc,
        text.as_str(),
        (2, "\n", 3),
        (last, "-x"),
        after.as_str(),
    ))
}

#[test]
fn two_changes_with_a_hundred_lines_between(rt: HostRuntime) {
    assert!(rt; matches!(far_edits_give(rt.alloc(), 100), Ok(true)));
}
