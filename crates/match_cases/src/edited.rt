//! What an edit leaves of an index of matches: the matches of the text after.

use crate::made::{are_matches, edited, matches_in};
use plain_edits::{Delta, El, Els};
use plain_text::{NoMemory, Text};
use std::alloc::Global;

// What stands from one byte up to another, and what comes in its place.
type Change = (u64, u64, &'static str);

// A text, the characters that are looked for in it, whether case does not count, what is changed, and the matches in the text after.
struct Row {
    text: &'static str,
    chars: &'static str,
    fold: bool,
    edits: &'static [Change],
    runs: &'static [(u64, u64)],
}

fn delta_of(alloc: Global, row: &Row) -> Result<Delta, NoMemory> {
    let bytes = row.text.len() as u64;
    let mut els = Els::new(alloc);
    let mut kept: u64 = 0;
    for (from, to, come) in row.edits {
        let text = Text::from_str(alloc, come)?;
        els.push(El::Copy { a: kept, b: *from })?;
        els.push(El::Insert { text })?;
        kept = *to;
    }
    els.push(El::Copy { a: kept, b: bytes })?;
    Ok(Delta {
        els,
        base_len: bytes,
    })
}

// Whether the edit leaves the row's matches.
fn is_so(alloc: Global, row: &Row) -> Result<bool, NoMemory> {
    let text = Text::from_str(alloc, row.text)?;
    let chars = Text::from_str(alloc, row.chars)?;
    let delta = delta_of(alloc, row)?;
    let matches = matches_in(alloc, &text, &chars, row.fold)?;
    let (made, _after) = edited(alloc, &matches, &delta)?;
    Ok(are_matches(&made, row.runs))
}

fn are_so(alloc: Global, rows: &[Row]) -> bool {
    for row in rows {
        if !matches!(is_so(alloc, row), Ok(true)) {
            return false;
        }
    }
    true
}

const SHIFTS: &[Row] = &[
    Row {
        text: "aaaa",
        chars: "aa",
        fold: false,
        edits: &[(0, 0, "a")],
        runs: &[(0, 2), (2, 4)],
    },
    Row {
        text: "aaaa",
        chars: "aa",
        fold: false,
        edits: &[(2, 2, "a")],
        runs: &[(0, 2), (2, 4)],
    },
    Row {
        text: "aaaa",
        chars: "aa",
        fold: false,
        edits: &[(4, 4, "a")],
        runs: &[(0, 2), (2, 4)],
    },
    Row {
        text: "aaaaa",
        chars: "aa",
        fold: false,
        edits: &[(0, 1, "")],
        runs: &[(0, 2), (2, 4)],
    },
    Row {
        text: "aaaaaxaa",
        chars: "aa",
        fold: false,
        edits: &[(1, 2, "")],
        runs: &[(0, 2), (2, 4), (5, 7)],
    },
];

const CHANGES: &[Row] = &[
    Row {
        text: "abab",
        chars: "aba",
        fold: false,
        edits: &[(0, 1, "")],
        runs: &[],
    },
    Row {
        text: "xxab",
        chars: "ab",
        fold: false,
        edits: &[(1, 1, "ab")],
        runs: &[(1, 3), (4, 6)],
    },
    Row {
        text: "abxabxab",
        chars: "ab",
        fold: false,
        edits: &[(4, 4, "-")],
        runs: &[(0, 2), (7, 9)],
    },
    Row {
        text: "aba-bab",
        chars: "ab",
        fold: false,
        edits: &[(3, 4, "")],
        runs: &[(0, 2), (2, 4), (4, 6)],
    },
    Row {
        text: "éa€",
        chars: "€",
        fold: false,
        edits: &[(2, 3, "b")],
        runs: &[(2, 3)],
    },
];

const WHOLES: &[Row] = &[
    Row {
        text: "abab",
        chars: "ab",
        fold: false,
        edits: &[(0, 4, "xab")],
        runs: &[(1, 3)],
    },
    Row {
        text: "abab",
        chars: "ab",
        fold: false,
        edits: &[(0, 4, "")],
        runs: &[],
    },
    Row {
        text: "",
        chars: "ab",
        fold: false,
        edits: &[(0, 0, "ab")],
        runs: &[(0, 2)],
    },
    Row {
        text: "abc",
        chars: "",
        fold: false,
        edits: &[(1, 1, "b")],
        runs: &[],
    },
    Row {
        text: "ab",
        chars: "abcd",
        fold: false,
        edits: &[(0, 0, "a")],
        runs: &[],
    },
];

const MORE: &[Row] = &[
    Row {
        text: "xK",
        chars: "k",
        fold: true,
        edits: &[(0, 0, "k")],
        runs: &[(0, 1), (2, 3)],
    },
    Row {
        text: "abxabxab",
        chars: "ab",
        fold: false,
        edits: &[(0, 1, ""), (7, 8, "")],
        runs: &[(2, 4)],
    },
    Row {
        text: "abxxabxxab",
        chars: "ab",
        fold: false,
        edits: &[(0, 0, "ab"), (9, 9, "b")],
        runs: &[(0, 2), (2, 4), (6, 8), (10, 12)],
    },
];

#[test]
fn an_edit_shifts_matches_that_touch_each_other(rt: HostRuntime) {
    assert!(rt; are_so(rt.alloc(), SHIFTS));
}

#[test]
fn an_edit_puts_matches_in_and_takes_them_away(rt: HostRuntime) {
    assert!(rt; are_so(rt.alloc(), CHANGES));
}

#[test]
fn an_edit_of_everything_or_of_nothing_looked_for(rt: HostRuntime) {
    assert!(rt; are_so(rt.alloc(), WHOLES));
}

#[test]
fn an_edit_where_case_does_not_count_and_two_at_once(rt: HostRuntime) {
    assert!(rt; are_so(rt.alloc(), MORE));
}
