//! What an index of matches gives, over ropes.

use crate::made::{are_matches, matches_in};
use plain_text::{NoMemory, Run, Runs, Text};
use std::alloc::Global;

// A text, the characters that are looked for in it, whether case does not count, and their matches.
struct Row {
    text: &'static str,
    chars: &'static str,
    fold: bool,
    runs: &'static [(u64, u64)],
}

fn is_so(alloc: Global, row: &Row) -> Result<bool, NoMemory> {
    let text = Text::from_str(alloc, row.text)?;
    let chars = Text::from_str(alloc, row.chars)?;
    let matches = matches_in(alloc, &text, &chars, row.fold)?;
    Ok(are_matches(&matches, row.runs))
}

fn are_so(alloc: Global, rows: &[Row]) -> bool {
    for row in rows {
        if !matches!(is_so(alloc, row), Ok(true)) {
            return false;
        }
    }
    true
}

const FOUND: &[Row] = &[
    Row {
        text: "aaa",
        chars: "aa",
        fold: false,
        runs: &[(0, 2)],
    },
    Row {
        text: "aaaa",
        chars: "aa",
        fold: false,
        runs: &[(0, 2), (2, 4)],
    },
    Row {
        text: "baé\u{301}é",
        chars: "é",
        fold: false,
        runs: &[(2, 3), (4, 5)],
    },
    Row {
        text: "Kk\u{212a}",
        chars: "k",
        fold: true,
        runs: &[(0, 1), (1, 2)],
    },
    Row {
        text: "Kk\u{212a}",
        chars: "k",
        fold: false,
        runs: &[(1, 2)],
    },
];

const NOTHING: &[Row] = &[
    Row {
        text: "",
        chars: "a",
        fold: false,
        runs: &[],
    },
    Row {
        text: "abc",
        chars: "",
        fold: false,
        runs: &[],
    },
    Row {
        text: "abc",
        chars: "abcd",
        fold: false,
        runs: &[],
    },
];

#[test]
fn an_index_has_the_matches_of_its_rope(rt: HostRuntime) {
    assert!(rt; are_so(rt.alloc(), FOUND));
}

#[test]
fn where_nothing_is_found_there_is_no_match(rt: HostRuntime) {
    assert!(rt; are_so(rt.alloc(), NOTHING));
}

// So many letters, the characters, and as many letters.
fn between(alloc: Global, letters: u64, chars: &str) -> Result<Text, NoMemory> {
    let mut text = Text::new(alloc);
    for _ in 0..letters {
        text.push_str("a")?;
    }
    text.push_str(chars)?;
    for _ in 0..letters {
        text.push_str("a")?;
    }
    Ok(text)
}

fn is_found_behind(alloc: Global, letters: u64, chars: &str) -> Result<bool, NoMemory> {
    let sought = Text::from_str(alloc, chars)?;
    let matches = matches_in(alloc, &between(alloc, letters, chars)?, &sought, false)?;
    let end = letters.saturating_add(sought.char_count());
    Ok(are_matches(&matches, &[(letters, end)]))
}

// Whether the characters are found at each place across two leaves of a rope.
fn are_found_across(alloc: Global, chars: &str) -> bool {
    for letters in 1016u64..1026 {
        if !matches!(is_found_behind(alloc, letters, chars), Ok(true)) {
            return false;
        }
    }
    true
}

#[test]
fn what_stands_across_two_leaves_is_found(rt: HostRuntime) {
    let alloc = rt.alloc();
    assert!(rt; are_found_across(alloc, "bcd"));
    assert!(rt; are_found_across(alloc, "bé"));
    assert!(rt; are_found_across(alloc, "€b"));
    assert!(rt; are_found_across(alloc, "b😀c"));
}

// Whether what is longer than two leaves of a rope is found across three.
fn is_found_across_three(alloc: Global) -> Result<bool, NoMemory> {
    let long = between(alloc, 1100, "b")?;
    let matches = matches_in(alloc, &between(alloc, 700, long.as_str())?, &long, false)?;
    Ok(are_matches(&matches, &[(700, 2901)]))
}

#[test]
fn what_stands_across_three_leaves_is_found(rt: HostRuntime) {
    assert!(rt; matches!(is_found_across_three(rt.alloc()), Ok(true)));
}

// A text, a run of it, and the matches of `ab` that touch it.
struct Touch {
    text: &'static str,
    run: (u64, u64),
    touched: &'static [(u64, u64)],
}

fn touched(alloc: Global, row: &Touch) -> Result<Runs, NoMemory> {
    let text = Text::from_str(alloc, row.text)?;
    let matches = matches_in(alloc, &text, &Text::from_str(alloc, "ab")?, false)?;
    let (start, end) = row.run;
    matches.touching(alloc, Run { start, end })
}

fn runs_of(alloc: Global, runs: &[(u64, u64)]) -> Result<Runs, NoMemory> {
    let mut made = Runs::new(alloc);
    for (start, end) in runs {
        made.push(Run {
            start: *start,
            end: *end,
        })?;
    }
    Ok(made)
}

fn touches(alloc: Global, row: &Touch) -> Result<bool, NoMemory> {
    let wanted = runs_of(alloc, row.touched)?;
    Ok(touched(alloc, row)? == wanted)
}

const TOUCHES: &[Touch] = &[
    Touch {
        text: "xabababx",
        run: (0, 8),
        touched: &[(1, 7)],
    },
    Touch {
        text: "xabababx",
        run: (2, 4),
        touched: &[(1, 5)],
    },
    Touch {
        text: "abxabx",
        run: (0, 6),
        touched: &[(0, 2), (3, 5)],
    },
    Touch {
        text: "abxabx",
        run: (2, 3),
        touched: &[],
    },
    Touch {
        text: "abxabx",
        run: (5, 9),
        touched: &[],
    },
    Touch {
        text: "",
        run: (0, 0),
        touched: &[],
    },
];

fn all_touch(alloc: Global, rows: &[Touch]) -> bool {
    for row in rows {
        if !matches!(touches(alloc, row), Ok(true)) {
            return false;
        }
    }
    true
}

#[test]
fn matches_that_touch_a_run_are_joined(rt: HostRuntime) {
    assert!(rt; all_touch(rt.alloc(), TOUCHES));
}
