//! What is found in texts.

use find_core::matches;
use plain_text::{NoMemory, Run, Runs, Text};
use std::alloc::Global;

const fn run(start: u64, end: u64) -> Run {
    Run { start, end }
}

// The matches, with case as it stands or folded.
fn found(alloc: Global, text: &str, chars: &str, fold: bool) -> Result<Runs, NoMemory> {
    let text = Text::from_str(alloc, text)?;
    let chars = Text::from_str(alloc, chars)?;
    matches(alloc, &text, &chars, fold)
}

// Whether these are the matches.
fn are_found(alloc: Global, text: &str, chars: &str, fold: bool, runs: &[Run]) -> bool {
    match found(alloc, text, chars, fold) {
        Ok(made) => made.as_slice() == runs,
        Err(_) => false,
    }
}

#[test]
fn matches_come_from_the_left_and_do_not_overlap(rt: HostRuntime) {
    let alloc = rt.alloc();
    assert!(rt; are_found(alloc, "aaaa", "aa", false, &[run(0, 2), run(2, 4)]));
    assert!(rt; are_found(alloc, "aaa", "aa", false, &[run(0, 2)]));
    assert!(rt; are_found(alloc, "xab", "abc", false, &[]));
    assert!(rt; are_found(alloc, "aéé", "é", false, &[run(1, 2), run(2, 3)]));
}

#[test]
fn matches_of_line_ends_marks_and_nothing(rt: HostRuntime) {
    let alloc = rt.alloc();
    assert!(rt; are_found(alloc, "a\nb\n", "\n", false, &[run(1, 2), run(3, 4)]));
    assert!(rt; are_found(alloc, "ae\u{301}e", "\u{301}", false, &[run(2, 3)]));
    assert!(rt; are_found(alloc, "", "a", false, &[]));
    assert!(rt; are_found(alloc, "abc", "", false, &[]));
    assert!(rt; are_found(alloc, "", "", true, &[]));
}

#[test]
fn letters_of_ascii_alone_are_folded(rt: HostRuntime) {
    let alloc = rt.alloc();
    assert!(rt; are_found(alloc, "baA", "AA", true, &[run(1, 3)]));
    assert!(rt; are_found(alloc, "baA", "AA", false, &[]));
    assert!(rt; are_found(alloc, "Éé", "é", true, &[run(1, 2)]));
    assert!(rt; are_found(alloc, "@[`{", "`", true, &[run(2, 3)]));
}
