//! Where the pieces of wrapped lines end.

ghost use Rattle.std.specs.Prelude.{◌≡◌, ◌<◌};

use line_break::breaks;
use plain_text::{NoMemory, Offsets, Steps, Text};
use std::alloc::Global;
use std::marker::Brand;
use std::sync::ledger::{Blank, Ledger};

fn counted<L: Ledger>(
    alloc: Global,
    line: &Text,
    width: u32,
    tab: u32,
    blank: Blank,
) -> Result<Offsets, NoMemory>
    requires name { blank.name ≡ L.name }
    requires parts { blank.parts ≡ L.parts }
    requires some { 0 < blank.parts }
{
    let mut steps = Steps::<L>::new(blank);
    breaks(alloc, line, width, tab, &mut steps)
}

pub(crate) fn wrapped(
    alloc: Global,
    line: &str,
    width: u32,
    tab: u32,
) -> Result<Offsets, NoMemory> {
    let line = Text::from_str(alloc, line)?;
    counted::<Brand>(alloc, &line, width, tab, Blank::new(1))
}

// Whether the pieces of the line end there, with tabs of four columns.
fn end_at(alloc: Global, line: &str, width: u32, ends: &[u64]) -> bool {
    match wrapped(alloc, line, width, 4) {
        Ok(found) => found.as_slice() == ends,
        Err(_) => false,
    }
}

#[test]
fn pieces_end_at_the_greatest_break_that_fits(rt: HostRuntime) {
    let alloc = rt.alloc();
    assert!(rt; end_at(alloc, "aa bb-cc ddddddd", 5, &[3, 9, 14, 16]));
    assert!(rt; end_at(alloc, "aa bb-cc ddddddd", 0, &[16]));
    assert!(rt; end_at(alloc, "a-b--c", 3, &[2, 5, 6]));
    assert!(rt; end_at(alloc, "--a", 1, &[1, 2, 3]));
}

#[test]
fn words_that_do_not_fit_are_cut_between_clusters(rt: HostRuntime) {
    let alloc = rt.alloc();
    assert!(rt; end_at(alloc, "abcdef ghi", 3, &[3, 7, 10]));
    assert!(rt; end_at(alloc, "\u{4E2D}\u{4E2D}", 1, &[1, 2]));
    assert!(rt; end_at(alloc, "a\u{301}b\u{301}c", 2, &[4, 5]));
    assert!(rt; end_at(alloc, "-\u{301}ab", 1, &[2, 3, 4]));
}

#[test]
fn pieces_of_format_characters_and_of_nothing(rt: HostRuntime) {
    let alloc = rt.alloc();
    assert!(rt; end_at(alloc, "a\u{200B}b", 1, &[2, 3]));
    assert!(rt; end_at(alloc, "\u{600} b", 1, &[2, 3]));
    assert!(rt; end_at(alloc, "", 5, &[0]));
    assert!(rt; end_at(alloc, "", 0, &[0]));
}

#[test]
fn blanks_and_ends_of_lines_stay_with_their_piece(rt: HostRuntime) {
    let alloc = rt.alloc();
    assert!(rt; end_at(alloc, "abcde\n", 5, &[6]));
    assert!(rt; end_at(alloc, "abcde \n", 5, &[7]));
    assert!(rt; end_at(alloc, "abcde\r\n", 5, &[7]));
    assert!(rt; end_at(alloc, "aa     bb", 3, &[7, 9]));
}

#[test]
fn a_return_before_a_feed_takes_no_room(rt: HostRuntime) {
    let alloc = rt.alloc();
    assert!(rt; end_at(alloc, "ab   \r\n", 2, &[7]));
    assert!(rt; end_at(alloc, "a\t\r\n", 1, &[4]));
    assert!(rt; end_at(alloc, "\u{4E2D}\r\n", 2, &[3]));
    assert!(rt; end_at(alloc, "\u{4E2D}\r\n", 1, &[1, 3]));
    assert!(rt; end_at(alloc, "\r\n", 1, &[2]));
    assert!(rt; end_at(alloc, "abc\r\n", 0, &[5]));
}

#[test]
fn another_return_is_a_column(rt: HostRuntime) {
    let alloc = rt.alloc();
    assert!(rt; end_at(alloc, "abcde\r", 5, &[5, 6]));
    assert!(rt; end_at(alloc, "\r", 1, &[1]));
    assert!(rt; end_at(alloc, "ab\rcd\n", 5, &[6]));
    assert!(rt; end_at(alloc, "ab\rcd\n", 4, &[4, 6]));
    assert!(rt; end_at(alloc, "\r \n", 1, &[3]));
    assert!(rt; end_at(alloc, "\r\r\n", 1, &[3]));
}

#[test]
fn blanks_tabs_and_a_feed_alone(rt: HostRuntime) {
    let alloc = rt.alloc();
    assert!(rt; end_at(alloc, "   ", 1, &[3]));
    assert!(rt; end_at(alloc, "\t\tx", 5, &[2, 3]));
    assert!(rt; end_at(alloc, "ab\tc", 4, &[3, 4]));
    assert!(rt; end_at(alloc, "xab\tc", 5, &[5]));
    assert!(rt; end_at(alloc, "\n", 5, &[1]));
}
