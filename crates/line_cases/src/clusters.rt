//! Clusters of logical lines.

use cluster_core::{Class, Placed, Walk, class_of, clusters, columns, columns_between, next, prev};
use std::alloc::Global;

const ACCENT: &str = "ae\u{301}b";

const FAMILY: &str = "\u{1F468}\u{200D}\u{1F469}\u{200D}\u{1F467}x";

const FLAGS: &str = "\u{1F1E9}\u{1F1EA}\u{1F1EB}\u{1F1F7}";

const HANGUL: &str = "\u{1112}\u{1161}\u{11AB}\u{AE00}";

const SPACING_MARK: &str = "\u{915}\u{93E}";

const CONJUNCT: &str = "\u{915}\u{94D}\u{937}\u{915}";

const CR_LF: &str = "a\r\nb";

// Whether the clusters of the line end there.
fn end_at(alloc: Global, line: &str, ends: &[u64]) -> bool {
    match clusters(alloc, line) {
        Ok(found) => found.as_slice() == ends,
        Err(_) => false,
    }
}

#[test]
fn clusters_end_after_marks_families_flags_and_syllables(rt: HostRuntime) {
    let alloc = rt.alloc();
    assert!(rt; end_at(alloc, ACCENT, &[1, 4, 5]));
    assert!(rt; end_at(alloc, FAMILY, &[18, 19]));
    assert!(rt; end_at(alloc, FLAGS, &[8, 16]));
    assert!(rt; end_at(alloc, HANGUL, &[9, 12]));
}

#[test]
fn clusters_of_line_ends_spacing_marks_and_conjuncts(rt: HostRuntime) {
    let alloc = rt.alloc();
    assert!(rt; end_at(alloc, CR_LF, &[1, 3, 4]));
    assert!(rt; end_at(alloc, SPACING_MARK, &[6]));
    assert!(rt; end_at(alloc, CONJUNCT, &[9, 12]));
    assert!(rt; end_at(alloc, "", &[]));
}

// Whether a line takes so many columns.
fn takes(line: &str, tab: u32, count: u128) -> bool {
    columns(line, tab) == count
}

#[test]
fn columns_of_tabs_beside_narrow_and_wide_characters(rt: HostRuntime) {
    assert!(rt; takes("a\tb", 4, 5));
    assert!(rt; takes("abcd\t", 4, 8));
    assert!(rt; takes("abc\td", 16, 17));
    assert!(rt; takes("\u{4E2D}\tb", 4, 5));
}

#[test]
fn columns_of_controls_marks_and_families(rt: HostRuntime) {
    assert!(rt; takes("\u{0}\u{1B}\u{7F}\u{85}", 4, 4));
    assert!(rt; takes(CR_LF, 4, 3));
    assert!(rt; takes(ACCENT, 4, 3));
    assert!(rt; takes(FAMILY, 4, 3));
}

#[test]
fn columns_of_flags_syllables_and_tabs_of_no_width(rt: HostRuntime) {
    assert!(rt; takes(FLAGS, 4, 4));
    assert!(rt; takes(HANGUL, 4, 4));
    assert!(rt; takes("a\tb", 0, 2));
}

// Whether what stands between two gaps takes so many columns, with tabs of four.
fn takes_between(line: &str, from: u64, to: u64, count: u128) -> bool {
    columns_between(line, from, to, 4) == count
}

#[test]
fn columns_between_two_gaps(rt: HostRuntime) {
    assert!(rt; takes_between("a\tb", 1, 3, 5));
    assert!(rt; takes_between("a\tb", 2, 3, 1));
    assert!(rt; takes_between("e\u{301}", 0, 1, 1));
    assert!(rt; takes_between("e\u{301}", 1, 2, 0));
    assert!(rt; takes_between("e\u{301}\tx", 1, 4, 5));
}

#[test]
fn columns_between_two_gaps_of_wide_characters(rt: HostRuntime) {
    assert!(rt; takes_between(FLAGS, 1, 4, 3));
    assert!(rt; takes_between(HANGUL, 3, 4, 2));
    assert!(rt; takes_between("abc", 2, 1, 0));
    assert!(rt; takes_between("abc", 1, 9, 2));
}

// Whether this cluster was found, which ends there.
fn stands(found: Option<Placed<'_>>, cluster: &str, end: u64, column: u128) -> bool {
    match found {
        Some(found) => found.cluster == cluster && found.end == end && found.column == column,
        None => false,
    }
}

#[test]
fn a_walk_counts_anew_where_a_piece_begins(rt: HostRuntime) {
    let mut walk = Walk::new("ab\te\u{301}c", 4);
    assert!(rt; stands(walk.next(), "a", 1, 1));
    assert!(rt; stands(walk.next(), "b", 2, 2));
    let mut again = walk.copy();
    walk.begin_piece();
    let mut last = None;
    for item in walk {
        last = Some(item);
    }
    assert!(rt; stands(again.next(), "\t", 3, 4));
    assert!(rt; stands(last, "c", 6, 6));
}

// Whether these are the boundaries on both sides of an offset.
fn stand(line: &str, at: usize, after: Option<usize>, before: Option<usize>) -> bool {
    next(line, at) == after && prev(line, at) == before
}

#[test]
fn boundaries_on_both_sides(rt: HostRuntime) {
    assert!(rt; stand(ACCENT, 0, Some(1), None));
    assert!(rt; stand(ACCENT, 1, Some(4), Some(0)));
    assert!(rt; stand(ACCENT, 3, Some(4), Some(1)));
    assert!(rt; stand(ACCENT, 5, None, Some(4)));
    assert!(rt; stand(ACCENT, 9, None, Some(5)));
}

#[test]
fn boundaries_in_families_flags_and_syllables(rt: HostRuntime) {
    assert!(rt; stand(FAMILY, 7, Some(18), Some(0)));
    assert!(rt; stand(FLAGS, 8, Some(16), Some(0)));
    assert!(rt; stand(FLAGS, 9, Some(16), Some(8)));
    assert!(rt; stand(HANGUL, 12, None, Some(9)));
}

#[test]
fn boundaries_in_conjuncts_line_ends_and_nothing(rt: HostRuntime) {
    assert!(rt; stand(CONJUNCT, 6, Some(9), Some(0)));
    assert!(rt; stand(CR_LF, 2, Some(3), Some(1)));
    assert!(rt; stand("", 0, None, None));
    assert!(rt; stand("", 1, None, Some(0)));
}

fn is_of(c: char, class: Class) -> bool {
    class_of(c) == class
}

#[test]
fn classes_of_characters(rt: HostRuntime) {
    assert!(rt; is_of('\n', Class::Feed));
    assert!(rt; is_of('\r', Class::Blank));
    assert!(rt; is_of('\t', Class::Blank));
    assert!(rt; is_of('~', Class::Punct));
    assert!(rt; is_of('_', Class::Other));
    assert!(rt; is_of('\u{A0}', Class::Other));
}
