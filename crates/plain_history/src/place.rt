//! Where a stale insertion goes.

ghost use Rattle.std.specs.Prelude.{◌≡◌, ℕ, ◌≤◌, ◌-◌, ◌==◌, not, nat_lt, length, take, drop};
ghost use Rattle.std.specs.List.{position_or_len, suffix_len, before_first, after_last};
ghost use Rattle.plain_text.specs.Woven.{nth_index};
ghost use Rattle.plain_edits.specs.History.{is_visible};
ghost use Rattle.plain_edits.specs.Place.{eldest, is_by, goes_right, left_in_run};

use crate::revision::Revision;
use crate::tagged::Tagged;
use crate::visible::{is_visible, rank_of};
use plain_edits::Rank;

/// The index of the visible character right of a gap of a revision's text, or the length of the list.
pub fn index_right_of(revisions: &[Revision], base: u64, gap: u64, characters: &[Tagged]) -> usize
    ensures is { result ≡ nth_index (is_visible revisions.now base) gap characters.now }
    ensures inside { result ≤ length characters.now }
{
    let mut left = gap;
    for (index, tagged) in characters.iter().enumerate() {
        if is_visible(revisions, base, tagged) {
            if left == 0 {
                return index;
            }
            left -= 1;
        }
    }
    characters.len()
}

/// The index from which on all characters came after the revision.
fn start_of_later(base: u64, left: &[Tagged]) -> usize
    ensures { result ≡ length left.now - suffix_len (λ tagged. nat_lt base tagged.inserted) left.now }
{
    let mut start = left.len();
    while start > 0 && base < left[start - 1].inserted() {
        start -= 1;
    }
    start
}

/// The characters at the end that all came after the revision.
pub fn later_run(base: u64, left: &[Tagged]) -> &[Tagged]
    ensures { result.now ≡ drop (length left.now - suffix_len (λ tagged. nat_lt base tagged.inserted) left.now) left.now }
{
    &left[start_of_later(base, left)..]
}

/// The least revision that inserted one of the characters.
fn eldest(run: &[Tagged]) -> u64
    ensures { result ≡ eldest run.now }
{
    match run {
        [] => 0,
        [tagged] => tagged.inserted(),
        [tagged, more @ ..] => tagged.inserted().min(eldest(more)),
    }
}

/// Whether the revision inserted the character.
fn is_by(rev: u64, tagged: &Tagged) -> bool
    ensures { result ≡ is_by rev tagged.now }
{
    tagged.inserted() == rev
}

/// The index of the first character of the revision, or the length where it has none.
fn start_of(rev: u64, run: &[Tagged]) -> usize
    ensures { result ≡ position_or_len (is_by rev) run.now }
{
    for (index, tagged) in run.iter().enumerate() {
        if is_by(rev, tagged) {
            return index;
        }
    }
    run.len()
}

/// What stands before the first character of the revision, and all where it has none.
fn before_first(rev: u64, run: &[Tagged]) -> &[Tagged]
    ensures { result.now ≡ before_first (is_by rev) run.now }
{
    &run[..start_of(rev, run)]
}

/// The index after the last character of the revision, or 0 where it has none.
fn end_of(rev: u64, run: &[Tagged]) -> usize
    ensures { result ≡ length run.now - suffix_len (λ tagged. not (is_by rev tagged)) run.now }
{
    let mut end = run.len();
    while end > 0 && !is_by(rev, &run[end - 1]) {
        end -= 1;
    }
    end
}

/// What stands after the last character of the revision, and all where it has none.
fn after_last(rev: u64, run: &[Tagged]) -> &[Tagged]
    ensures { result.now ≡ after_last (is_by rev) run.now }
{
    &run[end_of(rev, run)..]
}

/// The rule of order: whether an insertion of this rank goes right of those of an earlier revision.
fn goes_right(revisions: &[Revision], rank: Rank, rev: u64) -> bool
    ensures { result ≡ goes_right revisions.now rank rev }
{
    !rank.is_lower(rank_of(revisions, rev))
}

/// How many characters of the run stay left of the insertion; `bound` is at least the length of the run.
pub fn left_in_run(revisions: &[Revision], rank: Rank, bound: usize, run: &[Tagged]) -> usize
    ensures is { result ≡ left_in_run revisions.now rank bound run.now }
    ensures inside { result ≤ length run.now }
{
    if bound == 0 || run.is_empty() {
        return 0;
    }
    let rev = eldest(run);
    if goes_right(revisions, rank, rev) {
        let rest = after_last(rev, run);
        run.len() - rest.len() + left_in_run(revisions, rank, bound - 1, rest)
    } else {
        left_in_run(revisions, rank, bound - 1, before_first(rev, run))
    }
}
