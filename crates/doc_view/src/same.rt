// Where the ends of regions and the matches of searches begin to differ, whether searches and pieces are the same, whether a gap is one of a
// caret, and whether a region has a goal.
ghost use Rattle.std.specs.Prelude.{◌≡◌, Some, IsTrue};
ghost use Rattle.plain_text.specs.Numbers.{has};
ghost use Rattle.line_render.specs.Rendered.{carets_of};
ghost use Rattle.selection_core.specs.Selection.{IsSelection};
ghost use Rattle.match_index.specs.Found.{first_from, runs_in};
ghost use Rattle.doc_view.specs.Inner.{AreEndsApart, AreFoundApart, earlier, has_goal, shared_run, start_at, start_of_run};
ghost use Rattle.doc_view.specs.Told.{has_same_ends, is_same_search};

use crate::search::Search;
use match_index::Matches;
use plain_screen::Piece;
use plain_text::{Region, Run};

/// A gap left of which two selections have the same carets and select the same characters, where not all of their ends are the same. It costs the
/// regions up to the first that has another end.
pub(crate) fn ends_apart(regions: &[Region], others: &[Region]) -> Option<u64>
    requires one { IsSelection regions.now }
    requires another { IsSelection others.now }
    ensures { AreEndsApart result regions.now others.now }
{
    let mut index = 0;
    while index < regions.len()
        && index < others.len()
        && has_same_ends(&regions[index], &others[index])
    {
        index += 1;
    }
    earlier(start_at(regions, index), start_at(others, index))
}

// Where the region with this index starts, if there is one.
fn start_at(regions: &[Region], index: usize) -> Option<u64>
    ensures { result ≡ start_at regions.now index }
{
    if index < regions.len() {
        let region = regions[index];
        Some(region.anchor.min(region.caret))
    } else {
        None
    }
}

/// The lesser of two gaps, of which there may be one, or none.
pub(crate) fn earlier(one: Option<u64>, other: Option<u64>) -> Option<u64>
    ensures { result ≡ earlier one other }
{
    match one {
        None => other,
        Some(gap) => match other {
            None => one,
            Some(at) => Some(gap.min(at)),
        },
    }
}

fn has_same_ends(region: &Region, other: &Region) -> bool
    ensures { result ≡ has_same_ends region.now other.now }
{
    region.anchor == other.anchor && region.caret == other.caret
}

/// Whether one of the regions has its caret at this gap.
pub(crate) fn has_caret(regions: &[Region], gap: u64) -> bool
    ensures { result ≡ has (carets_of regions.now) gap }
{
    for region in regions {
        if region.caret == gap {
            return true;
        }
    }
    false
}

/// Whether one of the regions has a goal.
pub(crate) fn has_goal(regions: &[Region]) -> bool
    ensures { result ≡ has_goal regions.now }
{
    for region in regions {
        if region.goal.is_some() {
            return true;
        }
    }
    false
}

pub(crate) fn is_same_search(query: &Search, other: &Search) -> bool
    ensures { result ≡ is_same_search query.now other.now }
{
    query.chars.as_str() == other.chars.as_str()
        && (query.is_for_nothing() || query.case_counts == other.case_counts)
}

/// A gap left of which two searches find the same characters, where they do not find the same matches. It costs the matches up to the first
/// that is another, each O(log n).
pub(crate) fn found_apart(matches: &Matches, others: &Matches) -> Option<u64>
    ensures { AreFoundApart result (runs_in matches.now) (runs_in others.now) }
{
    let mut at = 0;
    while let Some(found) = shared_from(matches, others, at) {
        at = found.end;
    }
    earlier(start_from(matches, at), start_from(others, at))
}

// The first match of both from a gap on, where it is one.
fn shared_from(matches: &Matches, others: &Matches, at: u64) -> Option<Run>
    ensures { result ≡ shared_run (first_from at (runs_in matches.now)) (first_from at (runs_in others.now)) }
{
    match matches.first_from(at) {
        None => None,
        Some(run) => match others.first_from(at) {
            None => None,
            Some(other) => if_same(run, other),
        },
    }
}

fn if_same(run: Run, other: Run) -> Option<Run>
    ensures { result ≡ shared_run (Some run) (Some other) }
{
    if run.start == other.start && run.end == other.end {
        Some(run)
    } else {
        None
    }
}

// Where the first match from a gap on starts, if there is one.
fn start_from(matches: &Matches, at: u64) -> Option<u64>
    ensures { result ≡ start_of_run (first_from at (runs_in matches.now)) }
{
    match matches.first_from(at) {
        None => None,
        Some(run) => Some(run.start),
    }
}

/// Whether two pieces are there and are one, or none of them is there.
pub(crate) fn is_same_piece(one: Option<Piece>, other: Option<Piece>) -> bool
    ensures { IsTrue result → one ≡ other }
{
    match one {
        None => other.is_none(),
        Some(piece) => match other {
            None => false,
            Some(next) => {
                piece.start == next.start
                    && piece.end == next.end
                    && is_same_number(piece.ln, next.ln)
            }
        },
    }
}

fn is_same_number(one: Option<u64>, other: Option<u64>) -> bool
    ensures { IsTrue result → one ≡ other }
{
    match one {
        None => other.is_none(),
        Some(number) => match other {
            None => false,
            Some(next) => number == next,
        },
    }
}
