ghost use Rattle.std.specs.Prelude.{◌≡◌, ◌^◌, ◌<◌, ◌≤◌, nat_lt, drop};
ghost use Rattle.std.specs.List.{sum_by};
ghost use Rattle.plain_edits.specs.UnitDelta.{IsUnitDelta};
ghost use Rattle.selection_core.specs.Mapped.{length_after, new_gap};
ghost use Rattle.selection_core.specs.Inner.{EndsPast, GoesFrom, HasPassedAdds, HasPassedRuns, IsWalked, gaps_left, kept_left, part_left};

use plain_edits::{Added, UnitDelta};

/// How many parts of an edit a walk has left behind, and the characters that they keep, or add.
#[derive(Clone, Copy)]
pub(crate) struct Passed {
    pub(crate) parts: usize,
    pub(crate) count: u64,
}

/// How far a walk over an edit has come, of which the gaps that it is asked for never go left.
#[derive(Clone, Copy)]
pub(crate) struct GapWalk {
    pub(crate) kept: Passed,
    pub(crate) added: Passed,
}

/// A walk over an edit at its left end.
pub(crate) fn walk_from_left(units: &UnitDelta, after: bool) -> GapWalk
    requires well_formed { IsUnitDelta units.now }
    ensures { IsWalked units.now after 0 result }
{
    let start = Passed { parts: 0, count: 0 };
    GapWalk {
        kept: start,
        added: start,
    }
}

/// Where an edit takes a caret at a gap, which is not left of those that were asked for before. All calls of one walk together cost
/// the elements of the edit, and the bytes that it adds.
pub(crate) fn next_gap(units: &UnitDelta, after: bool, walk: &mut GapWalk, gap: u64) -> u64
    requires within { gap ≤ units.now.base }
    requires well_formed { IsUnitDelta units.now }
    requires bound { length_after units.now < 2 ^ 64 }
    requires ahead { IsWalked units.now after gap walk.old }
    ensures gap { result ≡ new_gap units.now after gap }
    ensures walked { IsWalked units.now after gap walk.new }
{
    walk.kept = pass_runs(units, walk.kept, gap);
    walk.added = pass_adds(units, after, walk.added, gap);
    kept_by(units, walk.kept, gap) + walk.added.count
}

// Leaves the runs behind that end by the gap.
fn pass_runs(units: &UnitDelta, passed: Passed, gap: u64) -> Passed
    requires { HasPassedRuns units.now gap passed }
    ensures passed { HasPassedRuns units.now gap result }
    ensures ahead { EndsPast gap (drop result.parts units.now.kept) }
{
    let runs = units.kept.as_slice();
    let mut parts = passed.parts;
    let mut count = passed.count;
    while parts < runs.len() && runs[parts].end <= gap {
        count += runs[parts].end - runs[parts].start;
        parts += 1;
    }
    Passed { parts, count }
}

// Leaves the additions behind that go left of a caret at the gap.
fn pass_adds(units: &UnitDelta, after: bool, passed: Passed, gap: u64) -> Passed
    requires passed { HasPassedAdds units.now (gaps_left after gap) passed }
    requires bound { sum_by (part_left (gaps_left after gap)) units.now.added < 2 ^ 64 }
    ensures passed { HasPassedAdds units.now (gaps_left after gap) result }
    ensures ahead { GoesFrom (gaps_left after gap) (drop result.parts units.now.added) }
{
    let adds = units.added.as_slice();
    let mut parts = passed.parts;
    let mut count = passed.count;
    while parts < adds.len() && goes_left(&adds[parts], after, gap) {
        count += adds[parts].text.char_count();
        parts += 1;
    }
    Passed { parts, count }
}

// Whether an addition goes left of a caret at the gap.
fn goes_left(added: &Added, after: bool, gap: u64) -> bool
    ensures { result ≡ nat_lt added.now.gap (gaps_left after gap) }
{
    added.gap < gap || added.gap == gap && !after
}

// How many characters are kept left of the gap, by the runs left behind and the one that the gap stands in.
fn kept_by(units: &UnitDelta, passed: Passed, gap: u64) -> u64
    requires passed { HasPassedRuns units.now gap passed }
    requires ahead { EndsPast gap (drop passed.parts units.now.kept) }
    ensures { result ≡ kept_left units.now gap }
{
    let runs = units.kept.as_slice();
    if passed.parts < runs.len() {
        passed.count + (gap - runs[passed.parts].start.min(gap))
    } else {
        passed.count
    }
}
