ghost use Rattle.std.specs.Prelude.{◌≡◌, ◌↔◌, IsTrue};
ghost use Rattle.std.specs.List.{AllByRecursion};
ghost use Rattle.plain_edits.specs.Undo.{undone_now};
ghost use Rattle.rev_list.specs.Edit.{IsKnownGroup, MayUndoGroups};
ghost use Rattle.rev_undo.specs.Allowed.{IsIn, IsThere};
ghost use Rattle.rev_undo.specs.Under.{AgreesOnCollected};

use rev_list::RevList;
use std::collections::BTreeSet;

/// Whether the set agrees with what is undone at the head on each collected group: one look-up for each group of the set, and for each
/// that is undone.
pub fn agrees_on_collected(revs: &RevList, groups: &BTreeSet<u64>) -> bool
    ensures { IsTrue result ↔ AgreesOnCollected revs.now groups.now.keys }
{
    all_undone(revs, groups) && all_in(revs, groups)
}

/// Whether the set may be undone: beside that, each of its groups counts from 1, and has an edit or is collected.
pub fn may_undo(revs: &RevList, groups: &BTreeSet<u64>) -> bool
    ensures { IsTrue result ↔ MayUndoGroups revs.now groups.now.keys }
{
    let _count = groups.len();
    all_known(revs, groups) && agrees_on_collected(revs, groups)
}

// Whether each group of the set that is collected is undone.
fn all_undone(revs: &RevList, groups: &BTreeSet<u64>) -> bool
    ensures { IsTrue result ↔ AllByRecursion (IsThere revs.now) groups.now.keys }
{
    for group in groups {
        if !is_there(revs, *group) {
            return false;
        }
    }
    true
}

#[tactic(auto, using(crate::proofs::AllowedLemmas::or_implies))]
fn is_there(revs: &RevList, group: u64) -> bool
    ensures { IsTrue result ↔ IsThere revs.now group }
{
    !revs.is_collected(group) || revs.undone().has(group)
}

// Whether each undone group that is collected is in the set.
fn all_in(revs: &RevList, groups: &BTreeSet<u64>) -> bool
    ensures { IsTrue result ↔ AllByRecursion (IsIn revs.now groups.now.keys) (undone_now revs.now) }
{
    let undone = revs.undone();
    for index in 0..undone.len() {
        if !is_in(revs, groups, undone.at(index)) {
            return false;
        }
    }
    true
}

#[tactic(auto, using(crate::proofs::AllowedLemmas::or_implies, crate::proofs::AllowedLemmas::has_contains))]
fn is_in(revs: &RevList, groups: &BTreeSet<u64>, group: u64) -> bool
    ensures { IsTrue result ↔ IsIn revs.now groups.now.keys group }
{
    !revs.is_collected(group) || groups.contains(&group)
}

// Whether each group of the set counts from 1, and has an edit or is collected.
fn all_known(revs: &RevList, groups: &BTreeSet<u64>) -> bool
    ensures { IsTrue result ↔ AllByRecursion (IsKnownGroup revs.now) groups.now.keys }
{
    for group in groups {
        if !is_known(revs, *group) {
            return false;
        }
    }
    true
}

fn is_known(revs: &RevList, group: u64) -> bool
    ensures { IsTrue result ↔ IsKnownGroup revs.now group }
{
    group > 0 && (revs.first_edit(group).is_some() || revs.is_collected(group))
}
