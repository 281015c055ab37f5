//! Groups at rest, and when a collection may come.

ghost use Rattle.std.specs.Prelude.{◌≡◌, ◌≤◌, ◌↔◌, drop, IsTrue};
ghost use Rattle.std.specs.List.{list_any, AllByRecursion};
ghost use Rattle.plain_text.specs.Numbers.{has};
ghost use Rattle.plain_edits.specs.History.{head, undone};
ghost use Rattle.plain_edits.specs.Edits.{is_edit_of};
ghost use Rattle.plain_edits.specs.Collection.{agrees, is_at_rest, IsAtRest, MayCollect};
ghost use Rattle.plain_collection.specs.Inner.{settled_from};

use crate::floors::is_clean;
use plain_history::{PlainHistory, has, undone};

/// Whether the group has an edit after the revision.
fn has_edit_after(history: &PlainHistory, rev: u64, group: u64) -> bool
    ensures { result ≡ list_any (is_edit_of group) (drop rev history.now.revisions) }
{
    history
        .revisions()
        .iter()
        .skip(rev as usize)
        .any(|revision| revision.is_edit_of(group))
}

/// Whether the group is undone at the revision.
fn is_undone_at(history: &PlainHistory, rev: u64, group: u64) -> bool
    ensures { result ≡ has (undone history.now.revisions rev) group }
{
    has(undone(history.revisions(), rev), group)
}

/// Whether two truths are one.
fn agrees(one: bool, other: bool) -> bool
    ensures { result ≡ agrees one other }
{
    if one { other } else { !other }
}

/// Whether the group is undone at each revision from the floor to the head, or at none.
#[tactic(auto, using(crate::proofs::RestLemmas::settled_next, crate::proofs::RestLemmas::settled_not, crate::proofs::RestLemmas::settled_end))]
fn is_settled(history: &PlainHistory, floor: u64, group: u64) -> bool
    ensures { result ≡ settled_from history.now group floor }
{
    let head = history.head();
    let mut rev = floor;
    while rev < head {
        if !agrees(
            is_undone_at(history, rev, group),
            is_undone_at(history, head, group),
        ) {
            return false;
        }
        rev += 1;
    }
    true
}

/// Whether the group is at rest at the floor: all its edits are by then, and whether it is undone is the same from there to the head.
pub fn is_at_rest(history: &PlainHistory, floor: u64, group: u64) -> bool
    ensures is { result ≡ is_at_rest history.now floor group }
    ensures at_rest { IsTrue result ↔ IsAtRest history.now floor group }
{
    !has_edit_after(history, floor, group) && is_settled(history, floor, group)
}

/// Whether each of the groups is at rest at the floor.
fn all_at_rest(history: &PlainHistory, floor: u64, groups: &[u64]) -> bool
    ensures { IsTrue result ↔ AllByRecursion (IsAtRest history.now floor) groups.now }
{
    for group in groups {
        if !is_at_rest(history, floor, *group) {
            return false;
        }
    }
    true
}

/// Whether a collection may come: its floor is from the present one to the head and clean, and each of its groups is at rest there.
pub fn may_collect(history: &PlainHistory, floor: u64, groups: &[u64]) -> bool
    ensures { IsTrue result ↔ MayCollect history.now floor groups.now }
{
    history.floor() <= floor
        && floor <= history.head()
        && is_clean(history, floor)
        && all_at_rest(history, floor, groups)
}
