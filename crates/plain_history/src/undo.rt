//! When a set of groups may be undone.

ghost use Rattle.std.specs.Prelude.{◌≡◌, ℕ, ◌<◌, ◌↔◌, IsTrue, true};
ghost use Rattle.std.specs.List.{AllByRecursion, list_any};
ghost use Rattle.plain_text.specs.Numbers.{has};
ghost use Rattle.plain_edits.specs.History.{head, undone};
ghost use Rattle.plain_edits.specs.Edits.{is_edit_of};

use crate::history::PlainHistory;
use crate::visible::{has, undone};

/// Whether the group has an edit.
fn has_edit(history: &PlainHistory, group: u64) -> bool
    ensures { result ≡ list_any (is_edit_of group) history.now.revisions }
{
    history
        .revisions()
        .iter()
        .any(|revision| revision.is_edit_of(group))
}

/// Whether each of the groups counts from 1 and has an edit.
pub fn all_known(history: &PlainHistory, groups: &[u64]) -> bool
    ensures { IsTrue result ↔
        AllByRecursion (λ group. (0 < group) × (list_any (is_edit_of group) history.now.revisions ≡ true)) groups.now }
{
    for group in groups {
        if *group == 0 || !has_edit(history, *group) {
            return false;
        }
    }
    true
}

/// Whether the set agrees with what is undone at the head, on each collected group.
pub fn all_frozen(history: &PlainHistory, groups: &[u64]) -> bool
    ensures { IsTrue result ↔
        AllByRecursion (λ group. has groups.now group ≡ has (undone history.now.revisions (head history.now)) group) history.now.collected }
{
    let now = undone(history.revisions(), history.head());
    for group in history.collected() {
        if has(groups, *group) != has(now, *group) {
            return false;
        }
    }
    true
}
