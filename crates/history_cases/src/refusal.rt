//! Why steps are refused.

ghost use Rattle.std.specs.Prelude.{◌≡◌, ◌↔◌, ◌≤◌, IfOk, IsTrue};
ghost use Rattle.std.specs.List.{AllByRecursion, list_any};
ghost use Rattle.plain_edits.specs.Edits.{is_edit_of};
ghost use Rattle.plain_edits.specs.Undo.{undone_now};
ghost use Rattle.rev_undo.specs.Allowed.{HasEdit};
ghost use Rattle.rev_engine.specs.Asked.{DiffersAt};
ghost use Rattle.history_cases.specs.Case.{IsUndoRefused};

use anyhow::bail;
use plain_edits::EditFault;
use plain_history::{PlainHistory, has, undone};

/// Why a step is refused.
#[derive(Clone, Copy, Debug, PartialEq, Eq)]
pub enum Refusal {
    /// What is wrong with an edit of a group that is not collected.
    Edit(EditFault),
    /// The group of an edit is collected.
    Closed,
    /// A group of an undo has no edit.
    NoEdit,
    /// The groups of an undo and what is undone at the head differ at a collected group; this is the least such.
    Frozen(u64),
    /// A collection may not come.
    Uncollectable,
}

/// What comes of a step.
pub type Answer = Option<Refusal>;

/// Why an undo that may not come is refused: a group without an edit comes before a frozen one.
pub fn refusal_of(plain: &PlainHistory, groups: &[u64]) -> anyhow::Result<Refusal>
    ensures { IfOk result (IsUndoRefused plain.now groups.now) }
{
    if !all_known(plain, groups) {
        return Ok(Refusal::NoEdit);
    }
    for group in plain.collected() {
        if differs(plain, groups, *group) && none_before(plain, groups, *group) {
            return Ok(Refusal::Frozen(*group));
        }
    }
    bail!("the plain history takes no undo of {groups:?}, and no group of it is frozen")
}

/// Whether each of the groups counts from 1 and has an edit.
fn all_known(plain: &PlainHistory, groups: &[u64]) -> bool
    ensures { IsTrue result ↔ AllByRecursion (HasEdit plain.now) groups.now }
{
    for group in groups {
        if *group == 0 || !has_edit(plain, *group) {
            return false;
        }
    }
    true
}

/// Whether the group has an edit.
pub fn has_edit(plain: &PlainHistory, group: u64) -> bool
    ensures { result ≡ list_any (is_edit_of group) plain.now.revisions }
{
    let mut revisions = plain.revisions().iter();
    revisions.any(|revision| revision.is_edit_of(group))
}

/// The groups that are undone at the head.
pub fn now_undone(plain: &PlainHistory) -> &[u64]
    ensures { result.now ≡ undone_now plain.now }
{
    undone(plain.revisions(), plain.head())
}

/// Whether the group is collected, and the set and what is undone at the head differ at it.
fn differs(plain: &PlainHistory, groups: &[u64], group: u64) -> bool
    ensures { IsTrue result ↔ DiffersAt plain.now groups.now group }
{
    has(plain.collected(), group) && has(groups, group) != has(now_undone(plain), group)
}

/// Whether they differ at no collected group before this one.
fn none_before(plain: &PlainHistory, groups: &[u64], group: u64) -> bool
    ensures { IsTrue result →
        AllByRecursion (λ other. DiffersAt plain.now groups.now other → group ≤ other) plain.now.collected }
{
    for other in plain.collected() {
        if *other < group && differs(plain, groups, *other) {
            return false;
        }
    }
    true
}
