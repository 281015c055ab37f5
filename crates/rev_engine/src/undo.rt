// When a set of groups may be undone, and why it is not.
ghost use Rattle.std.specs.Prelude.{◌≡◌, ◌↔◌, ◌-◌, ◌^◌, ◌<◌, IfNone, IfSome, IsTrue};
ghost use Rattle.std.specs.List.{AllByRecursion};
ghost use Rattle.plain_text.specs.Numbers.{IsRising};
ghost use Rattle.plain_edits.specs.History.{head};
ghost use Rattle.rev_list.specs.Edit.{undone_by};
ghost use Rattle.rev_undo.specs.Under.{AgreesOnCollected};
ghost use Rattle.rev_engine.specs.Asked.{IsFrozenAt, IsKnown};

use plain_text::NoMemory;
use rev_list::RevList;
use std::alloc::AllocError;
use std::collections::BTreeSet;
use std::error::Error;
use std::fmt;

/// Why a set of groups is not undone.
#[derive(Clone, Copy, Debug, PartialEq, Eq)]
pub enum UndoFault {
    /// The set and what is undone at the head differ at a collected group; this is the least such.
    Frozen(u64),
    NoMemory,
}

impl fmt::Display for UndoFault {
    ghost use Rattle.std.specs.Prelude.{Some};
    ghost use Rattle.rev_engine.specs.UndoFault.{undo_fault_text};

    ghost output = { λ fault. Some (undo_fault_text fault) };

    fn fmt<W: fmt::Write>(&self, f: &mut fmt::Formatter<W>) -> fmt::Result {
        match self {
            UndoFault::Frozen(group) => write!(f, "group {group} is collected"),
            UndoFault::NoMemory => f.write_str("out of memory"),
        }
    }
}

impl Error for UndoFault {}

impl From<AllocError> for UndoFault {
    ghost use Rattle.rev_engine.specs.declared.undo.UndoFault.TheVariants.{NoMemory};

    ghost from_gives = { λ _ fault. fault ≡ NoMemory };

    fn from(_: AllocError) -> Self {
        UndoFault::NoMemory
    }
}

impl From<NoMemory> for UndoFault {
    ghost use Rattle.rev_engine.specs.declared.undo.UndoFault.TheVariants;

    ghost from_gives = { λ _ fault. fault ≡ TheVariants.NoMemory };

    fn from(_: NoMemory) -> Self {
        UndoFault::NoMemory
    }
}

// The first of these groups that is collected: they are those in which a set differs from what is undone at the head.
pub(crate) fn frozen(revs: &RevList, groups: &[u64]) -> Option<u64>
    requires { IsRising groups.now }
    ensures some { IfSome result (IsFrozenAt revs.now (undone_by revs.now groups.now)) }
    ensures none { IfNone result (AgreesOnCollected revs.now (undone_by revs.now groups.now)) }
{
    let _undone = revs.undone();
    for group in groups {
        if revs.is_collected(*group) {
            return Some(*group);
        }
    }
    None
}

// Whether the next revision has a number.
pub(crate) fn has_number(revs: &RevList) -> bool
    ensures { IsTrue result ↔ (head revs.now < 2 ^ 63 - 1) }
{
    revs.head() < (1 << 63) - 1
}

// Whether the group counts from 1, and has an edit or is collected.
pub(crate) fn is_known(revs: &RevList, group: u64) -> bool
    ensures { IsTrue result ↔ IsKnown revs.now group }
{
    group > 0 && (revs.first_edit(group).is_some() || revs.is_collected(group))
}

// Whether each group of a set is known.
pub(crate) fn is_set_known(revs: &RevList, groups: &BTreeSet<u64>) -> bool
    ensures { IsTrue result ↔ AllByRecursion (IsKnown revs.now) groups.now.keys }
{
    for group in groups {
        if !is_known(revs, *group) {
            return false;
        }
    }
    true
}

// Whether each of these groups is.
pub(crate) fn are_known(revs: &RevList, groups: &[u64]) -> bool
    ensures { IsTrue result ↔ AllByRecursion (IsKnown revs.now) groups.now }
{
    for group in groups {
        if !is_known(revs, *group) {
            return false;
        }
    }
    true
}
