ghost use Rattle.std.specs.Prelude.{◌≡◌, IfOk};
ghost use Rattle.plain_text.specs.Numbers.{flipped, IsRising};
ghost use Rattle.plain_edits.specs.History.{head};
ghost use Rattle.plain_edits.specs.Undo.{undone_now};
ghost use Rattle.rev_list.specs.Under.{hidden_under};
ghost use Rattle.rev_list.specs.Edit.{undone_by};
ghost use Rattle.rev_undo.specs.Under.{AgreesOnCollected};

use crate::carry::carried_under;
use crate::start::{hidden_from, start_of};
use number_set::NumberSet;
use plain_text::NoMemory;
use rev_list::RevList;
use std::alloc::Global;
use std::collections::BTreeSet;
use subset_runs::Subset;

/// What of the present union is not visible at the head if exactly these groups were undone. A group without an edit changes nothing;
/// group 0 is that of the loaded text. It costs one pass over the set, and then what [`recompute_by`] costs.
pub fn recompute(alloc: Global, revs: &RevList, groups: &BTreeSet<u64>) -> Result<Subset, NoMemory>
    requires { AgreesOnCollected revs.now groups.now.keys }
    ensures { IfOk result (λ dead. dead ≡ hidden_under revs.now groups.now.keys (head revs.now)) }
{
    let differ = revs.undone().flipped_by_set(alloc, groups)?;
    hidden_with(alloc, revs, &differ)
}

/// The same, of the groups in which the set differs from the groups that are undone at the head, in rising order. It begins at the last
/// revision at which what was undone agrees with the set on all groups that have an edit by then. With d revisions after that one and
/// r runs in what is dead it costs O(d · r), and the height of the list d times, and a look-up for each group of these and of the undos
/// among the d; nothing for the groups that are undone before and after.
pub fn recompute_by(alloc: Global, revs: &RevList, groups: &[u64]) -> Result<Subset, NoMemory>
    requires rising { IsRising groups.now }
    requires agrees { AgreesOnCollected revs.now (undone_by revs.now groups.now) }
    ensures { IfOk result (λ dead. dead
        ≡ hidden_under revs.now (undone_by revs.now groups.now) (head revs.now)) }
{
    let differ = NumberSet::new(alloc).flipped(alloc, groups)?;
    hidden_with(alloc, revs, &differ)
}

// What is hidden at the head under what is undone there, with these groups turned.
fn hidden_with(alloc: Global, revs: &RevList, differ: &NumberSet) -> Result<Subset, NoMemory>
    ensures { IfOk result (λ dead. dead
        ≡ hidden_under revs.now (flipped (undone_now revs.now) differ.now) (head revs.now)) }
{
    let start = start_of(alloc, revs, differ)?;
    let dead = hidden_from(alloc, revs, differ, start)?;
    let later = revs.revisions_after(start);
    Ok(carried_under(alloc, dead, later, revs.undone(), differ)?)
}
