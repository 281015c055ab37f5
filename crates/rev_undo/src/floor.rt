// What a set hides at the floor, where each group is one step. The set is `undone` with the groups of `differ` turned.
ghost use Rattle.std.specs.Prelude.{◌≡◌, if◌then◌else◌, length, replicate, false, IfOk};
ghost use Rattle.std.specs.List.{fold, AllByRecursion};
ghost use Rattle.subset_runs.specs.Subset.{union};
ghost use Rattle.plain_text.specs.Numbers.{flipped};
ghost use Rattle.plain_edits.specs.Undo.{undone_now};
ghost use Rattle.rev_list.specs.Settled.{HasLengths, hidden_of, loaded_of};
ghost use Rattle.rev_undo.specs.Under.{hidden_then_under};

use crate::carry::is_in;
use number_set::NumberSet;
use plain_text::NoMemory;
use rev_list::{RevList, SettledGroup};
use std::alloc::{AllocError, Global};
use subset_runs::Subset;

pub(crate) fn hidden_at_floor(
    alloc: Global,
    revs: &RevList,
    differ: &NumberSet,
) -> Result<Subset, NoMemory>
    ensures { IfOk result (λ dead. dead
        ≡ hidden_then_under revs.now (flipped (undone_now revs.now) differ.now) revs.now.floor) }
{
    let groups = revs.settled_groups();
    let undone = revs.undone();
    let len = revs.floor_len();
    let loaded = loaded_in(alloc, len, groups, is_in(undone, differ, 0))?;
    Ok(hidden_by(alloc, loaded, groups, undone, differ)?)
}

// What of the loaded text is hidden: all of it, or nothing.
fn loaded_in(
    alloc: Global,
    len: u64,
    groups: &[SettledGroup],
    in_set: bool,
) -> Result<Subset, AllocError>
    requires { AllByRecursion (HasLengths len) groups.now }
    ensures { IfOk result (λ s. s ≡ (if in_set then loaded_of len groups.now else replicate len false)) }
{
    let mut all = Subset::none(alloc, len);
    if !in_set {
        return Ok(all);
    }
    for group in groups {
        all = all.union(alloc, &group.inserted)?;
    }
    all.complement(alloc)
}

// And what each group hides.
fn hidden_by(
    alloc: Global,
    loaded: Subset,
    groups: &[SettledGroup],
    undone: &NumberSet,
    differ: &NumberSet,
) -> Result<Subset, AllocError>
    requires { AllByRecursion (HasLengths (length loaded)) groups.now }
    ensures { IfOk result (λ s. s
        ≡ fold (λ dead g. union dead (hidden_of (flipped undone.now differ.now) g)) loaded groups.now) }
{
    let mut hidden = loaded;
    for group in groups {
        let in_set = is_in(undone, differ, group.group);
        hidden = hidden.union(alloc, hidden_of(group, in_set))?;
    }
    Ok(hidden)
}

fn hidden_of(group: &SettledGroup, in_set: bool) -> &Subset
    ensures { result.now ≡ (if in_set then group.now.inserted else group.now.deleted) }
{
    if in_set {
        return &group.inserted;
    }
    &group.deleted
}
