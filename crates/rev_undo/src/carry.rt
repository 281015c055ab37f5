// What a set of groups hides, carried over one revision after the other. The set is `undone` with the groups of `differ` turned.
ghost use Rattle.std.specs.Prelude.{◌≡◌, ◌+◌, [], ◌∷◌, length, IfOk};
ghost use Rattle.std.specs.List.{fold};
ghost use Rattle.subset_runs.specs.Subset.{count};
ghost use Rattle.plain_text.specs.Numbers.{has, flipped};
ghost use Rattle.rev_list.specs.Kept.{dead_after};
ghost use Rattle.rev_undo.specs.Under.{SpeakFrom, hidden_after};

use number_set::NumberSet;
use rev_list::{RevEdit, RevStep, RevisionsAfter};
use std::alloc::{AllocError, Global};
use subset_runs::Subset;

// Whether the group is in the set.
#[tactic(auto, using(crate::proofs::FlagLemmas::turned_in, crate::proofs::FlagLemmas::same_in))]
pub(crate) fn is_in(undone: &NumberSet, differ: &NumberSet, group: u64) -> bool
    ensures { result ≡ has (flipped undone.now differ.now) group }
{
    if differ.has(group) {
        return !undone.has(group);
    }
    undone.has(group)
}

// What the set hides after the revisions, where `dead` is what it hides before them.
#[tactic(auto, using(crate::proofs::FlagLemmas::speak_next))]
pub(crate) fn carried_under(
    alloc: Global,
    dead: Subset,
    revisions: RevisionsAfter<'_>,
    undone: &NumberSet,
    differ: &NumberSet,
) -> Result<Subset, AllocError>
    requires { SpeakFrom (length dead) revisions }
    ensures { IfOk result (λ s. s
        ≡ fold (hidden_after (flipped undone.now differ.now)) dead revisions.entry) }
{
    let mut out = dead;
    for revision in revisions {
        out = after(alloc, out, revision, undone, differ)?;
    }
    Ok(out)
}

// After one of them; an undo changes nothing.
fn after(
    alloc: Global,
    dead: Subset,
    revision: &RevStep,
    undone: &NumberSet,
    differ: &NumberSet,
) -> Result<Subset, AllocError>
    requires { SpeakFrom (length dead) (revision.now ∷ []) }
    ensures { IfOk result (λ s. s ≡ hidden_after (flipped undone.now differ.now) dead revision.now) }
{
    match revision {
        RevStep::Edit(edit) => {
            let in_set = is_in(undone, differ, edit.group);
            after_edit(alloc, dead, in_set, edit)
        }
        RevStep::Undo(_) => Ok(dead),
    }
}

// What an edit of the set inserts is hidden, and what another one deletes.
fn after_edit(
    alloc: Global,
    dead: Subset,
    in_set: bool,
    edit: &RevEdit,
) -> Result<Subset, AllocError>
    requires grown { length edit.now.inserted ≡ length dead + count edit.now.inserted }
    requires same_length { length edit.now.deleted ≡ length edit.now.inserted }
    ensures { IfOk result (λ s. s ≡ dead_after in_set dead edit.now) }
{
    if in_set {
        return dead.expand_in(alloc, &edit.inserted);
    }
    let before = dead.expand(alloc, &edit.inserted)?;
    before.union(alloc, &edit.deleted)
}
