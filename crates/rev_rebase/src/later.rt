// Sets of positions of one union in those of a later one, carried over one revision after the other.
ghost use Rattle.std.specs.Prelude.{◌≡◌, [], ◌∷◌, length, IfOk};
ghost use Rattle.std.specs.List.{fold};
ghost use Rattle.subset_runs.specs.Subset.{count};
ghost use Rattle.rev_rebase.specs.Inner.{Grow, deletions_after, insertions_after, step_rank};

use crate::order::goes_right;
use delta_core::carry_ins;
use plain_edits::Rank;
use plain_text::NoMemory;
use rev_list::{RevEdit, RevStep, RevisionsAfter};
use std::alloc::Global;
use subset_runs::Subset;

// Insertions of a rank, and deletions, in the union that has the insertions of the revisions too.
#[tactic(auto, using(crate::proofs::LaterLemmas::insertions_next, crate::proofs::LaterLemmas::deletions_next))]
pub(crate) fn over_revisions(
    alloc: Global,
    ins: Subset,
    del: Subset,
    revisions: RevisionsAfter<'_>,
    rank: Rank,
) -> Result<(Subset, Subset), NoMemory>
    requires insertions { Grow (count ins) (length ins) revisions }
    requires deletions { Grow 0 (length del) revisions }
    ensures insertions { IfOk result (λ sets. sets.0
        ≡ fold (insertions_after rank) ins revisions.entry) }
    ensures deletions { IfOk result (λ sets. sets.1 ≡ fold deletions_after del revisions.entry) }
{
    let mut inserted = ins;
    let mut deleted = del;
    for revision in revisions {
        inserted = insertions_over(alloc, inserted, revision, rank)?;
        deleted = deletions_over(alloc, deleted, revision)?;
    }
    Ok((inserted, deleted))
}

// An undo moves no insertion.
fn insertions_over(
    alloc: Global,
    ins: Subset,
    revision: &RevStep,
    rank: Rank,
) -> Result<Subset, NoMemory>
    requires { Grow (count ins) (length ins) (revision.now ∷ []) }
    ensures { IfOk result (λ s. s ≡ insertions_after rank ins revision.now) }
{
    match revision {
        RevStep::Edit(edit) => {
            let after = goes_right(rank_of(edit), rank);
            carry_ins(alloc, &ins, &edit.inserted, after)
        }
        RevStep::Undo(_) => Ok(ins),
    }
}

// What orders the insertions of an edit.
fn rank_of(edit: &RevEdit) -> Rank
    ensures { result ≡ step_rank edit.now }
{
    Rank {
        priority: edit.priority,
        author: edit.author,
    }
}

// And it moves no deletion.
fn deletions_over(alloc: Global, del: Subset, revision: &RevStep) -> Result<Subset, NoMemory>
    requires { Grow 0 (length del) (revision.now ∷ []) }
    ensures { IfOk result (λ s. s ≡ deletions_after del revision.now) }
{
    match revision {
        RevStep::Edit(edit) => Ok(del.expand(alloc, &edit.inserted)?),
        RevStep::Undo(_) => Ok(del),
    }
}
