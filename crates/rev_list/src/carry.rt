// What is dead, from the union of one revision to that of a later one or an earlier one.
ghost use Rattle.std.specs.Prelude.{◌≡◌, ◌+◌, [], ◌∷◌, length, IfOk};
ghost use Rattle.std.specs.List.{fold};
ghost use Rattle.subset_runs.specs.Subset.{count, expand, symmetric_difference};
ghost use Rattle.rev_list.specs.declared.step.RevStep.TheVariants.{Edit, Undo};
ghost use Rattle.rev_list.specs.Kept.{dead_after, dead_before, grown_by, GrowFrom, HasLength};
ghost use Rattle.rev_list.specs.Inner.{dead_later};

use crate::records::RevRecord;
use crate::{Groups, RevEdit, RevStep, RevisionsAfter};
use std::alloc::{AllocError, Global};
use subset_runs::Subset;

// The record of an edit, and what is dead after it, where `dead` was before; `undone` says whether its group is undone.
pub(crate) fn recorded_edit(
    alloc: Global,
    dead: &Subset,
    undone: bool,
    edit: RevEdit,
) -> Result<(RevRecord, Subset), AllocError>
    requires grown { length edit.inserted ≡ length dead.now + count edit.inserted }
    requires same_length { length edit.deleted ≡ length edit.inserted }
    ensures step { IfOk result (λ made. made.0.step ≡ Edit edit) }
    ensures turned { IfOk result (λ made. made.0.turned
        ≡ symmetric_difference (expand dead.now edit.inserted) (dead_after undone dead.now edit)) }
    ensures dead { IfOk result (λ made. made.1 ≡ dead_after undone dead.now edit) }
{
    let before = dead.expand(alloc, &edit.inserted)?;
    let after = after_edit(alloc, dead, &before, undone, &edit)?;
    let turned = before.symmetric_difference(alloc, &after)?;
    Ok((
        RevRecord {
            step: RevStep::Edit(edit),
            turned,
        },
        after,
    ))
}

// An edit whose group is undone is hidden on arrival, and hides nothing.
fn after_edit(
    alloc: Global,
    dead: &Subset,
    before: &Subset,
    undone: bool,
    edit: &RevEdit,
) -> Result<Subset, AllocError>
    requires before { before.now ≡ expand dead.now edit.now.inserted }
    requires grown { length edit.now.inserted ≡ length dead.now + count edit.now.inserted }
    requires same_length { length edit.now.deleted ≡ length edit.now.inserted }
    ensures { IfOk result (λ s. s ≡ dead_after undone dead.now edit.now) }
{
    if undone {
        return dead.expand_in(alloc, &edit.inserted);
    }
    before.union(alloc, &edit.deleted)
}

// The record of an undo, where `dead` was dead before it and `after` is after it.
pub(crate) fn recorded_undo(
    alloc: Global,
    dead: &Subset,
    after: &Subset,
    groups: Groups,
) -> Result<RevRecord, AllocError>
    requires { length dead.now ≡ length after.now }
    ensures step { IfOk result (λ made. made.step ≡ Undo groups) }
    ensures turned { IfOk result (λ made. made.turned ≡ symmetric_difference dead.now after.now) }
{
    let turned = dead.symmetric_difference(alloc, after)?;
    Ok(RevRecord {
        step: RevStep::Undo(groups),
        turned,
    })
}

// What was dead before a revision, in the positions of the union before it, where `dead` is after it.
pub(crate) fn before(alloc: Global, dead: &Subset, last: &RevRecord) -> Result<Subset, AllocError>
    requires same_length { length dead.now ≡ length last.now.turned }
    requires fits { HasLength (length dead.now) last.now.step }
    ensures { IfOk result (λ s. s ≡ dead_before dead.now last.now) }
{
    let turned = dead.symmetric_difference(alloc, &last.turned)?;
    match &last.step {
        RevStep::Edit(edit) => turned.shrink(alloc, &edit.inserted),
        RevStep::Undo(_) => Ok(turned),
    }
}

// What is dead after a revision, where `dead` was before it.
pub(crate) fn after(alloc: Global, dead: &Subset, newest: &RevRecord) -> Result<Subset, AllocError>
    requires fits { GrowFrom (length dead.now) (newest.now.step ∷ []) }
    requires same_length { length (grown_by dead.now newest.now.step) ≡ length newest.now.turned }
    ensures { IfOk result (λ s. s ≡ symmetric_difference (grown_by dead.now newest.now.step) newest.now.turned) }
{
    match &newest.step {
        RevStep::Edit(edit) => {
            let grown = dead.expand(alloc, &edit.inserted)?;
            grown.symmetric_difference(alloc, &newest.turned)
        }
        RevStep::Undo(_) => dead.symmetric_difference(alloc, &newest.turned),
    }
}

// What is dead in the union after the revisions, where all that they insert is dead too.
pub(crate) fn carried(
    alloc: Global,
    dead: Subset,
    revisions: RevisionsAfter<'_>,
) -> Result<Subset, AllocError>
    requires { GrowFrom (length dead) revisions }
    ensures { IfOk result (λ s. s ≡ fold dead_later dead revisions.entry) }
{
    let mut out = dead;
    for revision in revisions {
        out = later(alloc, out, revision)?;
    }
    Ok(out)
}

fn later(alloc: Global, dead: Subset, revision: &RevStep) -> Result<Subset, AllocError>
    requires { GrowFrom (length dead) (revision.now ∷ []) }
    ensures { IfOk result (λ s. s ≡ dead_later dead revision.now) }
{
    match revision {
        RevStep::Edit(edit) => dead.expand_in(alloc, &edit.inserted),
        RevStep::Undo(_) => Ok(dead),
    }
}
