// A collection below the head: the revisions after the floor, without what is dropped.
ghost use Rattle.std.specs.Prelude.{◌≡◌, [], ◌∷◌, length, IfOk, OnOk};
ghost use Rattle.subset_runs.specs.Subset.{count};
ghost use Rattle.plain_edits.specs.History.{head};
ghost use Rattle.plain_edits.specs.Collection.{MayCollect};
ghost use Rattle.rev_list.specs.Edit.{after_revision};
ghost use Rattle.rev_list.specs.Kept.{grown_by, GrowFrom};
ghost use Rattle.rev_list.specs.Until.{MayFollow};
ghost use Rattle.rev_collect.specs.Later.{record_without, step_without, HasLengthsOf, IsLeftUntil, IsOfLength};

use plain_text::NoMemory;
use rev_list::{RevEdit, RevList, RevRecord, RevStep};
use std::alloc::{AllocError, Global};
use std::collections::BTreeSet;
use subset_runs::Subset;

// With the revisions after the floor, where `left` is what is left up to there and `dropped` what goes of the union as it was there. Where that
// is nothing, the revisions are shared.
pub(crate) fn with_later(
    alloc: Global,
    revs: &RevList,
    floor: u64,
    groups: &BTreeSet<u64>,
    left: RevList,
    dropped: Subset,
) -> Result<(RevList, Subset), NoMemory>
    requires may { MayCollect revs.now floor groups.now.keys }
    requires left { IsLeftUntil revs.now floor groups.now.keys floor left dropped }
    ensures { IfOk result (λ made. IsLeftUntil revs.now floor groups.now.keys (head revs.now) made.0 made.1) }
{
    if dropped.count() == 0 {
        return with_shared(alloc, revs, floor, groups, &left, &dropped);
    }
    with_each(alloc, revs, floor, groups, left, dropped)
}

// The same where nothing is dropped: for each revision the logarithm of the number of groups.
fn with_shared(
    alloc: Global,
    revs: &RevList,
    floor: u64,
    groups: &BTreeSet<u64>,
    left: &RevList,
    dropped: &Subset,
) -> Result<(RevList, Subset), NoMemory>
    requires may { MayCollect revs.now floor groups.now.keys }
    requires left { IsLeftUntil revs.now floor groups.now.keys floor left.now dropped.now }
    requires none { count dropped.now ≡ 0 }
    ensures { IfOk result (λ made. IsLeftUntil revs.now floor groups.now.keys (head revs.now) made.0 made.1) }
{
    let _walk = revs.revisions_after(floor);
    let _open = revs.is_collected(0);
    let _sets = revs.undone();
    let made = left.going_on(alloc, revs)?;
    Ok((made, Subset::none(alloc, revs.union_len())))
}

// The same, one by one: for each of them the runs of its edit, of what is dropped and of what is dead.
fn with_each(
    alloc: Global,
    revs: &RevList,
    floor: u64,
    groups: &BTreeSet<u64>,
    left: RevList,
    dropped: Subset,
) -> Result<(RevList, Subset), NoMemory>
    requires may { MayCollect revs.now floor groups.now.keys }
    requires left { IsLeftUntil revs.now floor groups.now.keys floor left dropped }
    ensures { IfOk result (λ made. IsLeftUntil revs.now floor groups.now.keys (head revs.now) made.0 made.1) }
{
    let _walk = revs.revisions_after(floor);
    let _open = revs.is_collected(0);
    let _sets = revs.undone();
    let mut left = left;
    let mut dropped = dropped;
    let mut at = floor;
    while at < revs.head() {
        at += 1;
        dropped = with_record(alloc, &mut left, dropped, revs.record(at))?;
    }
    Ok((left, dropped))
}

// With one more revision. After want of memory nothing is known of the list.
fn with_record(
    alloc: Global,
    left: &mut RevList,
    dropped: Subset,
    next: &RevRecord,
) -> Result<Subset, NoMemory>
    requires grows { GrowFrom (length dropped) (next.now.step ∷ []) }
    requires fits { HasLengthsOf (length (grown_by dropped next.now.step)) next.now }
    requires may { MayFollow left.old (record_without (grown_by dropped next.now.step) next.now) }
    ensures left { OnOk result (left.new
        ≡ after_revision left.old (step_without (grown_by dropped next.now.step) next.now.step)) }
    ensures dropped { IfOk result (λ made. made ≡ grown_by dropped next.now.step) }
{
    let dropped = grown(alloc, dropped, &next.step)?;
    let newest = without(alloc, next, &dropped)?;
    left.push_record(alloc, newest)?;
    Ok(dropped)
}

// What is dropped of the union after the step, which inserts nothing that is.
fn grown(alloc: Global, dropped: Subset, step: &RevStep) -> Result<Subset, AllocError>
    requires { GrowFrom (length dropped) (step.now ∷ []) }
    ensures { IfOk result (λ made. made ≡ grown_by dropped step.now) }
{
    match step {
        RevStep::Edit(edit) => dropped.expand(alloc, &edit.inserted),
        RevStep::Undo(_) => Ok(dropped),
    }
}

fn without(alloc: Global, from: &RevRecord, dropped: &Subset) -> Result<RevRecord, AllocError>
    requires { HasLengthsOf (length dropped.now) from.now }
    ensures { IfOk result (λ made. made ≡ record_without dropped.now from.now) }
{
    Ok(RevRecord {
        step: step_without(alloc, &from.step, dropped)?,
        turned: from.turned.shrink(alloc, dropped)?,
    })
}

fn step_without(alloc: Global, step: &RevStep, dropped: &Subset) -> Result<RevStep, AllocError>
    requires { IsOfLength (length dropped.now) step.now }
    ensures { IfOk result (λ made. made ≡ step_without dropped.now step.now) }
{
    match step {
        RevStep::Edit(edit) => Ok(RevStep::Edit(RevEdit {
            base: edit.base,
            priority: edit.priority,
            group: edit.group,
            author: edit.author,
            inserted: edit.inserted.shrink(alloc, dropped)?,
            deleted: edit.deleted.shrink(alloc, dropped)?,
        })),
        RevStep::Undo(groups) => Ok(RevStep::Undo(groups.copy(alloc)?)),
    }
}
