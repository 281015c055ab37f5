ghost use Rattle.std.specs.Prelude.{◌≡◌, ◌+◌, ◌^◌, ◌<◌, ◌≤◌, ◌↔◌, length, IfOk, IsTrue};
ghost use Rattle.subset_runs.specs.Subset.{expand};
ghost use Rattle.plain_edits.specs.UnitDelta.{IsUnitDelta};
ghost use Rattle.plain_edits.specs.History.{History, head, visible_at};
ghost use Rattle.plain_edits.specs.Edits.{edited};
ghost use Rattle.rev_list.specs.Hidden.{hidden_then};
ghost use Rattle.rev_list.specs.WithoutText.{deletion_flags, insertion_flags, without_text};
ghost use Rattle.rev_rebase.specs.Rebase.{added_text, characters_of, put_in, unit_edit};
ghost use Rattle.rev_rebase.specs.Inner.{GoTogether, deletions_over_all, insertions_over_all};

use crate::later::over_revisions;
use delta_core::{carry_ins, factor};
use plain_edits::{Rank, UnitDelta};
use plain_text::{NoMemory, Text};
use rev_list::{RevList, RevisionsAfter};
use std::alloc::Global;
use subset_runs::Subset;

/// An edit in the positions of the union that it makes: what it inserts there and what it deletes, and the text that it inserts.
#[derive(Drop)]
pub struct Rebased {
    pub inserted: Subset,
    pub deleted: Subset,
    pub text: Text,
}

/// Where an edit goes that was made for the text of revision `rev`, with this priority and by this caller: its insertions stand after
/// the dead characters at their gap, and beside those of later edits by the rule of order, and its deletions drop nothing that came
/// later. A later undo moves nothing.
/// Pushed with these subsets, the edit is the edit step of the history. `priority` has no unit: of two edits at one gap that of the
/// higher one stands right, of equal priorities that of the higher `author`, and of one author the later.
///
/// This costs the runs of what is dead at the head and at the base, those of the edits after the base, and the elements of `units`
/// with the bytes that they add; for each edit after the base the runs of the answer so far besides. Against the head it costs what
/// is dead and the edit alone.
pub fn rebase(
    alloc: Global,
    revs: &RevList,
    rev: u64,
    units: &UnitDelta,
    priority: u32,
    author: u32,
) -> Result<Rebased, NoMemory>
    requires base_kept { revs.now.floor ≤ rev }
    requires base_known { rev ≤ head revs.now }
    requires well_formed { IsUnitDelta units.now }
    requires alive { units.now.base ≡ length (visible_at revs.now rev) }
    requires bound { length revs.now.characters + length (added_text units.now) < 2 ^ 64 }
    ensures inserted { IfOk result (λ made. made.inserted
        ≡ insertion_flags revs.now (unit_edit rev units.now priority author)) }
    ensures deleted { IfOk result (λ made. made.deleted
        ≡ deletion_flags revs.now (unit_edit rev units.now priority author)) }
    ensures text { IfOk result (λ made. made.text ≡ added_text units.now) }
    ensures step { IfOk result (λ made. (history : History) → without_text history ≡ revs.now
        → characters_of (edited history (unit_edit rev units.now priority author))
        ≡ put_in made.inserted made.text (characters_of history)) }
{
    let (dropped, own) = factor(alloc, units)?;
    let dead = dead_then(alloc, revs, rev)?;
    let later = revs.revisions_after(rev);
    let rank = Rank { priority, author };
    let (inserted, deleted) = carried_over(alloc, &own, &dropped, &dead, later, rank)?;
    let text = joined(alloc, units)?;
    Ok(Rebased {
        inserted,
        deleted,
        text,
    })
}

// What an edit inserts and drops in a text, over what is dead there, and then over the later revisions.
fn carried_over(
    alloc: Global,
    own: &Subset,
    dropped: &Subset,
    dead: &Subset,
    later: RevisionsAfter<'_>,
    rank: Rank,
) -> Result<(Subset, Subset), NoMemory>
    requires { GoTogether own.now dropped.now dead.now later rank }
    ensures inserted { IfOk result (λ sets. sets.0
        ≡ insertions_over_all own.now dead.now later.entry rank) }
    ensures deleted { IfOk result (λ sets. sets.1
        ≡ expand (deletions_over_all dropped.now dead.now later.entry)
        (insertions_over_all own.now dead.now later.entry rank)) }
{
    let first = carry_ins(alloc, own, dead, true)?;
    let gone = dropped.expand(alloc, dead)?;
    let (inserted, gone) = over_revisions(alloc, first, gone, later, rank)?;
    let deleted = gone.expand(alloc, &inserted)?;
    Ok((inserted, deleted))
}

// What of the union of a kept revision is dead then.
pub(crate) fn dead_then(alloc: Global, revs: &RevList, rev: u64) -> Result<Subset, NoMemory>
    requires kept { revs.now.floor ≤ rev }
    requires known { rev ≤ head revs.now }
    ensures { IfOk result (λ dead. dead ≡ hidden_then revs.now rev) }
{
    match revs.dead_then(alloc, rev) {
        Ok(dead) => Ok(dead),
        Err(_) => Err(NoMemory),
    }
}

// The texts that a unit delta adds, joined.
pub(crate) fn joined(alloc: Global, units: &UnitDelta) -> Result<Text, NoMemory>
    requires { IsUnitDelta units.now }
    ensures { IfOk result (λ made. made ≡ added_text units.now) }
{
    let mut made = Text::new(alloc);
    for added in units.added.as_slice() {
        made.push_text(&added.text)?;
    }
    Ok(made)
}
