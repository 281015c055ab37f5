ghost use Rattle.std.specs.Prelude.{◌≡◌, ◌≢◌, ℕ, ◌+◌, ◌-◌, ◌<◌, ◌≤◌, ◌↔◌, true, false, List, None, length, map, replicate, IfOk, IfSome, IfNone, OnOk, OnErr};
ghost use Rattle.std.specs.List.{AllByRecursion};
ghost use Rattle.plain_text.specs.Numbers.{has, IsRising};
ghost use Rattle.plain_edits.specs.History.{IsSound, head, loaded, revision_at};
ghost use Rattle.plain_edits.specs.Edits.{undid};
ghost use Rattle.plain_edits.specs.Collection.{is_clean};
ghost use Rattle.plain_edits.specs.HistorySteps.{HasRisingSet, IsByEdits};
ghost use Rattle.plain_edits.specs.Undo.{undone_now};
ghost use Rattle.rev_list.specs.Groups.{AreFirstEdits, IsFirstEdit};
ghost use Rattle.rev_list.specs.Edit.{after_edit, after_revision, undone_by, MayPush, MayPushUndo};
ghost use Rattle.rev_list.specs.Hidden.{AreDeletedLater, AreRevisionsAfter, IsCollected, IsEditAt, IsKeptAt, IsRevisionAt, IsUnknown, hidden_at, hidden_then, is_edit, union_at};
ghost use Rattle.rev_list.specs.Kept.{IsOpen};
ghost use Rattle.rev_list.specs.Settled.{AreSettledGroups, HasLengths, MaySettle, hidden_by_groups, settled_at_head, settled_history};
ghost use Rattle.rev_list.specs.Under.{is_hidden_under};
ghost use Rattle.rev_list.specs.Until.{after_records, history_until, undone_after_step, IsGoneOn, IsRecordAt, MayAllFollow, MayFollow, MayGoOn};

use crate::carry::{after, before, carried, recorded_edit, recorded_undo};
use crate::firsts::FirstEdits;
use crate::records::{Records, RevRecord};
use crate::settled::UpToFloor;
use crate::{Groups, RevEdit, RevFault, RevStep, RevisionsAfter, SettledGroup};
use number_set::NumberSet;
use plain_text::NoMemory;
use std::alloc::{AllocError, Global};
use std::collections::BTreeSet;
use std::marker::Model;
use std::sync::Arc;
use subset_runs::Subset;

/// The revisions from the floor to the head, over the present union. Copies share all their revisions.
#[derive(Drop)]
pub struct RevList {
    /// What is up to the floor.
    settled: Arc<UpToFloor, Global>,
    /// The record of revision n stands at n - floor - 1.
    records: Records,
    /// What is dead at the head.
    dead: Arc<Subset, Global>,
    /// The first edit of each group.
    firsts: FirstEdits,
    /// The groups that are undone at the head.
    undone: NumberSet,
}

impl Model for RevList {
    ghost use Rattle.std.specs.Arc.{arc_value};
    ghost use Rattle.plain_edits.specs.History.{History};

    ghost Value = { History };

    ghost use Rattle.rev_list.specs.Kept.{HoldsRevisions, history_of, steps_of};

    ghost view = { λ s. history_of (arc_value s.settled) (steps_of s.records) };

    ghost invariant = { λ s. HoldsRevisions (arc_value s.settled) s.records (arc_value s.dead) s.firsts s.undone };
}

impl RevList {
    /// The list of a text that was just loaded, with this many characters.
    pub fn start(alloc: Global, len: u64) -> Result<RevList, NoMemory>
        ensures { IfOk result (λ made. made ≡ loaded (replicate len 0)) }
    {
        Ok(RevList {
            settled: Arc::new(alloc, UpToFloor::loaded(alloc, len))?,
            records: Records::new(alloc),
            dead: Arc::new(alloc, Subset::none(alloc, len))?,
            firsts: FirstEdits::start(alloc)?,
            undone: NumberSet::new(alloc),
        })
    }

    /// The last revision, in O(1).
    pub fn head(&self) -> u64
        ensures { result ≡ head self.now }
    {
        self.settled.floor() + self.records.len()
    }

    /// The first revision that may still be asked for, in O(1). It is clean: no edit after it has a base below it.
    pub fn floor(&self) -> u64
        ensures floor { result ≡ self.now.floor }
        ensures clean { is_clean self.now.revisions self.now.floor ≡ true }
        ensures known { self.now.floor ≤ head self.now }
    {
        self.settled.floor()
    }

    /// Whether the group is collected, in the logarithm of the number of runs of collected groups. A collected group has no edit.
    pub fn is_collected(&self, group: u64) -> bool
        ensures collected { result ≡ has self.now.collected group }
        ensures uncollected { AllByRecursion (IsOpen self.now.collected) self.now.revisions }
    {
        self.settled.has_collected(group)
    }

    /// The length of the union as it was at the floor, in O(1).
    pub fn floor_len(&self) -> u64
        ensures { result ≡ length (union_at self.now self.now.floor) }
    {
        self.settled.len()
    }

    /// What is up to the floor, said once for each group that has an edit by then and is not collected, in O(1): with each group what
    /// its edits by the floor inserted and deleted of the union as it was there.
    pub fn settled_groups(&self) -> &[SettledGroup]
        ensures groups { AreSettledGroups self.now result.now }
        ensures lengths { AllByRecursion (HasLengths (length (union_at self.now self.now.floor))) result.now }
        ensures hides { (set : List ℕ)
            → map (is_hidden_under self.now set self.now.floor) (union_at self.now self.now.floor)
            ≡ hidden_by_groups set (length (union_at self.now self.now.floor)) result.now }
    {
        self.settled.groups()
    }

    /// The length of the present union, in O(1).
    pub fn union_len(&self) -> u64
        ensures { result ≡ length self.now.characters }
    {
        self.dead.len()
    }

    /// What is dead at the head, in O(1).
    pub fn dead(&self) -> &Subset
        ensures { result.now ≡ hidden_at self.now (head self.now) }
    {
        &self.dead
    }

    /// The place of the revision among the kept ones, from 0, in O(1).
    pub fn position(&self, rev: u64) -> Result<u64, RevFault>
        ensures found { IfOk result (λ place. place ≡ rev - self.now.floor) }
        ensures unknown { (n : ℕ) → (result ≡ Err (RevFault.Unknown n)) ↔ IsUnknown self.now rev n }
        ensures collected { (n : ℕ) → (result ≡ Err (RevFault.Collected n)) ↔ IsCollected self.now rev n }
        ensures takes_no_memory { result ≢ Err RevFault.NoMemory }
        ensures kept { IfOk result (λ _. IsKeptAt self.now rev) }
    {
        let floor = self.floor();
        let head = self.head();
        if head < rev {
            return Err(RevFault::Unknown(head));
        }
        if rev < floor {
            return Err(RevFault::Collected(floor));
        }
        Ok(rev - floor)
    }

    /// The groups that are undone at the head, in O(1). Each undo of the history has a set without group 0.
    pub fn undone(&self) -> &NumberSet
        ensures groups { result.now ≡ undone_now self.now }
        ensures rising { IsRising result.now }
        ensures sets { AllByRecursion HasRisingSet self.now.revisions }
    {
        &self.undone
    }

    /// The first edit of a group, in the logarithm of the number of groups; none where it has no edit. The loaded text, revision 0,
    /// is of group 0.
    pub fn first_edit(&self, group: u64) -> Option<u64>
        ensures { IsFirstEdit self.now.revisions group result }
    {
        self.firsts.get(group)
    }

    /// A revision after the floor, in O(height). The subsets of an edit are in the positions of the union after it.
    pub fn revision(&self, rev: u64) -> &RevStep
        requires after { self.now.floor < rev }
        requires known { rev ≤ head self.now }
        ensures { IsRevisionAt self.now rev result.now }
    {
        &self.records.get(rev - self.floor() - 1).step
    }

    /// The edit of a revision after the floor, in O(height); none for an undo, and where the revision is not after the floor or is above
    /// the head. Its subsets are in the positions of the union after it.
    pub fn edit(&self, rev: u64) -> Option<&RevEdit>
        ensures some { IfSome result (λ edit. IsEditAt self.now rev edit.now) }
        ensures none { IfNone result (self.now.floor < rev → is_edit (revision_at self.now.revisions rev) ≡ false) }
        ensures past { rev ≤ self.now.floor → result ≡ None }
        ensures unknown { head self.now < rev → result ≡ None }
    {
        if rev <= self.floor() || self.head() < rev {
            return None;
        }
        match self.revision(rev) {
            RevStep::Edit(edit) => Some(edit),
            RevStep::Undo(_) => None,
        }
    }

    /// A walk over the revisions after a revision, edits and undos, the oldest first, in O(1). Each edit's subsets are in the
    /// positions of the union after it, so that a set of positions is carried over one revision after the other, passes an undo by,
    /// and ends in the present union: each character of that is of edits that are there.
    pub fn revisions_after(&self, base: u64) -> RevisionsAfter<'_>
        requires kept { self.now.floor ≤ base }
        requires known { base ≤ head self.now }
        ensures revisions { AreRevisionsAfter self.now base result }
        ensures sound { IsSound self.now }
        ensures later { AreDeletedLater self.now }
        ensures edits { AllByRecursion (IsByEdits self.now.revisions) self.now.characters }
        ensures no_text { AllByRecursion (λ tagged. tagged.character ≡ 0) self.now.characters }
    {
        RevisionsAfter::new(&self.records, base - self.floor())
    }

    /// What of the present union is not visible at the revision. With d revisions after it and r runs in what is dead, O(d · r): at
    /// the head the runs of the answer.
    pub fn dead_at(&self, alloc: Global, rev: u64) -> Result<Subset, RevFault>
        ensures hidden { IfOk result (λ s. s ≡ hidden_at self.now rev) }
        ensures unknown { (n : ℕ) → (result ≡ Err (RevFault.Unknown n)) ↔ IsUnknown self.now rev n }
        ensures collected { (n : ℕ) → (result ≡ Err (RevFault.Collected n)) ↔ IsCollected self.now rev n }
    {
        match self.position(rev) {
            Ok(_) => Ok(self.dead_forward(alloc, rev)?),
            Err(fault) => Err(fault),
        }
    }

    /// What of the union as it was after the revision is not visible at the revision, at the same cost.
    pub fn dead_then(&self, alloc: Global, rev: u64) -> Result<Subset, RevFault>
        ensures hidden { IfOk result (λ s. s ≡ hidden_then self.now rev) }
        ensures unknown { (n : ℕ) → (result ≡ Err (RevFault.Unknown n)) ↔ IsUnknown self.now rev n }
        ensures collected { (n : ℕ) → (result ≡ Err (RevFault.Collected n)) ↔ IsCollected self.now rev n }
    {
        match self.position(rev) {
            Ok(_) => Ok(self.dead_back(alloc, rev)?),
            Err(fault) => Err(fault),
        }
    }

    /// The list as it was at a kept revision, which shares the records up to there with this one: at the head in O(1). Below it costs what
    /// [`RevList::dead_then`] does, and for each revision from the floor up to there the logarithm of the number of groups, or the groups
    /// that it turns.
    pub fn until(&self, alloc: Global, rev: u64) -> Result<RevList, NoMemory>
        requires { IsKeptAt self.now rev }
        ensures { IfOk result (λ made. made ≡ history_until self.now rev) }
    {
        if rev == self.head() {
            return self.until_head(alloc);
        }
        self.until_below(alloc, rev)
    }

    // Up to the head it is the list.
    fn until_head(&self, alloc: Global) -> Result<RevList, NoMemory>
        ensures { IfOk result (λ made. made ≡ history_until self.now (head self.now)) }
    {
        let _walk = self.revisions_after(self.floor());
        self.copy(alloc)
    }

    // The same at any kept revision, by the records up to there.
    fn until_below(&self, alloc: Global, rev: u64) -> Result<RevList, NoMemory>
        requires { IsKeptAt self.now rev }
        ensures { IfOk result (λ made. made ≡ history_until self.now rev) }
    {
        let count = rev - self.floor();
        let dead = self.dead_back(alloc, rev)?;
        let undone = self.undone_until(alloc, count)?;
        let firsts = self.firsts_until(alloc, count)?;
        Ok(RevList {
            settled: Arc::try_clone(&self.settled)?,
            records: self.records.front(alloc, count)?,
            dead: Arc::new(alloc, dead)?,
            firsts,
            undone,
        })
    }

    // The groups that were undone where there are so many records: those that each undo up to there turns are turned.
    fn undone_until(&self, alloc: Global, count: u64) -> Result<NumberSet, NoMemory>
        requires { self.now.floor + count ≤ head self.now }
        ensures { IfOk result (λ set. set ≡ undone_now (history_until self.now (self.now.floor + count))) }
    {
        let mut undone = self.settled.undone().copy(alloc)?;
        let mut at = 0;
        while at < count {
            undone = turned(alloc, &undone, &self.records.get(at).step)?;
            at += 1;
        }
        Ok(undone)
    }

    // The first edit of each group up to where there are so many records.
    fn firsts_until(&self, alloc: Global, count: u64) -> Result<FirstEdits, NoMemory>
        requires { self.now.floor + count ≤ head self.now }
        ensures { IfOk result (λ firsts. AreFirstEdits (history_until self.now (self.now.floor + count)).revisions firsts) }
    {
        let floor = self.settled.floor();
        let mut firsts = FirstEdits::of_groups(alloc, self.settled.groups())?;
        let mut at = 0;
        while at < count {
            firsts = firsts.after(alloc, &self.records.get(at).step, floor + at + 1)?;
            at += 1;
        }
        Ok(firsts)
    }

    /// What is kept of a revision after the floor, in O(height).
    pub fn record(&self, rev: u64) -> &RevRecord
        requires after { self.now.floor < rev }
        requires known { rev ≤ head self.now }
        ensures { IsRecordAt self.now rev result.now }
    {
        self.records.get(rev - self.floor() - 1)
    }

    // From the revision's own union to the present one.
    fn dead_forward(&self, alloc: Global, rev: u64) -> Result<Subset, AllocError>
        requires { IsKeptAt self.now rev }
        ensures { IfOk result (λ s. s ≡ hidden_at self.now rev) }
    {
        let dead = self.dead_back(alloc, rev)?;
        carried(
            alloc,
            dead,
            RevisionsAfter::new(&self.records, rev - self.floor()),
        )
    }

    // From the head back to the revision: what each revision turned is turned back, and its insertions go.
    fn dead_back(&self, alloc: Global, rev: u64) -> Result<Subset, AllocError>
        requires { IsKeptAt self.now rev }
        ensures { IfOk result (λ s. s ≡ hidden_then self.now rev) }
    {
        let first = rev - self.floor();
        let mut dead = self.dead.copy(alloc)?;
        let mut at = self.records.len();
        while first < at {
            at -= 1;
            dead = before(alloc, &dead, self.records.get(at))?;
        }
        Ok(dead)
    }

    /// Makes the edit the next revision and gives its number. It costs the runs of what is dead at the head and those of the edit,
    /// the height of the list, and the logarithm of the number of groups. An edit whose group is undone is hidden on arrival,
    /// and hides nothing. After want of memory the revisions are as before.
    pub fn push_edit(&mut self, alloc: Global, edit: RevEdit) -> Result<u64, NoMemory>
        requires { MayPush self.old edit }
        ensures ok { OnOk result (self.new ≡ after_edit self.old edit) }
        ensures err { OnErr result (self.new ≡ self.old) }
        ensures number { IfOk result (λ rev. rev ≡ head self.old + 1) }
    {
        let group = edit.group;
        let undone = self.undone.has(group);
        let (newest, dead) = recorded_edit(alloc, &self.dead, undone, edit)?;
        let dead = Arc::new(alloc, dead)?;
        let next = self.head() + 1;
        let firsts = self.firsts.with(alloc, group, next)?;
        self.records.push(alloc, newest)?;
        self.dead = dead;
        self.firsts = firsts;
        Ok(next)
    }

    /// Makes an undo the next revision and gives its number: from it on exactly these groups are undone. `dead` is what of the union
    /// is not visible under them. It costs the runs of what is dead before and after, and one pass over the set and over the groups in
    /// which it differs from those that are undone at the head. After want of memory the revisions are as before.
    pub fn push_undo(
        &mut self,
        alloc: Global,
        groups: &BTreeSet<u64>,
        dead: Subset,
    ) -> Result<u64, NoMemory>
        requires { MayPushUndo self.old groups.now.keys dead }
        ensures ok { OnOk result (self.new ≡ undid self.old groups.now.keys) }
        ensures err { OnErr result (self.new ≡ self.old) }
        ensures number { IfOk result (λ rev. rev ≡ head self.old + 1) }
    {
        let differ = self.undone().flipped_by_set(alloc, groups)?;
        let differ = Groups::of_set(alloc, &differ)?;
        self.push_undo_by(alloc, differ.as_slice(), dead)
    }

    /// The same, of the groups in which the new set differs from the groups that are undone at the head, in rising order. For those that
    /// are undone before and after it costs nothing.
    pub fn push_undo_by(
        &mut self,
        alloc: Global,
        groups: &[u64],
        dead: Subset,
    ) -> Result<u64, NoMemory>
        requires rising { IsRising groups.now }
        requires may { MayPushUndo self.old (undone_by self.old groups.now) dead }
        ensures ok { OnOk result (self.new ≡ undid self.old (undone_by self.old groups.now)) }
        ensures err { OnErr result (self.new ≡ self.old) }
        ensures number { IfOk result (λ rev. rev ≡ head self.old + 1) }
    {
        let differ = Groups::of_slice(alloc, groups)?;
        let newest = recorded_undo(alloc, &self.dead, &dead, differ)?;
        let undone = self.undone.flipped(alloc, groups)?;
        let dead = Arc::new(alloc, dead)?;
        let next = self.head() + 1;
        self.records.push(alloc, newest)?;
        self.dead = dead;
        self.undone = undone;
        Ok(next)
    }

    /// Makes the revision of a record the next one, as [`RevList::record`] gives it. It costs the runs of what is dead and of the record,
    /// the height of the list, and the logarithm of the number of groups, or the groups that it turns. After want of memory the revisions
    /// are as before.
    pub fn push_record(&mut self, alloc: Global, newest: RevRecord) -> Result<(), NoMemory>
        requires { MayFollow self.old newest }
        ensures ok { OnOk result (self.new ≡ after_revision self.old newest.step) }
        ensures err { OnErr result (self.new ≡ self.old) }
    {
        let dead = after(alloc, &self.dead, &newest)?;
        let next = self.head() + 1;
        let firsts = self.firsts.after(alloc, &newest.step, next)?;
        let undone = turned(alloc, &self.undone, &newest.step)?;
        let dead = Arc::new(alloc, dead)?;
        self.records.push(alloc, newest)?;
        self.dead = dead;
        self.firsts = firsts;
        self.undone = undone;
        Ok(())
    }

    /// The list with the revisions of another one after its own head, which are shared with that. It costs the height of the lists, and for each
    /// of these revisions the logarithm of the number of groups: nothing of what it changes or of what is dead.
    pub fn going_on(&self, alloc: Global, other: &RevList) -> Result<RevList, NoMemory>
        requires { MayGoOn self.now other.now }
        ensures { IfOk result (IsGoneOn self.now other.now) }
    {
        let later = other.records.back(alloc, self.head() - other.floor())?;
        let firsts = self.firsts_with(alloc, &later)?;
        Ok(RevList {
            settled: Arc::try_clone(&self.settled)?,
            records: self.records.joined(alloc, &later)?,
            dead: Arc::try_clone(&other.dead)?,
            firsts,
            undone: other.undone.copy(alloc)?,
        })
    }

    // The first edit of each group, after these records.
    fn firsts_with(&self, alloc: Global, later: &Records) -> Result<FirstEdits, NoMemory>
        requires { MayAllFollow self.now later.now }
        ensures { IfOk result (λ firsts. AreFirstEdits (after_records self.now later.now).revisions firsts) }
    {
        let head = self.head();
        let mut firsts = self.firsts.copy(alloc)?;
        let mut at = 0;
        while at < later.len() {
            firsts = firsts.after(alloc, &later.get(at).step, head + at + 1)?;
            at += 1;
        }
        Ok(firsts)
    }

    /// The list whose floor is the head, with these groups up to there, where the groups of `collected` are collected beside those that
    /// were. It costs the logarithm of the number of groups for each of them, and that of the collected ones for each of `collected`.
    pub fn settled(
        &self,
        alloc: Global,
        groups: Vec<SettledGroup>,
        collected: &BTreeSet<u64>,
        dead: Subset,
    ) -> Result<RevList, NoMemory>
        requires { MaySettle self.now groups.items collected.now.keys dead }
        ensures { IfOk result (λ made. made
            ≡ settled_history (settled_at_head self.now groups.items collected.now.keys (length dead))) }
    {
        let firsts = FirstEdits::of_groups(alloc, &groups)?;
        let undone = self.undone.copy(alloc)?;
        let head = self.head();
        let settled = self
            .settled
            .collecting(alloc, head, dead.len(), groups, undone, collected)?;
        Ok(RevList {
            settled: Arc::new(alloc, settled)?,
            records: Records::new(alloc),
            dead: Arc::new(alloc, dead)?,
            firsts,
            undone: self.undone.copy(alloc)?,
        })
    }

    /// The same revisions, which are shared with this list, in O(1).
    pub fn copy(&self, alloc: Global) -> Result<RevList, NoMemory>
        ensures { IfOk result (λ made. made ≡ self.now) }
    {
        Ok(RevList {
            settled: Arc::try_clone(&self.settled)?,
            records: self.records.copy(alloc)?,
            dead: Arc::try_clone(&self.dead)?,
            firsts: self.firsts.copy(alloc)?,
            undone: self.undone.copy(alloc)?,
        })
    }
}

// The groups that are undone after a step, where these were before it.
fn turned(alloc: Global, groups: &NumberSet, step: &RevStep) -> Result<NumberSet, NoMemory>
    ensures { IfOk result (λ set. set ≡ undone_after_step groups.now step.now) }
{
    match step {
        RevStep::Edit(_) => groups.copy(alloc),
        RevStep::Undo(others) => groups.flipped(alloc, others.as_slice()),
    }
}
