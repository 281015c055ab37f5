//! The engine, and the list of revisions with the crates that work on it, beside the plain history.

ghost use Rattle.std.specs.Prelude.{◌≤◌, IfOk, IfSome};

use crate::refusal::{Answer, Refusal, now_undone};
use crate::run::MOST;
use anyhow::{Result, bail, ensure};
use delta_core::{fits, to_units};
use plain_collection::{is_dropped, is_visible_under, kept};
use plain_edits::UnitDelta;
use plain_history::{PlainHistory, Tagged, UnitEdit, has, is_visible, merged};
use plain_text::{List, NoMemory, Text, TryClone};
use rev_collect::may_collect;
use rev_engine::{Change, Edit, Engine, UndoFault};
use rev_list::{RevEdit, RevList};
use rev_rebase::{may_rebase, rebase};
use rev_undo::{agrees_on_collected, may_undo, recompute};
use std::alloc::{AllocError, Global};
use std::collections::BTreeSet;
use subset_runs::Subset;

/// What is compared with the plain history.
#[derive(Drop)]
pub struct Bodies {
    alloc: Global,
    list: RevList,
    engine: Engine,
}

impl Bodies {
    /// Those of a text that was just loaded.
    pub fn new(alloc: Global, text: &Text, limit: u64) -> Result<Bodies> {
        ensure!(limit <= 1 << 60, "no engine has this limit");
        Ok(Bodies {
            alloc,
            list: RevList::start(alloc, text.char_count())?,
            engine: Engine::of_text(alloc, text.copy(alloc)?, limit)?,
        })
    }

    /// Answers an edit as the plain history did, and is as that is after it.
    pub fn edit(&mut self, plain: &PlainHistory, edit: &Edit, answer: Answer) -> Result<()> {
        let is_closed = self.engine.is_collected(edit.group);
        ensure!(
            is_closed == self.list.is_collected(edit.group),
            "the list has the group otherwise"
        );
        if is_closed {
            return is_answer(answer, Refusal::Closed);
        }
        ensure!(
            edit.group > 0 && self.engine.head() <= MOST,
            "it cannot be asked"
        );
        match self.engine.edit(self.alloc, edit) {
            Ok(change) => {
                ensure!(answer.is_none(), "the engine takes the edit");
                push(self.alloc, plain, &mut self.list, edit)?;
                self.compare(plain, change)
            }
            Err(fault) => is_answer(answer, Refusal::Edit(fault)),
        }
    }

    /// Answers an undo as the plain history did, and is as that is after it.
    pub fn undo(&mut self, plain: &PlainHistory, groups: &[u64], answer: Answer) -> Result<()> {
        let set = set_of(self.alloc, groups)?;
        ensure!(
            may_undo(&self.list, &set) == answer.is_none(),
            "rev_undo says it otherwise"
        );
        if !self.engine.may_undo(&set) {
            return is_answer(answer, Refusal::NoEdit);
        }
        match self.engine.set_undone(self.alloc, &set) {
            Ok(change) => {
                ensure!(answer.is_none(), "the engine takes the undo");
                push_undo(self.alloc, &mut self.list, &set)?;
                self.compare(plain, change)
            }
            Err(UndoFault::Frozen(group)) => is_answer(answer, Refusal::Frozen(group)),
            Err(UndoFault::NoMemory) => bail!("out of memory"),
        }
    }

    /// Answers a collection as the plain history did, and is as that is after it.
    pub fn collect(&mut self, plain: &PlainHistory, floor: u64, groups: &[u64]) -> Result<()> {
        let groups = set_of(self.alloc, groups)?;
        ensure!(
            self.engine.may_collect(self.alloc, floor, &groups)?,
            "the engine refuses it"
        );
        self.engine.collect(self.alloc, floor, &groups)?;
        ensure!(
            may_collect(self.alloc, &self.list, floor, &groups)?,
            "rev_collect refuses it"
        );
        self.list = rev_collect::collect(self.alloc, &self.list, floor, &groups)?.0;
        self.compare_state(plain)
    }

    /// Is as the plain history is after its last revision, and the change is that of this revision.
    fn compare(&self, plain: &PlainHistory, change: Change) -> Result<()> {
        let Change { rev, units } = change;
        ensure!(rev == plain.head(), "the engine gives revision {rev}");
        leads_to_head(self.alloc, plain, rev.saturating_sub(1), units)?;
        self.compare_state(plain)
    }

    /// Has the floor, the revisions and the collected groups of the plain history, keeps as many characters, shows the same, and would
    /// under any set of the first groups.
    fn compare_state(&self, plain: &PlainHistory) -> Result<()> {
        let engine = &self.engine;
        ensure!(
            engine.floor() == plain.floor(),
            "the engine has another floor"
        );
        ensure!(engine.head() == plain.head(), "the engine has another head");
        ensure!(
            engine.kept() == kept(plain),
            "the engine keeps other characters"
        );
        ensure!(
            self.list.union_len() == kept(plain),
            "rev_list keeps others"
        );
        for revision in plain.revisions() {
            let group = revision.group();
            let is_closed = has(plain.collected(), group);
            ensure!(engine.is_collected(group) == is_closed, "group {group}");
        }
        for rev in plain.floor()..=plain.head() {
            self.compare_at(plain, rev)?;
        }
        for choice in 0..16 {
            let groups = chosen_groups(self.alloc, plain, choice)?;
            let is_compared = self.compare_under(plain, groups.as_slice())?;
            ensure!(is_compared, "choice {choice} is not compared");
        }
        Ok(())
    }

    /// The engine shows the text of the plain history at the revision, and tells an edit since then that leads to the head text; the
    /// list hides there what the plain history does.
    fn compare_at(&self, plain: &PlainHistory, rev: u64) -> Result<()> {
        let is = self.engine.text_at(self.alloc, rev)?;
        let shown = plain.text_at(self.alloc, rev)?;
        ensure!(is.as_str() == shown.as_str(), "revision {rev} shows {is:?}");
        leads_to_head(self.alloc, plain, rev, self.engine.since(self.alloc, rev)?)?;
        let dead = self.list.dead_at(self.alloc, rev)?;
        let is_same = has_exactly(plain, &dead, |t| !is_visible(plain.revisions(), rev, t));
        ensure!(is_same, "rev_list hides others at revision {rev}");
        Ok(())
    }

    /// `rev_undo` hides under the set of these groups what the plain history does, where the collected groups are in it as they are at
    /// the head; whether they are.
    pub fn compare_under(&self, plain: &PlainHistory, groups: &[u64]) -> Result<bool> {
        let set = set_of(self.alloc, groups)?;
        if !agrees_on_collected(&self.list, &set) {
            return Ok(false);
        }
        let dead = recompute(self.alloc, &self.list, &set)?;
        let head = plain.head();
        let is_same = has_exactly(plain, &dead, |t| !is_visible_under(plain, groups, head, t));
        ensure!(is_same, "rev_undo hides others under {groups:?}");
        Ok(true)
    }
}

/// The answer is this refusal.
fn is_answer(answer: Answer, refusal: Refusal) -> Result<()> {
    ensure!(answer == Some(refusal), "the engine answers {refusal:?}");
    Ok(())
}

/// Puts the last edit of the plain history into the list, where `rebase` puts it.
#[tactic(auto, using(crate::proofs::Sets::grown_flags, crate::proofs::Sets::same_flags))]
fn push(alloc: Global, plain: &PlainHistory, list: &mut RevList, edit: &Edit) -> Result<()>
    requires { 1 ≤ edit.now.group }
{
    let text = plain.text_at(alloc, edit.rev)?;
    ensure!(fits(&text, &edit.delta).is_ok(), "the delta does not fit");
    let units = to_units(alloc, &text, &edit.delta)?;
    let may = may_rebase(alloc, list, edit.rev, &units)?;
    ensure!(
        may && !list.is_collected(edit.group) && list.head() <= MOST,
        "it cannot be asked"
    );
    let made = rebase(alloc, list, edit.rev, &units, edit.priority, edit.author)?;
    let rev = plain.head();
    let is_inserted = has_exactly(plain, &made.inserted, |t| t.inserted() == rev);
    let is_deleted = has_exactly(plain, &made.deleted, |t| has(t.deleted(), rev));
    ensure!(is_inserted && is_deleted, "rev_rebase puts it elsewhere");
    let rev_edit = RevEdit {
        base: edit.rev,
        priority: edit.priority,
        group: edit.group,
        author: edit.author,
        inserted: made.inserted,
        deleted: made.deleted,
    };
    list.push_edit(alloc, rev_edit)?;
    Ok(())
}

/// Puts the last undo of the plain history into the list, with what `rev_undo` says that it hides.
fn push_undo(alloc: Global, list: &mut RevList, set: &BTreeSet<u64>) -> Result<()> {
    ensure!(
        may_undo(list, set) && list.head() <= MOST,
        "it cannot be asked"
    );
    let dead = recompute(alloc, list, set)?;
    list.push_undo(alloc, set, dead)?;
    Ok(())
}

/// The delta leads from the text of the revision to the head text.
fn leads_to_head(alloc: Global, plain: &PlainHistory, rev: u64, units: UnitDelta) -> Result<()> {
    let before = plain.text_at(alloc, rev)?;
    let UnitDelta { base, kept, added } = units;
    ensure!(base == before.char_count(), "revision {rev} has not {base}");
    let edit = UnitEdit {
        base: 0,
        kept,
        added,
        group: 0,
        priority: 0,
        author: 0,
    };
    let is = merged(alloc, &before, &[edit])?;
    let shown = plain.text_at(alloc, plain.head())?;
    ensure!(is.as_str() == shown.as_str(), "since {rev}, to {is:?}");
    Ok(())
}

/// The collected groups that are undone, and of the first four others those that the bits of the choice say.
fn chosen_groups(alloc: Global, plain: &PlainHistory, choice: u64) -> Result<List<u64>, NoMemory> {
    let mut chosen = List::new(alloc);
    let mut bits = choice;
    for group in 1..=last_group(plain) {
        let is_closed = has(plain.collected(), group);
        if is_closed && has(now_undone(plain), group) || !is_closed && bits % 2 == 1 {
            chosen.push(group)?;
        }
        if !is_closed {
            bits /= 2;
        }
    }
    Ok(chosen)
}

/// The fourth number after the last collected group, so that at least four groups up to it are not collected.
pub fn last_group(plain: &PlainHistory) -> u64 {
    match plain.collected().last() {
        Some(group) => group.saturating_add(4),
        None => 4,
    }
}

fn set_of(alloc: Global, groups: &[u64]) -> Result<BTreeSet<u64>, AllocError> {
    let mut set = BTreeSet::new(alloc);
    for group in groups {
        set.insert(*group)?;
    }
    Ok(set)
}

/// Whether of the characters that are kept the set has exactly these.
fn has_exactly<F: Fn(&Tagged) -> bool>(plain: &PlainHistory, set: &Subset, is_in: F) -> bool
    requires { F.IsAlwaysCallable is_in }
{
    let mut index = 0_u64;
    for tagged in plain.characters() {
        if !is_dropped(plain, tagged) {
            if set.contains(index) != is_in(tagged) {
                return false;
            }
            index = index.saturating_add(1);
        }
    }
    index == set.len()
}
