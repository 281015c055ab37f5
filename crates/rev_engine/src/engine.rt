ghost use Rattle.std.specs.List.{flat_map};
ghost use Rattle.std.specs.Prelude.{◌≡◌, ◌≢◌, ◌+◌, ◌^◌, ◌<◌, ◌≤◌, ◌↔◌, ℕ, false, None, length, IfOk, IfErr, IfSome, IsTrue, OnErr, OnOk};
ghost use Rattle.plain_text.specs.Numbers.{has, IsRising};
ghost use Rattle.plain_text.specs.Text.{byte_len};
ghost use Rattle.plain_edits.specs.UnitDelta.{IsCanonical, IsUnitDelta};
ghost use Rattle.plain_edits.specs.History.{History, head, loaded, text_at};
ghost use Rattle.plain_edits.specs.Collection.{collected_at, collection_of, kept};
ghost use Rattle.rev_collect.specs.Choice.{collection_said};
ghost use Rattle.plain_edits.specs.Edits.{edit_refusal, edited, undid};
ghost use Rattle.plain_edits.specs.Undo.{undone_now};
ghost use Rattle.rev_list.specs.Edit.{undone_by};
ghost use Rattle.rev_undo.specs.Under.{AgreesOnCollected};
ghost use Rattle.delta_core.specs.Synthesis.{IsBetween};
ghost use Rattle.rev_list.specs.Hidden.{IsCollected, IsKeptAt, IsUnknown, hidden_at};
ghost use Rattle.rev_rebase.specs.Rebase.{added_text};
ghost use Rattle.rev_engine.specs.Engine.{IsChange, IsChangeBy, IsSaidBy, IsSince, StandsFor, asked_by, in_characters};
ghost use Rattle.plain_edits.specs.EditFault.{Refuses};
ghost use Rattle.rev_engine.specs.Given.{AskedEdit, MayAsk, after};
ghost use Rattle.rev_engine.specs.Asked.{BeginsAfter, IsCollectionTaken, IsFrozenAt, MayAskUndo};
ghost use Rattle.rev_engine.specs.State.{IsHistoryOf, shown_at};
ghost use Rattle.rev_engine.specs.Inner.{IsAnswered, IsFitting, IsNext, IsNextLeft, IsPutIn, IsUnitsFor};

use crate::flat::{alive, whole};
use crate::step::{Fitting, PutIn, put_in, shown_after, units_from, units_of_heads, without};
use crate::undo::{are_known, frozen, has_number, is_set_known};
use crate::{Change, Edit, EditFault, UndoFault, UnitEdit, short};
use plain_edits::{Added, UnitDelta};
use plain_text::{NoMemory, Text};
use rev_collect::{collect, collectable, may_collect};
use rev_list::{Groups, RevFault, RevList};
use rev_undo::recompute_by;
use rope_tree::Rope;
use std::alloc::Global;
use std::collections::BTreeSet;
use std::marker::Model;

/// A text that many edit, with all its revisions.
#[derive(Drop)]
pub struct Engine {
    /// All characters that were ever inserted, in order.
    union: Rope,
    /// Those of them that the head shows.
    text: Rope,
    revs: RevList,
    limit: u64,
    /// How many characters were inserted after loading.
    spent: u64,
}

impl Model for Engine {
    ghost use Rattle.rev_engine.specs.State.{State};

    ghost Value = { State };

    ghost use Rattle.rev_engine.specs.State.{IsHeld};

    ghost view = { λ e. record { union = e.union; revisions = e.revs; limit = e.limit; spent = e.spent } };

    ghost invariant = { λ e. IsHeld e.union e.text e.revs e.limit e.spent };
}

// The engine after an edit, and what the edit changes.
#[derive(Drop)]
struct Next {
    engine: Engine,
    change: Change,
}

impl Engine {
    /// The engine of a text that was just loaded, in its time. `limit` is the most characters that may be inserted from now on, the
    /// deleted ones too. The only error is want of memory.
    pub fn of_text(alloc: Global, text: Text, limit: u64) -> Result<Engine, NoMemory>
        requires { limit ≤ 2 ^ 60 }
        ensures stands { IfOk result (λ made. StandsFor made (loaded text)) }
        ensures limit { IfOk result (λ made. made.limit ≡ limit) }
    {
        let _bytes = len_of(&text);
        let revs = RevList::start(alloc, text.char_count())?;
        let union = Rope::of_text(alloc, &text)?;
        let head = union.copy(alloc)?;
        Ok(Engine {
            union,
            text: head,
            revs,
            limit,
            spent: 0,
        })
    }

    /// The last revision, in O(1).
    pub fn head(&self) -> u64
        ensures head { (history : History) → StandsFor self.now history → result ≡ head history }
        ensures revisions { result ≡ head self.now.revisions }
    {
        self.revs.head()
    }

    /// The first revision that may still be asked for, in O(1).
    pub fn floor(&self) -> u64
        ensures floor { (history : History) → StandsFor self.now history → result ≡ history.floor }
        ensures revisions { result ≡ self.now.revisions.floor }
        ensures known { self.now.revisions.floor ≤ head self.now.revisions }
    {
        self.revs.floor()
    }

    /// What the head shows, in O(1) and without memory.
    pub fn head_rope(&self) -> &Rope
        ensures text { (history : History) → StandsFor self.now history → result.now ≡ text_at history (head history) }
        ensures shown { result.now ≡ shown_at self.now.union self.now.revisions (head self.now.revisions) }
    {
        &self.text
    }

    /// Whether the group is collected, in the logarithm of the number of collected groups. No edit may be of such a group.
    pub fn is_collected(&self, group: u64) -> bool
        ensures collected { (history : History) → StandsFor self.now history → result ≡ has history.collected group }
        ensures revisions { result ≡ has self.now.revisions.collected group }
    {
        self.revs.is_collected(group)
    }

    /// Whether the first edit of a group that is not collected is after a revision from the floor on, in the logarithm of the number of
    /// groups. So it is false of a group that has no edit.
    pub fn begins_after(&self, group: u64, rev: u64) -> bool
        requires { self.now.revisions.floor ≤ rev }
        ensures { (history : History) → StandsFor self.now history → has history.collected group ≡ false
            → IsTrue result ↔ BeginsAfter history group rev }
    {
        match self.revs.first_edit(group) {
            Some(first) => rev < first,
            None => false,
        }
    }

    /// How many characters can still be shown by a kept revision, in O(1).
    pub fn kept(&self) -> u64
        ensures { (history : History) → StandsFor self.now history → result ≡ kept history }
    {
        self.revs.union_len()
    }

    /// What a revision shows: at the head in the time of its text, and for an older revision in that of the union text and of
    /// `RevList::dead_at`. `Unknown` comes above the head, and `Collected` below the floor.
    pub fn text_at(&self, alloc: Global, rev: u64) -> Result<Text, RevFault>
        ensures text { (history : History) → StandsFor self.now history
            → IfOk result (λ text. text ≡ text_at history rev) }
        ensures unknown { (history : History) → StandsFor self.now history
            → (n : ℕ) → (result ≡ Err (RevFault.Unknown n)) ↔ IsUnknown history rev n }
        ensures collected { (history : History) → StandsFor self.now history
            → (n : ℕ) → (result ≡ Err (RevFault.Collected n)) ↔ IsCollected history rev n }
    {
        self.shown(alloc, rev)
    }

    /// What a revision shows, as a rope: at the head it is shared, in O(1), and for an older revision it costs what `RevList::dead_at`
    /// does, and for each run of what is dead there the height of the union: no text is walked over. It is refused as [`Engine::text_at`] is.
    pub fn rope_at(&self, alloc: Global, rev: u64) -> Result<Rope, RevFault>
        ensures text { (history : History) → StandsFor self.now history
            → IfOk result (λ text. text ≡ text_at history rev) }
        ensures unknown { (history : History) → StandsFor self.now history
            → (n : ℕ) → (result ≡ Err (RevFault.Unknown n)) ↔ IsUnknown history rev n }
        ensures collected { (history : History) → StandsFor self.now history
            → (n : ℕ) → (result ≡ Err (RevFault.Collected n)) ↔ IsCollected history rev n }
    {
        self.shown_rope(alloc, rev)
    }

    /// The edit in characters from the text of a revision to the head text, canonical; refused as [`Engine::text_at`] is. It costs what
    /// `RevList::dead_at` does, the runs of what is dead at both, and for each run of characters that appear the height of the union and
    /// these characters: it reads no others.
    pub fn since(&self, alloc: Global, rev: u64) -> Result<UnitDelta, RevFault>
        ensures since { (history : History) → StandsFor self.now history
            → IfOk result (IsSince history rev) }
        ensures unknown { (history : History) → StandsFor self.now history
            → (n : ℕ) → (result ≡ Err (RevFault.Unknown n)) ↔ IsUnknown history rev n }
        ensures collected { (history : History) → StandsFor self.now history
            → (n : ℕ) → (result ≡ Err (RevFault.Collected n)) ↔ IsCollected history rev n }
    {
        self.units_since(alloc, rev)
    }

    // The same, where nothing is said of a history with text.
    fn units_since(&self, alloc: Global, rev: u64) -> Result<UnitDelta, RevFault>
        ensures between { IfOk result (IsBetween self.now.union (hidden_at self.now.revisions rev)
            (hidden_at self.now.revisions (head self.now.revisions))) }
        ensures unknown { (n : ℕ) → (result ≡ Err (RevFault.Unknown n)) ↔ IsUnknown self.now.revisions rev n }
        ensures collected { (n : ℕ) → (result ≡ Err (RevFault.Collected n)) ↔ IsCollected self.now.revisions rev n }
        ensures kept { OnOk result (IsKeptAt self.now.revisions rev) }
    {
        match self.revs.position(rev) {
            Ok(_) => Ok(units_from(alloc, &self.union, &self.revs, rev)?),
            Err(fault) => Err(fault),
        }
    }

    // The text of a revision, where nothing is said of a history with text.
    fn shown(&self, alloc: Global, rev: u64) -> Result<Text, RevFault>
        ensures text { IfOk result (λ text. text ≡ shown_at self.now.union self.now.revisions rev) }
        ensures unknown { (n : ℕ) → (result ≡ Err (RevFault.Unknown n)) ↔ IsUnknown self.now.revisions rev n }
        ensures collected { (n : ℕ) → (result ≡ Err (RevFault.Collected n)) ↔ IsCollected self.now.revisions rev n }
        ensures kept { OnOk result (IsKeptAt self.now.revisions rev) }
    {
        if self.is_head(rev) {
            return Ok(self.shown_now(alloc)?);
        }
        self.shown_then(alloc, rev)
    }

    // The same as a rope.
    fn shown_rope(&self, alloc: Global, rev: u64) -> Result<Rope, RevFault>
        ensures text { IfOk result (λ text. text ≡ shown_at self.now.union self.now.revisions rev) }
        ensures unknown { (n : ℕ) → (result ≡ Err (RevFault.Unknown n)) ↔ IsUnknown self.now.revisions rev n }
        ensures collected { (n : ℕ) → (result ≡ Err (RevFault.Collected n)) ↔ IsCollected self.now.revisions rev n }
        ensures kept { OnOk result (IsKeptAt self.now.revisions rev) }
    {
        if self.is_head(rev) {
            return Ok(self.text.copy(alloc)?);
        }
        self.rope_then(alloc, rev)
    }

    fn is_head(&self, rev: u64) -> bool
        ensures is { IsTrue result → rev ≡ head self.now.revisions }
        ensures kept { IsTrue result → IsKeptAt self.now.revisions rev }
    {
        rev == self.revs.head()
    }

    fn shown_now(&self, alloc: Global) -> Result<Text, NoMemory>
        ensures { IfOk result (λ text. text ≡ shown_at self.now.union self.now.revisions (head self.now.revisions)) }
    {
        whole(alloc, &self.text)
    }

    fn shown_then(&self, alloc: Global, rev: u64) -> Result<Text, RevFault>
        ensures text { IfOk result (λ text. text ≡ shown_at self.now.union self.now.revisions rev) }
        ensures unknown { (n : ℕ) → (result ≡ Err (RevFault.Unknown n)) ↔ IsUnknown self.now.revisions rev n }
        ensures collected { (n : ℕ) → (result ≡ Err (RevFault.Collected n)) ↔ IsCollected self.now.revisions rev n }
        ensures kept { OnOk result (IsKeptAt self.now.revisions rev) }
    {
        match self.revs.dead_at(alloc, rev) {
            Ok(dead) => Ok(alive(alloc, &self.union, &dead)?),
            Err(fault) => Err(fault),
        }
    }

    // The same as a rope, which shares what it shows with the union.
    fn rope_then(&self, alloc: Global, rev: u64) -> Result<Rope, RevFault>
        ensures text { IfOk result (λ text. text ≡ shown_at self.now.union self.now.revisions rev) }
        ensures unknown { (n : ℕ) → (result ≡ Err (RevFault.Unknown n)) ↔ IsUnknown self.now.revisions rev n }
        ensures collected { (n : ℕ) → (result ≡ Err (RevFault.Collected n)) ↔ IsCollected self.now.revisions rev n }
        ensures kept { OnOk result (IsKeptAt self.now.revisions rev) }
    {
        match self.revs.dead_at(alloc, rev) {
            Ok(dead) => Ok(without(alloc, &self.union, &dead)?),
            Err(fault) => Err(fault),
        }
    }

    /// Takes an edit as the next revision. The faults are looked for in the order of [`EditFault`]: the base, then the delta, then the
    /// limit. A fault leaves the engine as it is; want of memory too.
    ///
    /// A stale edit costs the runs of the revisions after its base, what [`Engine::rope_at`] does, and for each of its elements the
    /// height of that rope; one against the head costs what [`Engine::edit_head`] does. `after_cursor` is passed over.
    pub fn edit(&mut self, alloc: Global, edit: &Edit) -> Result<Change, EditFault>
        requires { MayAsk self.old.revisions edit.now.group }
        ensures stands { (history : History) → StandsFor self.old history
            → OnOk result (StandsFor self.new (after history (asked_by edit.now))) }
        ensures change { (history : History) → StandsFor self.old history
            → IfOk result (IsChange history (after history (asked_by edit.now))) }
        ensures accepted { (history : History) → StandsFor self.old history
            → OnOk result (edit_refusal history self.old.limit edit.now.rev edit.now.delta ≡ None) }
        ensures refused { (history : History) → StandsFor self.old history
            → IfErr result (Refuses (edit_refusal history self.old.limit edit.now.rev edit.now.delta)) }
        ensures limit { self.new.limit ≡ self.old.limit }
        ensures same { OnErr result (self.new ≡ self.old) }
    {
        let fitting = self.fitting(alloc, edit)?;
        let next = self.next(alloc, edit.rev, fitting)?;
        let Next { engine, change } = next;
        *self = engine;
        Ok(change)
    }

    /// Takes an edit of the head text as the next revision, in characters: what is said of [`Engine::edit`] holds of each edit that
    /// says the same in bytes. It can be refused as `Spent` alone.
    ///
    /// This costs the elements of the edit, each times the height of the ropes, its characters, and the runs of what is dead.
    pub fn edit_head(&mut self, alloc: Global, edit: UnitEdit) -> Result<Change, EditFault>
        requires may { MayAsk self.old.revisions edit.group }
        requires canonical { IsCanonical edit.units }
        requires base { edit.units.base ≡ length (shown_at self.old.union self.old.revisions (head self.old.revisions)) }
        ensures stands { (history : History) → (asked : AskedEdit) → StandsFor self.old history → IsSaidBy history edit asked
            → OnOk result (StandsFor self.new (after history asked)) }
        ensures change { (history : History) → (asked : AskedEdit) → StandsFor self.old history → IsSaidBy history edit asked
            → IfOk result (IsChange history (after history asked)) }
        ensures accepted { (history : History) → (asked : AskedEdit) → StandsFor self.old history → IsSaidBy history edit asked
            → OnOk result (edit_refusal history self.old.limit asked.base asked.delta ≡ None) }
        ensures refused { (history : History) → (asked : AskedEdit) → StandsFor self.old history → IsSaidBy history edit asked
            → IfErr result (Refuses (edit_refusal history self.old.limit asked.base asked.delta)) }
        ensures limit { self.new.limit ≡ self.old.limit }
        ensures same { OnErr result (self.new ≡ self.old) }
    {
        let fitting = self.fitting_head(edit)?;
        let head = self.head();
        let next = self.next(alloc, head, fitting)?;
        let Next { engine, change } = next;
        *self = engine;
        Ok(change)
    }

    // The edit in characters, or why it is not taken.
    fn fitting(&self, alloc: Global, edit: &Edit) -> Result<Fitting, EditFault>
        ensures fits { IfOk result (IsFitting self.now edit.now.rev) }
        ensures answers { IfOk result (IsAnswered self.now edit.now) }
        ensures refused { (history : History) → StandsFor self.now history
            → IfErr result (Refuses (edit_refusal history self.now.limit edit.now.rev edit.now.delta)) }
    {
        let units = self.units_of(alloc, edit)?;
        let total = u128::from(self.spent) + edit.delta.inserted_len();
        if u128::from(self.limit) < total {
            return Err(EditFault::Spent(total));
        }
        Ok(Fitting {
            edit: UnitEdit {
                units,
                priority: edit.priority,
                author: edit.author,
                group: edit.group,
            },
            spent: total as u64,
        })
    }

    // The delta of the edit in characters, or why it does not fit.
    fn units_of(&self, alloc: Global, edit: &Edit) -> Result<UnitDelta, EditFault>
        ensures units { IfOk result (IsUnitsFor self.now edit.now) }
        ensures refused { (history : History) → StandsFor self.now history
            → IfErr result (Refuses (edit_refusal history self.now.limit edit.now.rev edit.now.delta)) }
    {
        if self.is_head(edit.rev) {
            return self.short_units(alloc, edit);
        }
        self.stale_units(alloc, edit)
    }

    // The same of an edit against the head: the height of the rope for each copy.
    fn short_units(&self, alloc: Global, edit: &Edit) -> Result<UnitDelta, EditFault>
        requires is { edit.now.rev ≡ head self.now.revisions }
        requires kept { IsKeptAt self.now.revisions edit.now.rev }
        ensures units { IfOk result (IsUnitsFor self.now edit.now) }
        ensures refused { (history : History) → StandsFor self.now history
            → IfErr result (Refuses (edit_refusal history self.now.limit edit.now.rev edit.now.delta)) }
    {
        let text = self.head_rope();
        if let Err(misfit) = short::fits(text, &edit.delta) {
            return Err(EditFault::Misfit(misfit));
        }
        Ok(short::to_units(alloc, text, &edit.delta)?)
    }

    // The same of an edit against any revision: the text of its base is found once.
    fn stale_units(&self, alloc: Global, edit: &Edit) -> Result<UnitDelta, EditFault>
        ensures units { IfOk result (IsUnitsFor self.now edit.now) }
        ensures refused { (history : History) → StandsFor self.now history
            → IfErr result (Refuses (edit_refusal history self.now.limit edit.now.rev edit.now.delta)) }
    {
        let text = self.rope_then(alloc, edit.rev)?;
        if let Err(misfit) = short::fits(&text, &edit.delta) {
            return Err(EditFault::Misfit(misfit));
        }
        Ok(short::to_units(alloc, &text, &edit.delta)?)
    }

    // An edit of the head text, or that there is no room for it.
    fn fitting_head(&self, edit: UnitEdit) -> Result<Fitting, EditFault>
        requires canonical { IsCanonical edit.units }
        requires base { edit.units.base ≡ length (shown_at self.now.union self.now.revisions (head self.now.revisions)) }
        ensures fits { IfOk result (IsFitting self.now (head self.now.revisions)) }
        ensures edit { IfOk result (λ fitting. fitting.edit ≡ edit) }
        ensures refused { (history : History) → (asked : AskedEdit) → StandsFor self.now history → IsSaidBy history edit asked
            → IfErr result (Refuses (edit_refusal history self.now.limit asked.base asked.delta)) }
    {
        let total = u128::from(self.spent) + added_len(&edit.units);
        if u128::from(self.limit) < total {
            return Err(EditFault::Spent(total));
        }
        Ok(Fitting {
            edit,
            spent: total as u64,
        })
    }

    // The engine after an edit of the text of revision `rev`, which shares with this one what the edit leaves.
    fn next(&self, alloc: Global, rev: u64, fitting: Fitting) -> Result<Next, NoMemory>
        requires fits { IsFitting self.now rev fitting }
        requires may { MayAsk self.now.revisions fitting.edit.group }
        ensures next { IfOk result (λ next. IsNext self.now rev fitting next.engine) }
        ensures change { (history : History) → IsHistoryOf self.now.union self.now.revisions history
            → IfOk result (λ next. IsChange history (edited history (in_characters rev fitting.edit)) next.change) }
    {
        let Fitting { edit, spent } = fitting;
        let made = put_in(alloc, &self.union, &self.revs, rev, &edit)?;
        let units = self.units_to(alloc, rev, edit, &made)?;
        let PutIn { union, revs } = made;
        let text = shown_after(alloc, &union, &revs, &self.text, &units)?;
        let rev = revs.head();
        Ok(Next {
            engine: Engine {
                union,
                text,
                revs,
                limit: self.limit,
                spent,
            },
            change: Change { rev, units },
        })
    }

    // Whether the revision is the head, and the group is not undone there.
    fn is_live_head(&self, rev: u64, group: u64) -> bool
        ensures is { IsTrue result → rev ≡ head self.now.revisions }
        ensures live { IsTrue result → has (undone_now self.now.revisions) group ≡ false }
    {
        rev == self.revs.head() && !self.revs.undone().has(group)
    }

    // What the edit changes of the head text: an edit against the head is its change itself, but where its group is undone.
    fn units_to(
        &self,
        alloc: Global,
        rev: u64,
        edit: UnitEdit,
        made: &PutIn,
    ) -> Result<UnitDelta, NoMemory>
        requires put { IsPutIn self.now.union self.now.revisions rev edit made.now.union made.now.revs }
        requires kept { self.now.revisions.floor ≤ rev }
        requires known { rev ≤ head self.now.revisions }
        requires canonical { IsCanonical edit.units }
        requires base { edit.units.base ≡ length (shown_at self.now.union self.now.revisions rev) }
        requires positions { length made.now.union ≡ length made.now.revs.characters }
        ensures canonical { IfOk result (λ units. IsCanonical units) }
        ensures change { (history : History) → IsHistoryOf self.now.union self.now.revisions history
            → IfOk result (λ units. IsChangeBy history (edited history (in_characters rev edit)) units) }
    {
        if self.is_live_head(rev, edit.group) {
            let UnitEdit {
                units,
                priority: _,
                author: _,
                group: _,
            } = edit;
            return Ok(units);
        }
        let head = self.head();
        units_from(alloc, &made.union, &made.revs, head)
    }

    /// Whether exactly these groups may be undone from the next revision on: each counts from 1 and has an edit, and that revision has a
    /// number. It costs a look-up for each group.
    pub fn may_undo(&self, groups: &BTreeSet<u64>) -> bool
        ensures { IsTrue result ↔ MayAskUndo self.now.revisions groups.now.keys }
    {
        has_number(&self.revs) && is_set_known(&self.revs, groups)
    }

    /// The same of the set that differs from what is undone at the head in these groups, in rising order: those alone are looked up.
    pub fn may_undo_by(&self, groups: &[u64]) -> bool
        requires { IsRising groups.now }
        ensures { IsTrue result ↔ MayAskUndo self.now.revisions (undone_by self.now.revisions groups.now) }
    {
        let _undone = self.revs.undone();
        has_number(&self.revs) && are_known(&self.revs, groups)
    }

    /// Undoes exactly these groups from the next revision on, whatever was undone before, and tells what that changes of the head text.
    /// The same set once more makes a revision whose change is empty. A fault leaves the engine as it is.
    ///
    /// It costs one pass over the set, and then what [`Engine::set_undone_by`] costs.
    pub fn set_undone(&mut self, alloc: Global, groups: &BTreeSet<u64>) -> Result<Change, UndoFault>
        requires { MayAskUndo self.old.revisions groups.now.keys }
        ensures stands { (history : History) → StandsFor self.old history
            → OnOk result (StandsFor self.new (undid history groups.now.keys)) }
        ensures change { (history : History) → StandsFor self.old history
            → IfOk result (IsChange history (undid history groups.now.keys)) }
        ensures accepted { OnOk result (AgreesOnCollected self.old.revisions groups.now.keys) }
        ensures frozen { (group : ℕ) → result ≡ Err (UndoFault.Frozen group)
            → IsFrozenAt self.old.revisions groups.now.keys group }
        ensures limit { self.new.limit ≡ self.old.limit }
        ensures same { OnErr result (self.new ≡ self.old) }
    {
        let differ = self.differing(alloc, groups)?;
        self.set_undone_by(alloc, differ.as_slice())
    }

    // The groups in which the set differs from what is undone at the head.
    fn differing(&self, alloc: Global, groups: &BTreeSet<u64>) -> Result<Groups, NoMemory>
        ensures { IfOk result (λ differ. undone_by self.now.revisions differ ≡ groups.now.keys) }
    {
        let differ = self.revs.undone().flipped_by_set(alloc, groups)?;
        Ok(Groups::of_set(alloc, &differ)?)
    }

    /// The same, by the groups in which the set differs from what is undone at the head, in rising order: those that are undone before
    /// and after are not walked over.
    ///
    /// It costs what `recompute_by` of `rev_undo` does, the runs of what is dead before and after, and for each run of characters that
    /// appear or go the height of the ropes, and those that appear. Neither rope is walked over or copied whole.
    pub fn set_undone_by(&mut self, alloc: Global, groups: &[u64]) -> Result<Change, UndoFault>
        requires rising { IsRising groups.now }
        requires may { MayAskUndo self.old.revisions (undone_by self.old.revisions groups.now) }
        ensures stands { (history : History) → StandsFor self.old history
            → OnOk result (StandsFor self.new (undid history (undone_by history groups.now))) }
        ensures change { (history : History) → StandsFor self.old history
            → IfOk result (IsChange history (undid history (undone_by history groups.now))) }
        ensures accepted { OnOk result (AgreesOnCollected self.old.revisions (undone_by self.old.revisions groups.now)) }
        ensures frozen { (group : ℕ) → result ≡ Err (UndoFault.Frozen group)
            → IsFrozenAt self.old.revisions (undone_by self.old.revisions groups.now) group }
        ensures limit { self.new.limit ≡ self.old.limit }
        ensures same { OnErr result (self.new ≡ self.old) }
    {
        if let Some(group) = frozen(&self.revs, groups) {
            return Err(UndoFault::Frozen(group));
        }
        let next = self.next_undo(alloc, groups)?;
        let Next { engine, change } = next;
        *self = engine;
        Ok(change)
    }

    // The engine after an undo.
    fn next_undo(&self, alloc: Global, groups: &[u64]) -> Result<Next, NoMemory>
        requires rising { IsRising groups.now }
        requires may { MayAskUndo self.now.revisions (undone_by self.now.revisions groups.now) }
        requires agrees { AgreesOnCollected self.now.revisions (undone_by self.now.revisions groups.now) }
        ensures next { IfOk result (λ next. next.engine
            ≡ record self.now { revisions = undid self.now.revisions (undone_by self.now.revisions groups.now) }) }
        ensures rising { OnOk result (IsRising (undone_by self.now.revisions groups.now)) }
        ensures change { (history : History) → IsHistoryOf self.now.union self.now.revisions history
            → IfOk result (λ next. IsChange history (undid history (undone_by self.now.revisions groups.now)) next.change) }
    {
        let _undone = self.revs.undone();
        let dead = recompute_by(alloc, &self.revs, groups)?;
        let mut revs = self.revs.copy(alloc)?;
        let rev = revs.push_undo_by(alloc, groups, dead)?;
        let units = units_of_heads(alloc, &self.union, &self.revs, &revs)?;
        let shown = shown_after(alloc, &self.union, &revs, &self.text, &units)?;
        let union = self.union.copy(alloc)?;
        Ok(Next {
            engine: Engine {
                union,
                text: shown,
                revs,
                limit: self.limit,
                spent: self.spent,
            },
            change: Change { rev, units },
        })
    }

    /// What is collected after an entry, where these groups are retired and `acknowledged` is the least revision that an open session has
    /// acknowledged, or the head where none is open: a floor, and the groups that are collected there. `None` comes exactly where that is
    /// nothing. Neither text nor revisions up to the greatest clean floor are looked at; it costs what `rev_collect` says.
    pub fn collectable(
        &self,
        alloc: Global,
        acknowledged: u64,
        retired: &BTreeSet<u64>,
    ) -> Result<Option<(u64, BTreeSet<u64>)>, NoMemory>
        requires reached { self.now.revisions.floor ≤ acknowledged }
        requires known { acknowledged ≤ head self.now.revisions }
        ensures collected { (history : History) → StandsFor self.now history
            → IfOk result (λ found. collection_said found ≡ collection_of history retired.now.keys acknowledged) }
        ensures revisions { IfOk result (λ found. collection_said found
            ≡ collection_of self.now.revisions retired.now.keys acknowledged) }
        ensures may { IfOk result (λ found. IfSome found (λ some.
            IsCollectionTaken self.now.revisions some.0 some.1.keys)) }
    {
        let _floor = self.revs.floor();
        collectable(alloc, &self.revs, acknowledged, retired)
    }

    /// Whether these groups may be collected at this floor: it is clean and from the present one to the head, and the groups are at rest
    /// there. It costs what `may_collect` of `rev_collect` does.
    pub fn may_collect(
        &self,
        alloc: Global,
        floor: u64,
        groups: &BTreeSet<u64>,
    ) -> Result<bool, NoMemory>
        ensures { IfOk result (λ may. IsTrue may ↔ IsCollectionTaken self.now.revisions floor groups.now.keys) }
    {
        may_collect(alloc, &self.revs, floor, groups)
    }

    /// Collects these groups at the floor: what no revision from there on can show again goes, and the revisions before it. The groups are
    /// to be retired, which is the caller's part; [`Engine::collectable`] says what may be asked. It makes no revision and changes no
    /// text. The only error is want of memory, and then the engine is as before.
    ///
    /// It costs what `collect` of `rev_collect` does, and the height of the union for each run that is dropped. Where nothing is dropped
    /// the union is shared. The head text is shared.
    pub fn collect(
        &mut self,
        alloc: Global,
        floor: u64,
        groups: &BTreeSet<u64>,
    ) -> Result<(), NoMemory>
        requires { IsCollectionTaken self.old.revisions floor groups.now.keys }
        ensures stands { (history : History) → StandsFor self.old history
            → OnOk result (StandsFor self.new (collected_at history floor groups.now.keys)) }
        ensures limit { self.new.limit ≡ self.old.limit }
        ensures same { OnErr result (self.new ≡ self.old) }
    {
        let next = self.next_left(alloc, floor, groups)?;
        *self = next;
        Ok(())
    }

    // The engine after a collection.
    fn next_left(
        &self,
        alloc: Global,
        floor: u64,
        groups: &BTreeSet<u64>,
    ) -> Result<Engine, NoMemory>
        requires { IsCollectionTaken self.now.revisions floor groups.now.keys }
        ensures { IfOk result (IsNextLeft self.now floor groups.now.keys) }
    {
        let (revs, dropped) = collect(alloc, &self.revs, floor, groups)?;
        let union = without(alloc, &self.union, &dropped)?;
        let text = self.text.copy(alloc)?;
        Ok(Engine {
            union,
            text,
            revs,
            limit: self.limit,
            spent: self.spent,
        })
    }

    /// The same engine, which shares all with this one, in O(1).
    pub fn copy(&self, alloc: Global) -> Result<Engine, NoMemory>
        ensures { IfOk result (λ made. made ≡ self.now) }
    {
        let union = self.union.copy(alloc)?;
        let text = self.text.copy(alloc)?;
        let revs = self.revs.copy(alloc)?;
        Ok(Engine {
            union,
            text,
            revs,
            limit: self.limit,
            spent: self.spent,
        })
    }
}

// How many bytes a text has; memory has fewer than 2^63.
fn len_of(text: &Text) -> u64
    ensures length { result ≡ byte_len text.now }
    ensures bound { result < 2 ^ 63 }
{
    let bytes = text.as_str().len();
    bytes as u64
}

// How many characters a unit delta adds. They need not fit 64 bits.
fn added_len(units: &UnitDelta) -> u128
    requires { IsUnitDelta units.now }
    ensures total { result ≡ length (added_text units.now) }
    ensures room { result + 2 ^ 64 ≤ 2 ^ 128 }
{
    added_chars(units.added.as_slice())
}

fn added_chars(added: &[Added]) -> u128
    ensures total { result ≡ length (flat_map (λ one. one.text) added.now) }
    ensures room { result + 2 ^ 64 ≤ 2 ^ 128 }
{
    let mut total: u128 = 0;
    for one in added {
        total += u128::from(one.text.char_count());
    }
    total
}
