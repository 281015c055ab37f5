ghost use Rattle.std.specs.Prelude.{◌≡◌, ℕ, ◌+◌, ◌<◌, ◌≤◌, ◌^◌, ◌-◌, ◌↔◌, None, IsTrue, IfOk, IfErr, OnOk, OnErr};
ghost use Rattle.plain_edits.specs.History.{loaded, head, text_at, inserted_count, is_visible};
ghost use Rattle.plain_edits.specs.Place.{insertion_place};
ghost use Rattle.plain_edits.specs.Edits.{plain_edit, edited, undid, MayUndo, edit_refusal};
ghost use Rattle.plain_edits.specs.Collection.{MayCollect, collected_at};
ghost use Rattle.plain_history.specs.UnitEdit.{edit_of};
ghost use Rattle.plain_edits.specs.EditFault.{Refuses};

use crate::revision::Revision;
use crate::tagged::Tagged;
use crate::unit_edit::UnitEdit;
use crate::{collection, deltas, edit, place, undo, visible};
use plain_edits::{Delta, EditFault, Rank};
use plain_text::{List, NoMemory, Text};
use std::alloc::Global;
use std::marker::Model;

/// A history: the characters that ever were, and the revisions. Revisions count from 1, and revision 0 is the loaded text.
#[derive(Drop)]
pub struct PlainHistory {
    characters: List<Tagged>,
    revisions: List<Revision>,
    floor: u64,
    collected: List<u64>,
}

impl Model for PlainHistory {
    ghost use Rattle.plain_edits.specs.History.{History};

    ghost Value = { History };

    ghost view = { λ h. record { characters = h.characters; revisions = h.revisions; floor = h.floor; collected = h.collected } };
}

impl PlainHistory {
    /// The history of a text that was just loaded.
    pub fn loaded(alloc: Global, text: &Text) -> Result<PlainHistory, NoMemory>
        ensures { IfOk result (λ made. made ≡ loaded text.now) }
    {
        Ok(PlainHistory {
            characters: edit::tagged_text(alloc, 0, text.as_str())?,
            revisions: List::new(alloc),
            floor: 0,
            collected: List::new(alloc),
        })
    }

    /// All characters that ever were, in order.
    pub fn characters(&self) -> &[Tagged]
        ensures { result.now ≡ self.now.characters }
    {
        self.characters.as_slice()
    }

    /// All revisions after the loaded text.
    pub fn revisions(&self) -> &[Revision]
        ensures { result.now ≡ self.now.revisions }
    {
        self.revisions.as_slice()
    }

    /// The groups that were collected, which rise.
    pub fn collected(&self) -> &[u64]
        ensures { result.now ≡ self.now.collected }
    {
        self.collected.as_slice()
    }

    /// The first revision that may still be asked for.
    pub fn floor(&self) -> u64
        ensures { result ≡ self.now.floor }
    {
        self.floor
    }

    /// The last revision.
    pub fn head(&self) -> u64
        ensures { result ≡ head self.now }
    {
        self.revisions.len() as u64
    }

    /// The index of the list of characters at which an insertion of a rank goes, at a gap of the base's text.
    pub fn insertion_place(&self, base: u64, rank: Rank, gap: u64) -> u64
        ensures { result ≡ insertion_place self.now base rank gap }
    {
        let revisions = self.revisions.as_slice();
        let characters = self.characters.as_slice();
        let right = place::index_right_of(revisions, base, gap, characters);
        let run = place::later_run(base, &characters[..right]);
        (right - run.len() + place::left_in_run(revisions, rank, run.len(), run)) as u64
    }

    /// What a revision shows.
    pub fn text_at(&self, alloc: Global, rev: u64) -> Result<Text, NoMemory>
        ensures { IfOk result (λ text. text ≡ text_at self.now rev) }
    {
        visible::text_of(alloc, self.revisions(), rev, self.characters())
    }

    /// How many characters were ever inserted after loading.
    pub fn inserted_count(&self) -> u64
        ensures { result ≡ inserted_count self.now }
    {
        self.characters()
            .iter()
            .filter(|tagged| 0 < tagged.inserted())
            .count() as u64
    }

    /// Whether an edit would be taken; where it would not, the fault says why.
    pub fn accepts(
        &self,
        alloc: Global,
        limit: u64,
        base: u64,
        delta: &Delta,
    ) -> Result<(), EditFault>
        ensures accepted { OnOk result (edit_refusal self.now limit base delta.now ≡ None) }
        ensures refused { IfErr result (Refuses (edit_refusal self.now limit base delta.now)) }
    {
        let head = self.head();
        if head < base {
            return Err(EditFault::Unknown(head));
        }
        if base < self.floor {
            return Err(EditFault::Collected(self.floor));
        }
        if let Some(first) = deltas::misfit(&self.text_at(alloc, base)?, delta) {
            return Err(EditFault::Misfit(first));
        }
        let total = u128::from(self.inserted_count()) + delta.inserted_len();
        if u128::from(limit) < total {
            return Err(EditFault::Spent(total));
        }
        Ok(())
    }

    /// Takes an edit against a revision and gives its number. `limit` bounds the characters ever inserted.
    pub fn edit(
        &mut self,
        alloc: Global,
        limit: u64,
        base: u64,
        delta: &Delta,
        group: u64,
        priority: u32,
        author: u32,
    ) -> Result<u64, EditFault>
        requires { head self.old < 2 ^ 63 - 1 }
        ensures accepted { OnOk result (edit_refusal self.old limit base delta.now ≡ None) }
        ensures refused { IfErr result (Refuses (edit_refusal self.old limit base delta.now)) }
        ensures made { OnOk result (self.new ≡ edited self.old (plain_edit self.old base delta.now group priority author)) }
        ensures number { IfOk result (λ rev. rev ≡ head self.old + 1) }
        ensures unchanged { OnErr result (self.new ≡ self.old) }
    {
        self.accepts(alloc, limit, base, delta)?;
        let text = self.text_at(alloc, base)?;
        let e = UnitEdit::of_delta(alloc, base, &text, delta, group, priority, author)?;
        let characters = edit::edited(alloc, self, &e)?;
        let rev = self.head() + 1;
        self.revisions
            .push(Revision::edit(base, group, priority, author))?;
        self.characters = characters;
        Ok(rev)
    }

    /// Whether the set of groups may be undone.
    pub fn may_undo(&self, groups: &[u64]) -> bool
        ensures { IsTrue result ↔ MayUndo self.now groups.now }
    {
        undo::all_known(self, groups) && undo::all_frozen(self, groups)
    }

    /// Says which groups are undone from now on, and gives the number of the revision that says it.
    pub fn undo(&mut self, groups: List<u64>) -> Result<u64, NoMemory>
        requires head { head self.old < 2 ^ 63 - 1 }
        requires may { MayUndo self.old groups }
        ensures made { OnOk result (self.new ≡ undid self.old groups) }
        ensures number { IfOk result (λ rev. rev ≡ head self.old + 1) }
        ensures unchanged { OnErr result (self.new ≡ self.old) }
    {
        let rev = self.head() + 1;
        self.revisions.push(Revision::undo(groups))?;
        Ok(rev)
    }

    /// Raises the floor and collects these groups; no character goes.
    pub fn collect(&mut self, alloc: Global, floor: u64, groups: &[u64]) -> Result<(), NoMemory>
        requires { MayCollect self.old floor groups.now }
        ensures made { OnOk result (self.new ≡ collected_at self.old floor groups.now) }
        ensures unchanged { OnErr result (self.new ≡ self.old) }
    {
        self.collected = collection::with_numbers(alloc, &self.collected, groups)?;
        self.floor = floor;
        Ok(())
    }
}
