// The steps of an edit that fits: where it goes in union and revisions, and what it changes of the head text.
ghost use Rattle.std.specs.Prelude.{◌≡◌, ◌+◌, ◌^◌, ◌<◌, ◌≤◌, length, IfOk};
ghost use Rattle.plain_text.specs.Text.{byte_len};
ghost use Rattle.plain_edits.specs.History.{head};
ghost use Rattle.plain_edits.specs.UnitDelta.{IsUnitDelta};
ghost use Rattle.delta_core.specs.Synthesis.{IsBetween};
ghost use Rattle.delta_core.specs.Units.{text_after};
ghost use Rattle.subset_runs.specs.Subset.{items_outside};
ghost use Rattle.rev_list.specs.Hidden.{hidden_at};
ghost use Rattle.rev_rebase.specs.Rebase.{added_text};
ghost use Rattle.rev_engine.specs.Given.{MayAsk};
ghost use Rattle.rev_engine.specs.Inner.{IsBasedOn, IsPutIn};

use crate::UnitEdit;
use crate::flat::{picked, with_put_in};
use delta_core::synthesize_of;
use plain_edits::UnitDelta;
use plain_text::NoMemory;
use rev_list::{RevEdit, RevList};
use rev_rebase::{Rebased, rebase};
use rope_tree::Rope;
use std::alloc::Global;
use subset_runs::Subset;

// An edit in characters, and how many characters were inserted after loading when it is taken.
#[derive(Drop)]
pub(crate) struct Fitting {
    pub(crate) edit: UnitEdit,
    pub(crate) spent: u64,
}

// A union and its revisions, after an edit.
#[derive(Drop)]
pub(crate) struct PutIn {
    pub(crate) union: Rope,
    pub(crate) revs: RevList,
}

// Puts an edit of the text of revision `rev` in as the next revision; what is given stays as it is.
pub(crate) fn put_in(
    alloc: Global,
    union: &Rope,
    revs: &RevList,
    rev: u64,
    edit: &UnitEdit,
) -> Result<PutIn, NoMemory>
    requires based { IsBasedOn union.now revs.now rev edit.now.units }
    requires may { MayAsk revs.now edit.now.group }
    requires well_formed { IsUnitDelta edit.now.units }
    requires bound { length revs.now.characters + length (added_text edit.now.units) < 2 ^ 64 }
    requires fits { byte_len union.now + byte_len (added_text edit.now.units) < 2 ^ 64 }
    ensures { IfOk result (λ made. IsPutIn union.now revs.now rev edit.now made.union made.revs) }
{
    let made = rebase(alloc, revs, rev, &edit.units, edit.priority, edit.author)?;
    let Rebased {
        inserted,
        deleted,
        text,
    } = made;
    let union = with_put_in(alloc, union, &inserted, &text)?;
    let mut revs = revs.copy(alloc)?;
    revs.push_edit(
        alloc,
        RevEdit {
            base: rev,
            priority: edit.priority,
            group: edit.group,
            author: edit.author,
            inserted,
            deleted,
        },
    )?;
    Ok(PutIn { union, revs })
}

// The delta from what revision `rev` shows to what the head shows, in the time of `RevList::dead_at`, and for each run of characters
// that appear the height of the union and these characters.
pub(crate) fn units_from(
    alloc: Global,
    union: &Rope,
    revs: &RevList,
    rev: u64,
) -> Result<UnitDelta, NoMemory>
    requires kept { revs.now.floor ≤ rev }
    requires known { rev ≤ head revs.now }
    requires positions { length union.now ≡ length revs.now.characters }
    ensures { IfOk result (IsBetween union.now (hidden_at revs.now rev)
        (hidden_at revs.now (head revs.now))) }
{
    let before = dead_at(alloc, revs, rev)?;
    units_between(alloc, union, &before, revs.dead())
}

// The delta from the characters that are alive before to those that are alive after; of the union those that appear are read alone.
fn units_between(
    alloc: Global,
    union: &Rope,
    before: &Subset,
    after: &Subset,
) -> Result<UnitDelta, NoMemory>
    requires before { length union.now ≡ length before.now }
    requires after { length union.now ≡ length after.now }
    ensures { IfOk result (IsBetween union.now before.now after.now) }
{
    let appears = before.minus(alloc, after)?;
    let gone = appears.complement(alloc)?;
    let text = picked(alloc, union, &gone)?;
    synthesize_of(alloc, &text, before, after)
}

// The delta from what the head of one list shows to what that of another shows, over one union.
pub(crate) fn units_of_heads(
    alloc: Global,
    union: &Rope,
    before: &RevList,
    after: &RevList,
) -> Result<UnitDelta, NoMemory>
    requires before { length union.now ≡ length before.now.characters }
    requires after { length union.now ≡ length after.now.characters }
    ensures { IfOk result (IsBetween union.now (hidden_at before.now (head before.now))
        (hidden_at after.now (head after.now))) }
{
    units_between(alloc, union, before.dead(), after.dead())
}

// The union without the characters that are dropped: the height of the rope for each run of them. All others are shared, and where
// there are none the union is.
pub(crate) fn without(alloc: Global, union: &Rope, dropped: &Subset) -> Result<Rope, NoMemory>
    requires as_many { length union.now ≡ length dropped.now }
    requires fits { byte_len union.now < 2 ^ 64 }
    ensures { IfOk result (λ made. made ≡ items_outside dropped.now union.now) }
{
    if dropped.count() == 0 {
        return union.copy(alloc);
    }
    let none = Subset::none(alloc, union.len());
    let units = units_between(alloc, union, &none, dropped)?;
    union.edited(alloc, &units)
}

// What the head shows after a change of the text before it: where no character of the union is dead it is the union, which is shared
// then, so that its characters are kept once.
pub(crate) fn shown_after(
    alloc: Global,
    union: &Rope,
    revs: &RevList,
    text: &Rope,
    units: &UnitDelta,
) -> Result<Rope, NoMemory>
    requires well_formed { IsUnitDelta units.now }
    requires base { units.now.base ≡ length text.now }
    requires fits { byte_len (text_after units.now text.now) < 2 ^ 64 }
    requires positions { length union.now ≡ length revs.now.characters }
    requires shown { text_after units.now text.now ≡ items_outside (hidden_at revs.now (head revs.now)) union.now }
    ensures { IfOk result (λ made. made ≡ text_after units.now text.now) }
{
    if revs.dead().count() == 0 {
        return union.copy(alloc);
    }
    text.edited(alloc, units)
}

// What of the union is not visible at a kept revision.
fn dead_at(alloc: Global, revs: &RevList, rev: u64) -> Result<Subset, NoMemory>
    requires kept { revs.now.floor ≤ rev }
    requires known { rev ≤ head revs.now }
    ensures { IfOk result (λ dead. dead ≡ hidden_at revs.now rev) }
{
    match revs.dead_at(alloc, rev) {
        Ok(dead) => Ok(dead),
        Err(_) => Err(NoMemory),
    }
}
