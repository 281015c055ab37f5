//! The edit step: the list of characters after an edit.

ghost use Rattle.std.specs.Prelude.{◌≡◌, ℕ, ◌+◌, ◌<◌, ◌≤◌, ◌^◌, ◌++◌, length, map, IfOk, OnOk};
ghost use Rattle.std.specs.Str.{chars};
ghost use Rattle.plain_edits.specs.History.{head};
ghost use Rattle.plain_edits.specs.Edits.{edited, inserted_at, is_deleted_by};
ghost use Rattle.plain_history.specs.UnitEdit.{edit_of};
ghost use Rattle.plain_history.specs.Inner.{inserted_from, kept_or_deleted};
ghost use Rattle.plain_edits.specs.History.{inserted_by};

use crate::deltas::{is_in_runs, text_at_gap};
use crate::history::PlainHistory;
use crate::tagged::Tagged;
use crate::unit_edit::UnitEdit;
use crate::visible::{count_visible, is_visible};
use plain_text::{List, NoMemory, TryClone};
use std::alloc::Global;

/// Puts the characters of a text at the end, inserted by a revision.
fn push_text(alloc: Global, rev: u64, text: &str, made: &mut List<Tagged>) -> Result<(), NoMemory>
    ensures { OnOk result (made.new ≡ made.old ++ map (inserted_by rev) (chars text.now)) }
{
    for character in text.chars() {
        made.push(Tagged::new(alloc, character, rev))?;
    }
    Ok(())
}

/// The characters of a text, inserted by a revision.
pub fn tagged_text(alloc: Global, rev: u64, text: &str) -> Result<List<Tagged>, NoMemory>
    ensures { IfOk result (λ made. made ≡ map (inserted_by rev) (chars text.now)) }
{
    let mut made = List::new(alloc);
    push_text(alloc, rev, text, &mut made)?;
    Ok(made)
}

/// Puts at the end what the edit inserts at a gap, where the gap's insertion place is this index.
fn push_gap(
    alloc: Global,
    history: &PlainHistory,
    e: &UnitEdit,
    index: u64,
    gap: u64,
    made: &mut List<Tagged>,
) -> Result<(), NoMemory>
    requires { head history.now + 1 < 2 ^ 64 }
    ensures { OnOk result (made.new ≡ made.old ++ inserted_from history.now (edit_of e.now) index gap) }
{
    if history.insertion_place(e.base, e.rank(), gap) == index {
        let text = text_at_gap(alloc, e.added.as_slice(), gap)?;
        push_text(alloc, history.head() + 1, text.as_str(), made)?;
    }
    Ok(())
}

/// Puts at the end what the edit inserts at an index.
fn push_inserted(
    alloc: Global,
    history: &PlainHistory,
    e: &UnitEdit,
    index: u64,
    made: &mut List<Tagged>,
) -> Result<(), NoMemory>
    requires { head history.now + 1 < 2 ^ 64 }
    ensures { OnOk result (made.new ≡ made.old ++ inserted_at history.now (edit_of e.now) index) }
{
    let last = count_visible(history.revisions(), e.base, history.characters());
    for gap in 0..last {
        push_gap(alloc, history, e, index, gap, made)?;
    }
    push_gap(alloc, history, e, index, last, made)?;
    Ok(())
}

/// Whether the edit drops the character with this index.
fn is_deleted_by(history: &PlainHistory, e: &UnitEdit, index: usize, tagged: &Tagged) -> bool
    requires { index ≤ length history.now.characters }
    ensures { result ≡ is_deleted_by history.now (edit_of e.now) index tagged.now }
{
    is_visible(history.revisions(), e.base, tagged)
        && !is_in_runs(
            e.kept.as_slice(),
            count_visible(history.revisions(), e.base, &history.characters()[..index]),
        )
}

/// What becomes of the character with this index.
fn after_edit(
    alloc: Global,
    history: &PlainHistory,
    e: &UnitEdit,
    index: usize,
    tagged: &Tagged,
) -> Result<Tagged, NoMemory>
    requires room { head history.now + 1 < 2 ^ 64 }
    requires inside { index ≤ length history.now.characters }
    ensures { IfOk result (λ made. made ≡ kept_or_deleted history.now (edit_of e.now) index tagged.now) }
{
    if is_deleted_by(history, e, index, tagged) {
        tagged.with_deletion(alloc, history.head() + 1)
    } else {
        tagged.copy(alloc)
    }
}

/// The list of characters after an edit.
pub fn edited(alloc: Global, history: &PlainHistory, e: &UnitEdit) -> Result<List<Tagged>, NoMemory>
    requires { head history.now + 1 < 2 ^ 64 }
    ensures { IfOk result (λ made. made ≡ (edited history.now (edit_of e.now)).characters) }
{
    let mut made = List::new(alloc);
    let characters = history.characters();
    for (index, tagged) in characters.iter().enumerate() {
        push_inserted(alloc, history, e, index as u64, &mut made)?;
        made.push(after_edit(alloc, history, e, index, tagged)?)?;
    }
    push_inserted(alloc, history, e, characters.len() as u64, &mut made)?;
    Ok(made)
}
