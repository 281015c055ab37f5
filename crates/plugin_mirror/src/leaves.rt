//! The pages of a book, one after the other.

ghost use Rattle.std.specs.Prelude.{◌≡◌, ◌≢◌, Ok, Err, IfErr, OnOk, OnErr};
ghost use Rattle.std.specs.List.{position_or_len};
ghost use Rattle.plugin_mirror.specs.declared.fault.BookFault.TheVariants.{NoMemory as WantOfMemory};
ghost use Rattle.plugin_mirror.specs.Leaf.{is_of, is_ask, is_asked};
ghost use Rattle.plugin_mirror.specs.Book.{with_opened, changed, without, after_answer, is_to_nobody};

use crate::fault::BookFault;
use crate::leaf::Leaf;
use plain_text::{NoMemory, Text};
use plugin_side::Answered;
use std::alloc::Global;
use xi_plain::{Id, Notice};

/// The place of the first page of a view, or how many pages there are.
pub fn place_of(leaves: &[Leaf], view: &Text) -> usize
    ensures { result ≡ position_or_len (is_of view.now) leaves.now }
{
    for (place, leaf) in leaves.iter().enumerate() {
        if is_of(view, leaf) {
            return place;
        }
    }
    leaves.len()
}

fn is_of(view: &Text, leaf: &Leaf) -> bool
    ensures { result ≡ is_of view.now leaf.now }
{
    leaf.view == *view
}

/// The place of the first page that has an open ask with this id, or how many pages there are.
fn place_asked(leaves: &[Leaf], id: &Id) -> usize
    ensures { result ≡ position_or_len (is_asked id.now) leaves.now }
{
    for (place, leaf) in leaves.iter().enumerate() {
        if is_ask(leaf.ask, id) {
            return place;
        }
    }
    leaves.len()
}

/// Whether an open ask has this id.
fn is_ask(ask: Option<u64>, id: &Id) -> bool
    ensures { result ≡ is_ask id.now ask }
{
    match (ask, id) {
        (Some(ask), Id::Num(n)) => i128::from(ask) == *n,
        _ => false,
    }
}

/// Begins a page.
pub fn open(alloc: Global, leaves: &mut Vec<Leaf>, view: Text, len: u64) -> Result<(), NoMemory>
    ensures taken { OnOk result (leaves.new.items ≡ with_opened view len leaves.old.items) }
    ensures same { OnErr result (leaves.new.items ≡ leaves.old.items) }
{
    let place = place_of(leaves, &view);
    let leaf = Leaf::opened(alloc, view, len);
    if place < leaves.len() {
        leaves[place] = leaf;
    } else {
        leaves.push(leaf)?;
    }
    Ok(())
}

/// Takes the notice of a revision.
pub fn change(alloc: Global, leaves: &mut Vec<Leaf>, notice: Notice) -> Result<(), BookFault>
    ensures taken { OnOk result (changed notice leaves.old.items ≡ Ok leaves.new.items) }
    ensures fault { IfErr result (λ fault. fault ≢ WantOfMemory
        → changed notice leaves.old.items ≡ Err fault) }
    ensures same { OnErr result (leaves.new.items ≡ leaves.old.items) }
{
    let place = place_of(leaves, &notice.view);
    if place < leaves.len() {
        leaves[place].update(alloc, notice)
    } else {
        let Notice { view, .. } = notice;
        Err(BookFault::Unknown(view))
    }
}

/// Takes a page away.
pub fn close(leaves: &mut Vec<Leaf>, view: Text) -> Result<(), BookFault>
    ensures taken { OnOk result (without view leaves.old.items ≡ Ok leaves.new.items) }
    ensures fault { IfErr result (λ fault. without view leaves.old.items ≡ Err fault) }
    ensures same { OnErr result (leaves.new.items ≡ leaves.old.items) }
{
    let place = place_of(leaves, &view);
    if place < leaves.len() {
        drop(leaves.remove(place));
        Ok(())
    } else {
        Err(BookFault::Unknown(view))
    }
}

/// Takes an answer.
pub fn answer(
    alloc: Global,
    leaves: &mut Vec<Leaf>,
    id: &Id,
    answer: Answered,
) -> Result<(), BookFault>
    ensures taken { OnOk result (after_answer id.now answer leaves.old.items ≡ Ok leaves.new.items) }
    ensures fault { IfErr result (λ fault. fault ≢ WantOfMemory
        → after_answer id.now answer leaves.old.items ≡ Err fault) }
    ensures same { OnErr result (leaves.new.items ≡ leaves.old.items) }
{
    if is_to_nobody(id, &answer) {
        return Ok(());
    }
    let place = place_asked(leaves, id);
    if place < leaves.len() {
        leaves[place].answer(alloc, answer)
    } else {
        Err(BookFault::Unread)
    }
}

/// Whether this is an error that answers a line without an id.
fn is_to_nobody(id: &Id, answer: &Answered) -> bool
    ensures { result ≡ is_to_nobody id.now answer.now }
{
    matches!((id, answer), (Id::NoId, Answered::Failed { .. }))
}
