//! What a book asks, and what it is after that.

ghost use Rattle.std.specs.Prelude.{◌≡◌, ◌++◌, ◌∷◌, [], map, IfOk, OnOk};
ghost use Rattle.std.specs.Str.{encode_utf8_all};
ghost use Rattle.plugin_side.specs.Asking.{IsAsk, turn_bytes};
ghost use Rattle.plugin_mirror.specs.Asks.{asks_piece, asks_of, next_after, leaf_asked, piece_ask, acknowledgement, commands, leaves_asked, next_asked};

use crate::leaf::Leaf;
use plain_text::{NoMemory, Texts, TryClone};
use plugin_side::turn_line;
use std::alloc::Global;
use xi_plain::{Act, Command, Id};

/// No ask has an id from this number on.
const ID_LIMIT: u64 = 1 << 63;

/// The lines that ask for what the pages lack.
pub fn ask_lines(alloc: Global, piece: u64, next: u64, leaves: &[Leaf]) -> Result<Texts, NoMemory>
    ensures { IfOk result (λ lines. map encode_utf8_all lines
        ≡ map turn_bytes (commands piece next leaves.now)) }
{
    let mut lines = Texts::new(alloc);
    let mut id = next;
    for leaf in leaves {
        put_ask(alloc, &mut lines, piece, id, leaf)?;
        id = next_after(id, leaf);
    }
    Ok(lines)
}

/// Puts the line that asks for what one page lacks, if there is one.
fn put_ask(
    alloc: Global,
    lines: &mut Texts,
    piece: u64,
    next: u64,
    leaf: &Leaf,
) -> Result<(), NoMemory>
    ensures { OnOk result (map encode_utf8_all lines.new
        ≡ map encode_utf8_all lines.old ++ map turn_bytes (asks_of piece next leaf.now)) }
{
    if asks_piece(next, leaf) {
        put(alloc, lines, &piece_ask(alloc, piece, next, leaf)?)
    } else if leaf.wants_ack() {
        put(alloc, lines, &acknowledgement(alloc, leaf)?)
    } else {
        Ok(())
    }
}

/// Puts the line of a command.
fn put(alloc: Global, lines: &mut Texts, command: &Command) -> Result<(), NoMemory>
    requires { IsAsk command.now.act }
    ensures { OnOk result (map encode_utf8_all lines.new
        ≡ map encode_utf8_all lines.old ++ turn_bytes command.now ∷ []) }
{
    let line = turn_line(alloc, command)?;
    lines.push(line)
}

fn asks_piece(next: u64, leaf: &Leaf) -> bool
    ensures { result ≡ asks_piece next leaf.now }
{
    leaf.wants_piece() && next < ID_LIMIT
}

fn next_after(next: u64, leaf: &Leaf) -> u64
    ensures { result ≡ next_after next leaf.now }
{
    if asks_piece(next, leaf) {
        next + 1
    } else {
        next
    }
}

fn piece_ask(alloc: Global, piece: u64, next: u64, leaf: &Leaf) -> Result<Command, NoMemory>
    ensures { IfOk result (λ command. command ≡ piece_ask piece next leaf.now) }
{
    let act = Act::GetData {
        view: leaf.view.copy(alloc)?,
        rev: 0,
        start: leaf.page.text.byte_len(),
        max: piece,
    };
    let id = Id::Num(i128::from(next));
    Ok(Command { id, act })
}

fn acknowledgement(alloc: Global, leaf: &Leaf) -> Result<Command, NoMemory>
    ensures { IfOk result (λ command. command ≡ acknowledgement leaf.now) }
{
    let act = Act::Ack {
        view: leaf.view.copy(alloc)?,
        rev: leaf.page.rev,
    };
    Ok(Command { id: Id::NoId, act })
}

/// Notes what was asked of each page, and gives the next id.
pub fn note_asks(leaves: &mut Vec<Leaf>, next: u64) -> u64
    ensures next { result ≡ next_asked next leaves.old.items }
    ensures leaves { leaves.new.items ≡ leaves_asked next leaves.old.items }
{
    let mut id = next;
    for place in 0..leaves.len() {
        let after = next_after(id, &leaves[place]);
        note_ask(&mut leaves[place], id);
        id = after;
    }
    id
}

/// Notes what was asked of a page.
fn note_ask(leaf: &mut Leaf, next: u64)
    ensures { leaf.new ≡ leaf_asked next leaf.old }
{
    if asks_piece(next, leaf) {
        leaf.ask = Some(next);
    } else if leaf.wants_ack() {
        leaf.acked = leaf.page.rev;
    }
}
