ghost use Rattle.std.specs.Prelude.{◌≡◌, ◌≢◌, ◌^◌, ◌≤◌, [], map, Ok, Err, IfOk, IfErr, OnOk, OnErr};
ghost use Rattle.std.specs.Option.{option_copied};
ghost use Rattle.std.specs.Str.{encode_utf8_all};
ghost use Rattle.plugin_side.specs.Asking.{turn_bytes};
ghost use Rattle.plugin_side.specs.Heard.{heard_in};
ghost use Rattle.plugin_mirror.specs.declared.fault.BookFault.TheVariants.{NoMemory as WantOfMemory};
ghost use Rattle.plugin_mirror.specs.Book.{with_leaves, after_told, taken, page_of};
ghost use Rattle.plugin_mirror.specs.Asks.{asked, after_asks};

use crate::asks::{ask_lines, note_asks};
use crate::fault::BookFault;
use crate::leaf::Leaf;
use crate::leaves::{answer, change, close, open, place_of};
use crate::page::Page;
use plain_text::{NoMemory, Text, Texts};
use plugin_side::{Heard, Told, hear};
use std::alloc::Global;
use std::marker::Model;

/// A plugin's copy of the texts of its views.
#[derive(Drop)]
pub struct Book {
    alloc: Global,
    piece: u64,
    next: u64,
    leaves: Vec<Leaf>,
}

impl Model for Book {
    ghost use Rattle.plugin_mirror.specs.Book.{Pages};

    ghost Value = { Pages };

    ghost view = { λ b. record { piece = b.piece; next = b.next; leaves = b.leaves.items } };
}

impl Book {
    /// A book without pages, which asks for at most `piece` bytes at a time. Four bytes hold any character, so each piece that is not
    /// empty brings one. It takes no memory.
    pub fn new(alloc: Global, piece: u64) -> Book
        requires least { 4 ≤ piece }
        requires most { piece ≤ 2 ^ 20 }
        ensures { result ≡ record { piece = piece; next = 0; leaves = [] } }
    {
        Book {
            alloc,
            piece,
            next: 0,
            leaves: Vec::new(alloc),
        }
    }

    /// Takes one line of a turn. A chunk costs its bytes, and an update one pass over its page, with one new text; an update that comes
    /// before its page is whole is kept, and costs that pass later.
    pub fn take(&mut self, line: &Text) -> Result<(), BookFault>
        ensures taken { OnOk result (taken (heard_in (encode_utf8_all line.now)) self.old.leaves ≡ Ok self.new.leaves) }
        ensures fault { IfErr result (λ fault. fault ≢ WantOfMemory
            → taken (heard_in (encode_utf8_all line.now)) self.old.leaves ≡ Err fault) }
        ensures same { OnErr result (self.new ≡ self.old) }
        ensures rest { self.new ≡ with_leaves self.old self.new.leaves }
    {
        match hear(self.alloc, line)? {
            Heard::Told(told) => self.take_told(told),
            Heard::Answer { id, answer: given } => {
                answer(self.alloc, &mut self.leaves, &id, given)
            }
            Heard::Nothing => Err(BookFault::Unread),
        }
    }

    fn take_told(&mut self, told: Told) -> Result<(), BookFault>
        ensures taken { OnOk result (after_told told self.old.leaves ≡ Ok self.new.leaves) }
        ensures fault { IfErr result (λ fault. fault ≢ WantOfMemory
            → after_told told self.old.leaves ≡ Err fault) }
        ensures same { OnErr result (self.new ≡ self.old) }
        ensures rest { self.new ≡ with_leaves self.old self.new.leaves }
    {
        match told {
            Told::Started { .. } | Told::Stopped => Ok(()),
            Told::Opened { view, len } => Ok(open(self.alloc, &mut self.leaves, view, len)?),
            Told::Changed(notice) => change(self.alloc, &mut self.leaves, notice),
            Told::Closed { view } => close(&mut self.leaves, view),
        }
    }

    /// The lines that ask for what the pages lack, in the order of openings: a piece of each page that waits for one, and the
    /// acknowledgement of each revision that was not acknowledged. They have no LF, as a turn gives them. It costs the number of pages.
    pub fn asks(&mut self) -> Result<Texts, NoMemory>
        ensures lines { IfOk result (λ lines. map encode_utf8_all lines
            ≡ map turn_bytes (asked self.old)) }
        ensures after { OnOk result (self.new ≡ after_asks self.old) }
        ensures same { OnErr result (self.new ≡ self.old) }
    {
        let lines = ask_lines(self.alloc, self.piece, self.next, &self.leaves)?;
        self.next = note_asks(&mut self.leaves, self.next);
        Ok(lines)
    }

    /// The pages in the order of openings, each with what stands beside it.
    pub fn leaves(&self) -> &[Leaf]
        ensures { result.now ≡ self.now.leaves }
    {
        self.leaves.as_slice()
    }

    /// The page of a view; `None` exactly where it is not open. It costs the number of pages.
    pub fn page(&self, view: &Text) -> Option<&Page>
        ensures { option_copied result ≡ page_of view.now self.now.leaves }
    {
        let place = place_of(&self.leaves, view);
        if place < self.leaves.len() {
            Some(&self.leaves[place].page)
        } else {
            None
        }
    }
}
