ghost use Rattle.std.specs.Prelude.{◌≡◌, ◌≢◌, ◌++◌, None, Some, is_some, false, IfErr, OnOk, OnErr};
ghost use Rattle.std.specs.Option.{option_copied};
ghost use Rattle.std.specs.Str.{encode_utf8_all};
ghost use Rattle.plugin_side.specs.Heard.{heard_in};
ghost use Rattle.plugin_mirror.specs.declared.fault.BookFault.TheVariants.{NoMemory as WantOfMemory};
ghost use Rattle.plugin_replacer.specs.Replacing.{book_asks, line_course, replacing_start, turn_course};
ghost use Rattle.plugin_replacer.specs.Turns.{TakesCourse, PutsFirst, TurnReplaces, in_utf8};

use crate::search::Search;
use plain_text::{NoMemory, Text, Texts};
use plugin_mirror::{Book, BookFault};
use plugin_session::{Plugin, Turn};
use regex_find::Spot;
use std::alloc::Global;
use std::marker::Model;
use std::mem;

const PIECE: u64 = 1 << 20;

/// Replaces all spots of each text by one edit, which it sends as soon as the text is whole. It edits no view a second time. It is done
/// only where its book answered a fault or memory was wanting.
#[derive(Drop)]
pub struct Replacer<M: Spot> {
    search: Search<M>,
    book: Book,
    fault: Option<BookFault>,
    alloc: Global,
}

impl<M: Spot> Model for Replacer<M> {
    ghost use Rattle.plugin_replacer.specs.Turns.{Replacement};

    ghost Value = { Replacement M };

    ghost view = { λ r. record {
      spot = r.search.spot;
      new = r.search.new;
      state = record { book = r.book; searched = r.search.searched };
      fault = r.fault;
    } };
}

impl<M: Spot> Replacer<M> {
    /// It takes no memory before its first turn.
    pub fn new(alloc: Global, spot: M, with: Text) -> Replacer<M>
        ensures spot { result.spot ≡ spot }
        ensures new { result.new ≡ with }
        ensures state { result.state ≡ replacing_start }
        ensures fault { result.fault ≡ None }
    {
        Replacer {
            search: Search::new(alloc, spot, with),
            book: Book::new(alloc, PIECE),
            fault: None,
            alloc,
        }
    }

    /// The fault that ended its last turn, which was done then; `None` where it goes on.
    pub fn fault(&self) -> Option<&BookFault>
        ensures { option_copied result ≡ self.now.fault }
    {
        self.fault.as_ref()
    }

    /// Takes the lines one after the other, and then lets the book ask. What is asked is put at the end.
    fn have(&mut self, lines: &[Text], given: &mut Texts) -> Result<(), BookFault>
        ensures found { M.found_in self.new.spot ≡ M.found_in self.old.spot }
        ensures new { self.new.new ≡ self.old.new }
        ensures all { OnOk result (TakesCourse (turn_course (M.found_in self.old.spot) self.old.new self.old.state (in_utf8 lines.now))
            self.new.state None (in_utf8 given.old) (in_utf8 given.new)) }
        ensures ended { IfErr result (λ fault. fault ≢ WantOfMemory
            → TakesCourse (turn_course (M.found_in self.old.spot) self.old.new self.old.state (in_utf8 lines.now))
            self.new.state (Some fault) (in_utf8 given.old) (in_utf8 given.new)) }
        ensures first { OnErr result (PutsFirst (turn_course (M.found_in self.old.spot) self.old.new self.old.state (in_utf8 lines.now)).asks
            (in_utf8 given.old) (in_utf8 given.new)) }
    {
        for line in lines {
            self.heed(line, given)?;
        }
        Ok(self.ask(given)?)
    }

    /// Takes a line, and searches the texts that are due then.
    fn heed(&mut self, line: &Text, given: &mut Texts) -> Result<(), BookFault>
        ensures found { M.found_in self.new.spot ≡ M.found_in self.old.spot }
        ensures new { self.new.new ≡ self.old.new }
        ensures all { OnOk result (TakesCourse (line_course (M.found_in self.old.spot) self.old.new self.old.state (heard_in (encode_utf8_all line.now)))
            self.new.state None (in_utf8 given.old) (in_utf8 given.new)) }
        ensures ended { IfErr result (λ fault. fault ≢ WantOfMemory
            → TakesCourse (line_course (M.found_in self.old.spot) self.old.new self.old.state (heard_in (encode_utf8_all line.now)))
            self.new.state (Some fault) (in_utf8 given.old) (in_utf8 given.new)) }
        ensures first { OnErr result (PutsFirst (line_course (M.found_in self.old.spot) self.old.new self.old.state (heard_in (encode_utf8_all line.now))).asks
            (in_utf8 given.old) (in_utf8 given.new)) }
    {
        self.book.take(line)?;
        Ok(self.search.pages(self.book.leaves(), given)?)
    }

    /// Lets the book ask. After want of memory the lines are as before.
    fn ask(&mut self, given: &mut Texts) -> Result<(), NoMemory>
        ensures found { M.found_in self.new.spot ≡ M.found_in self.old.spot }
        ensures new { self.new.new ≡ self.old.new }
        ensures all { OnOk result (TakesCourse (book_asks self.old.state)
            self.new.state None (in_utf8 given.old) (in_utf8 given.new)) }
        ensures none { OnErr result (given.new ≡ given.old) }
    {
        let asked = self.book.asks()?;
        put_all(self.alloc, given, asked)
    }
}

/// Puts lines behind others. After want of memory these are as before.
fn put_all(alloc: Global, given: &mut Texts, lines: Texts) -> Result<(), NoMemory>
    ensures all { OnOk result (given.new ≡ given.old ++ lines) }
    ensures none { OnErr result (given.new ≡ given.old) }
{
    let mut all = mem::replace(given, Texts::new(alloc)).into_vec();
    let mut more = lines.into_vec();
    let appended = all.append(&mut more);
    *given = Texts::from_vec(all);
    Ok(appended?)
}

impl<M: Spot> Plugin for Replacer<M> {
    ghost told = { λ _. None };

    /// Takes the lines one after the other. Of each text that became whole with a line, it gives the edit that replaces all its spots; then
    /// what the book asks.
    fn turn(&mut self, lines: &[Text]) -> Turn
        ensures replaces { TurnReplaces M.found_in self.old self.new (in_utf8 lines.now) (in_utf8 result.lines) }
        ensures done { result.done ≡ is_some self.new.fault }
    {
        let mut given = Texts::new(self.alloc);
        self.fault = self.have(lines, &mut given).err();
        Turn {
            lines: given,
            done: self.fault.is_some(),
        }
    }
}
