// An object that has a journal, and answers a line by its first letter.
ghost use Rattle.std.specs.Prelude.{◌≡◌, true};
ghost use Rattle.xi_plain.specs.Reply.{has_entry};
ghost use Rattle.xi_plain.specs.Room.{AddsEntryIf, Begins};

use plugin_session::{Answer, Ask, Object, Query, Reply, Text, Texts};
use std::alloc::Global;
use std::cell::Cell;
use xi_plain::{Act, Bytes, Command, Entry, Id, NoMemory, ShelfNote};

#[derive(Drop)]
pub(crate) struct Board {
    entries: Vec<Entry>,
    looks: Vec<u8>,
    looked: Cell<usize>,
    alloc: Global,
}

// What a look finds, and whether nothing more comes.
fn told(alloc: Global, kind: Option<u8>) -> Option<(Texts, bool)> {
    let mut lines = Texts::new(alloc);
    match kind {
        Some(b'f') => lines.push(Text::from_str(alloc, "front").ok()?).ok()?,
        Some(b'x') => lines.push(Text::from_str(alloc, "shutdown").ok()?).ok()?,
        _ => {}
    }
    Some((lines, kind == Some(b'x')))
}

impl Board {
    // Its looks find, one after the other, a line (`f`), the last line (`x`), or nothing.
    pub(crate) fn new(alloc: Global, looks: &str) -> Result<Board, NoMemory> {
        let mut kinds = Vec::with_capacity(alloc, looks.len())?;
        kinds.extend_from_slice(looks.as_bytes())?;
        Ok(Board {
            entries: Vec::new(alloc),
            looks: kinds,
            looked: Cell::new(0),
            alloc,
        })
    }

    // Adds an entry, where there is memory, and gives this reply.
    fn add(&mut self, caller: u32, act: Act, sent: bool, reply: Reply) -> Reply
        requires { has_entry reply ≡ true }
        ensures grown { Begins self.old.entries.items self.new.entries.items }
        ensures added { AddsEntryIf (has_entry result) self.old.entries.items caller self.new.entries.items }
    {
        if self.entries.reserve(1).is_err() {
            return Reply::NoMemory;
        }
        self.entries.push_reserved(Entry {
            caller,
            command: Command { id: Id::NoId, act },
            shelf: ShelfNote::NoCall,
            sent,
        });
        reply
    }

    // The line itself is the answer: none to `-`, refused from `n`, closed from `c`, and not sent from `u`.
    fn reply(&mut self, caller: u32, line: Bytes) -> Reply
        ensures grown { Begins self.old.entries.items self.new.entries.items }
        ensures added { AddsEntryIf (has_entry result) self.old.entries.items caller self.new.entries.items }
    {
        let first = line.as_slice().first().copied();
        let Ok(text) = Text::from_utf8(line.into_vec()) else {
            return Reply::NoMemory;
        };
        match first {
            Some(b'-') => {
                let none = Text::new(self.alloc);
                self.add(caller, Act::Ended, true, Reply::Taken(none))
            }
            Some(b'n') => Reply::Refused(text),
            Some(b'c') => Reply::Closed,
            Some(b'u') => self.add(caller, Act::Ended, false, Reply::SinkFault),
            _ => self.add(caller, Act::Ended, true, Reply::Taken(text)),
        }
    }
}

impl Object for Board {
    ghost use Rattle.std.specs.Prelude.{ℕ, ◌≡◌, List, length};
    ghost use Rattle.xi_plain.specs.Reply.{has_entry, SaysLength};
    ghost use Rattle.xi_plain.specs.Room.{AddsEntryIf, Begins};
    ghost use Rattle.plugin_cases.specs.Board.{begins_same, begins_on, short_of};

    ghost journal = { λ b. b.entries.items };

    ghost legal = { λ b log. Unit {0} };

    ghost fits = { λ b caller ask. Unit {0} };

    ghost serves = { λ b before caller ask reply after. AddsEntryIf (has_entry reply) before caller after };

    ghost answers = { λ b log caller query answer. SaysLength (length log) answer };

    ghost grown = { λ a b. Begins a.entries.items b.entries.items };

    ghost same = { λ a. begins_same a.entries.items };

    ghost onward = { λ a b c before after. begins_on a.entries.items b.entries.items c.entries.items before after };

    ghost prefix = { λ a b grown. grown };

    ghost fits_on = { λ a b caller ask grown fits. tt };

    ghost serves_on = { λ a b before caller ask reply after grown served. served };

    ghost answers_on = { λ a b log caller query answer grown answered. answered };

    ghost legal_now = { λ a. tt };

    ghost legal_on = { λ a b log grown lawful. tt };

    ghost one_entry = { λ a before caller ask reply after served. served };

    ghost says_length = { λ a log caller query answer answered. answered };

    ghost short = { λ a. short_of a.entries.items a.entries.len a.entries.cap a.entries.ok a.entries.small };

    fn serve(&mut self, caller: u32, ask: Ask) -> Reply {
        match ask {
            Ask::PluginLine(line) => self.reply(caller, line),
            Ask::FrontLine(_) => self.add(caller, Act::Nothing, true, Reply::SinkFault),
            Ask::PluginEnd => self.add(caller, Act::Ended, true, Reply::SinkFault),
            Ask::CloseDown => self.add(caller, Act::Closing, true, Reply::SinkFault),
        }
    }

    fn answer(&self, _caller: u32, _query: Query) -> Answer {
        let looked = self.looked.get();
        self.looked.set(looked.saturating_add(1));
        let len = self.entries.len() as u64;
        match told(self.alloc, self.looks.get(looked).copied()) {
            None => Answer::NoMemory,
            Some((lines, over)) => {
                if lines.is_empty() {
                    Answer::Nothing { len }
                } else {
                    Answer::Notices {
                        lines,
                        next: len,
                        over,
                    }
                }
            }
        }
    }
}
