// An object that keeps the lines that it takes, and tells each caller what the others said.
ghost use Rattle.std.specs.Prelude.{◌≡◌, true, []};
ghost use Rattle.xi_plain.specs.Reply.{has_entry};
ghost use Rattle.xi_plain.specs.Room.{AddsEntryIf, Begins};

use plugin_session::{Answer, Ask, Object, Query, Reply, Text, Texts};
use std::alloc::Global;
use xi_plain::{Act, Bytes, Command, Entry, Id, ShelfNote, TryClone};

#[derive(Drop)]
pub(crate) struct Post {
    pub(crate) entries: Vec<Entry>,
    // Whether an entry was not sent, or closed the journal.
    shut: bool,
    alloc: Global,
}

// A line for the caller, where the entry tells it one, and whether nothing comes after it.
fn told_of(alloc: Global, caller: u32, entry: &Entry) -> Option<(Option<Text>, bool)> {
    match &entry.command.act {
        Act::Closing => Some((Some(Text::from_str(alloc, "shutdown").ok()?), true)),
        Act::Alert { msg } => {
            if entry.caller == caller {
                return Some((None, false));
            }
            Some((Some(msg.copy(alloc).ok()?), false))
        }
        _ => Some((None, false)),
    }
}

impl Post {
    pub(crate) fn new(alloc: Global) -> Post
        ensures { result.entries.items ≡ [] }
    {
        Post {
            entries: Vec::new(alloc),
            shut: false,
            alloc,
        }
    }

    // Adds an entry, where there is memory, and gives this reply.
    fn add(&mut self, caller: u32, act: Act, sent: bool, reply: Reply) -> Reply
        requires { has_entry reply ≡ true }
        ensures grown { Begins self.old.entries.items self.new.entries.items }
        ensures added { AddsEntryIf (has_entry result) self.old.entries.items caller self.new.entries.items }
    {
        if self.entries.reserve(1).is_err() {
            return Reply::NoMemory;
        }
        self.entries.push_reserved(Entry {
            caller,
            command: Command { id: Id::NoId, act },
            shelf: ShelfNote::NoCall,
            sent,
        });
        reply
    }

    // A line is kept, and answered `ok`. From `n` it is refused, and from `u` it is not sent.
    fn keep(&mut self, caller: u32, line: Bytes) -> Reply
        ensures grown { Begins self.old.entries.items self.new.entries.items }
        ensures added { AddsEntryIf (has_entry result) self.old.entries.items caller self.new.entries.items }
    {
        let first = line.as_slice().first().copied();
        let Ok(msg) = Text::from_utf8(line.into_vec()) else {
            return Reply::NoMemory;
        };
        let Ok(answer) = Text::from_str(self.alloc, "ok") else {
            return Reply::NoMemory;
        };
        match first {
            Some(b'n') => Reply::Refused(answer),
            Some(b'u') => {
                self.shut = true;
                self.add(caller, Act::Alert { msg }, false, Reply::SinkFault)
            }
            _ => self.add(caller, Act::Alert { msg }, true, Reply::Taken(answer)),
        }
    }

    // What the entries from this place on tell the caller, and whether nothing comes after them.
    fn told(&self, caller: u32, from: usize) -> Option<(Texts, bool)> {
        let mut lines = Texts::new(self.alloc);
        let mut over = false;
        for entry in self.entries.as_slice().iter().skip(from) {
            let (line, last) = told_of(self.alloc, caller, entry)?;
            if let Some(line) = line {
                lines.push(line).ok()?;
            }
            over = over || last;
        }
        Some((lines, over))
    }
}

impl Object for Post {
    ghost use Rattle.std.specs.Prelude.{ℕ, ◌≡◌, List, length};
    ghost use Rattle.xi_plain.specs.Reply.{has_entry, SaysLength};
    ghost use Rattle.xi_plain.specs.Room.{AddsEntryIf, Begins};
    ghost use Rattle.worker_cases.specs.Post.{begins_same, begins_on, short_of};

    ghost journal = { λ p. p.entries.items };

    ghost legal = { λ p log. Unit {0} };

    ghost fits = { λ p caller ask. Unit {0} };

    ghost serves = { λ p before caller ask reply after. AddsEntryIf (has_entry reply) before caller after };

    ghost answers = { λ p log caller query answer. SaysLength (length log) answer };

    ghost grown = { λ a b. Begins a.entries.items b.entries.items };

    ghost same = { λ a. begins_same a.entries.items };

    ghost onward = { λ a b c before after. begins_on a.entries.items b.entries.items c.entries.items before after };

    ghost prefix = { λ a b grown. grown };

    ghost fits_on = { λ a b caller ask grown fits. tt };

    ghost serves_on = { λ a b before caller ask reply after grown served. served };

    ghost answers_on = { λ a b log caller query answer grown answered. answered };

    ghost legal_now = { λ a. tt };

    ghost legal_on = { λ a b log grown lawful. tt };

    ghost one_entry = { λ a before caller ask reply after served. served };

    ghost says_length = { λ a log caller query answer answered. answered };

    ghost short = { λ a. short_of a.entries.items a.entries.len a.entries.cap a.entries.ok a.entries.small };

    fn serve(&mut self, caller: u32, ask: Ask) -> Reply {
        match ask {
            Ask::CloseDown => {
                self.shut = true;
                self.add(caller, Act::Closing, true, Reply::SinkFault)
            }
            _ if self.shut => Reply::Closed,
            Ask::PluginLine(line) | Ask::FrontLine(line) => self.keep(caller, line),
            Ask::PluginEnd => self.add(caller, Act::Ended, true, Reply::SinkFault),
        }
    }

    fn answer(&self, caller: u32, query: Query) -> Answer {
        let Query::Notices { from } = query;
        let len = self.entries.len() as u64;
        match self.told(caller, from as usize) {
            None => Answer::NoMemory,
            Some((lines, over)) => {
                if lines.is_empty() {
                    Answer::Nothing { len }
                } else {
                    Answer::Notices {
                        lines,
                        next: len,
                        over,
                    }
                }
            }
        }
    }
}
