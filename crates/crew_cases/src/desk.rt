// An object that keeps the lines that it takes, and tells each caller what the others said, and who.
ghost use Rattle.std.specs.Prelude.{◌≡◌, []};
ghost use Rattle.xi_plain.specs.Room.{Begins};
ghost use Rattle.crew_cases.specs.Desk.{Adds, Tells};

use std::alloc::Global;
use xi_plain::{
    Act, Answer, Ask, Bytes, Command, Entry, Id, Object, Query, Reply, ShelfNote, Text, Texts,
};

#[derive(Drop)]
pub(crate) struct Desk {
    pub(crate) entries: Vec<Entry>,
    // Whether an entry was not sent, or closed the journal.
    shut: bool,
    alloc: Global,
}

// What the entry says: who, and what.
pub(crate) fn said_by(alloc: Global, entry: &Entry) -> Option<Text> {
    let caller = entry.caller;
    let line = match &entry.command.act {
        Act::Alert { msg } => format!(in alloc; "{}{}", caller, msg.as_str()),
        Act::Ended => format!(in alloc; "{}.", caller),
        _ => format!(in alloc; "{}#", caller),
    };
    Some(Text::from_string(line.ok()?))
}

impl Desk {
    pub(crate) fn new(alloc: Global) -> Desk
        ensures { result.entries.items ≡ [] }
    {
        Desk {
            entries: Vec::new(alloc),
            shut: false,
            alloc,
        }
    }

    // Adds an entry, where there is memory, and gives this reply, which tells whether it is sent.
    fn push(&mut self, caller: u32, act: Act, sent: bool, reply: Reply) -> Reply
        requires { Tells sent reply }
        ensures grown { Begins self.old.entries.items self.new.entries.items }
        ensures adds { Adds self.old.entries.items caller result self.new.entries.items }
    {
        if self.entries.reserve(1).is_err() {
            return Reply::NoMemory;
        }
        self.entries.push_reserved(Entry {
            caller,
            command: Command { id: Id::NoId, act },
            shelf: ShelfNote::NoCall,
            sent,
        });
        reply
    }

    // Adds an entry that is sent, and has this answer.
    fn add(&mut self, caller: u32, act: Act, answer: Text) -> Reply
        ensures grown { Begins self.old.entries.items self.new.entries.items }
        ensures adds { Adds self.old.entries.items caller result self.new.entries.items }
    {
        self.push(caller, act, true, Reply::Taken(answer))
    }

    // A line is kept, and answered by itself. From `n` it is refused, from `c` answered that no more is taken, from `m` that memory is
    // wanting, from `-` not answered, and from `u` not sent.
    fn keep(&mut self, caller: u32, line: Bytes) -> Reply
        ensures grown { Begins self.old.entries.items self.new.entries.items }
        ensures adds { Adds self.old.entries.items caller result self.new.entries.items }
    {
        let first = line.as_slice().first().copied();
        let Ok(msg) = Text::from_utf8(line.into_vec()) else {
            return Reply::NoMemory;
        };
        let Ok(answer) = Text::from_str(self.alloc, "ok") else {
            return Reply::NoMemory;
        };
        match first {
            Some(b'n') => Reply::Refused(msg),
            Some(b'c') => Reply::Closed,
            Some(b'm') => Reply::NoMemory,
            Some(b'u') => {
                self.shut = true;
                self.push(caller, Act::Alert { msg }, false, Reply::SinkFault)
            }
            Some(b'-') => {
                let none = Text::new(self.alloc);
                self.add(caller, Act::Alert { msg }, none)
            }
            _ => self.add(caller, Act::Alert { msg }, answer),
        }
    }

    // What the entries from this place on tell the caller, and whether nothing comes after them.
    fn told(&self, caller: u32, from: usize) -> Option<(Texts, bool)> {
        let mut lines = Texts::new(self.alloc);
        let mut over = false;
        for entry in self.entries.as_slice().iter().skip(from) {
            if entry.caller != caller {
                lines.push(said_by(self.alloc, entry)?).ok()?;
            }
            over = over || matches!(entry.command.act, Act::Closing);
        }
        Some((lines, over))
    }
}

impl Object for Desk {
    ghost use Rattle.std.specs.Prelude.{ℕ, ◌≡◌, List, length};
    ghost use Rattle.xi_plain.specs.Reply.{SaysLength};
    ghost use Rattle.xi_plain.specs.Room.{Begins};
    ghost use Rattle.crew_cases.specs.Desk.{Adds, begins_same, begins_on, short_of};

    ghost journal = { λ d. d.entries.items };

    ghost legal = { λ d log. Unit {0} };

    ghost fits = { λ d caller ask. Unit {0} };

    ghost serves = { λ d before caller ask reply after. Adds before caller reply after };

    ghost answers = { λ d log caller query answer. SaysLength (length log) answer };

    ghost grown = { λ a b. Begins a.entries.items b.entries.items };

    ghost same = { λ a. begins_same a.entries.items };

    ghost onward = { λ a b c before after. begins_on a.entries.items b.entries.items c.entries.items before after };

    ghost prefix = { λ a b grown. grown };

    ghost fits_on = { λ a b caller ask grown fits. tt };

    ghost serves_on = { λ a b before caller ask reply after grown served. served };

    ghost answers_on = { λ a b log caller query answer grown answered. answered };

    ghost legal_now = { λ a. tt };

    ghost legal_on = { λ a b log grown lawful. tt };

    ghost one_entry = { λ a before caller ask reply after served. served.0 };

    ghost says_length = { λ a log caller query answer answered. answered };

    ghost short = { λ a. short_of a.entries.items a.entries.len a.entries.cap a.entries.ok a.entries.small };

    fn serve(&mut self, caller: u32, ask: Ask) -> Reply {
        match ask {
            Ask::CloseDown => {
                self.shut = true;
                let none = Text::new(self.alloc);
                self.add(caller, Act::Closing, none)
            }
            _ if self.shut => Reply::Closed,
            Ask::PluginLine(line) | Ask::FrontLine(line) => self.keep(caller, line),
            Ask::PluginEnd => {
                let none = Text::new(self.alloc);
                self.add(caller, Act::Ended, none)
            }
        }
    }

    fn answer(&self, caller: u32, query: Query) -> Answer {
        let Query::Notices { from } = query;
        let len = self.entries.len() as u64;
        match self.told(caller, from as usize) {
            None => Answer::NoMemory,
            Some((lines, over)) => {
                if lines.is_empty() {
                    Answer::Nothing { len }
                } else {
                    Answer::Notices {
                        lines,
                        next: len,
                        over,
                    }
                }
            }
        }
    }
}
