// An object of a room that has a journal and nothing else.

ghost use Rattle.std.specs.Prelude.{◌≡◌, ◌≤◌, length};
ghost use Rattle.xi_plain.specs.Reply.{has_entry};
ghost use Rattle.xi_plain.specs.Room.{AddsEntryIf, Begins};

use room_lock::{Answer, Ask, Object, Query, Reply};
use xi_plain::{Act, Command, Entry, Id, ShelfNote};

// An object that has a journal and nothing else.
#[derive(Drop)]
pub(crate) struct Tally {
    pub(crate) entries: Vec<Entry>,
}

impl Tally {
    // Adds an entry of the caller, where there is memory.
    fn add(&mut self, caller: u32) -> Reply
        ensures grown { Begins self.old.entries.items self.new.entries.items }
        ensures added { AddsEntryIf (has_entry result) self.old.entries.items caller self.new.entries.items }
    {
        if self.entries.reserve(1).is_err() {
            return Reply::NoMemory;
        }
        self.entries.push_reserved(Entry {
            caller,
            command: Command {
                id: Id::NoId,
                act: Act::Closing,
            },
            shelf: ShelfNote::NoCall,
            sent: true,
        });
        Reply::SinkFault
    }
}

impl Object for Tally {
    ghost use Rattle.std.specs.Prelude.{ℕ, ◌≡◌, List, length};
    ghost use Rattle.xi_plain.specs.Reply.{has_entry};
    ghost use Rattle.xi_plain.specs.Room.{AddsEntryIf, Begins};
    ghost use Rattle.xi_plain.specs.declared.reply.Answer.TheVariants.{Nothing};
    ghost use Rattle.room_cases.specs.Tally.{begins_same, begins_on, says_it, short_of};

    ghost journal = { λ t. t.entries.items };

    ghost legal = { λ t log. Unit {0} };

    ghost fits = { λ t caller ask. Unit {0} };

    ghost serves = { λ t before caller ask reply after. AddsEntryIf (has_entry reply) before caller after };

    ghost answers = { λ t log caller query answer. answer ≡ Nothing (length log) };

    ghost grown = { λ a b. Begins a.entries.items b.entries.items };

    ghost same = { λ a. begins_same a.entries.items };

    ghost onward = { λ a b c before after. begins_on a.entries.items b.entries.items c.entries.items before after };

    ghost prefix = { λ a b grown. grown };

    ghost fits_on = { λ a b caller ask grown fits. tt };

    ghost serves_on = { λ a b before caller ask reply after grown served. served };

    ghost answers_on = { λ a b log caller query answer grown answered. answered };

    ghost legal_now = { λ a. tt };

    ghost legal_on = { λ a b log grown lawful. tt };

    ghost one_entry = { λ a before caller ask reply after served. served };

    ghost says_length = { λ a log caller query answer answered. says_it (length log) answer answered };

    ghost short = { λ a. short_of a.entries.items a.entries.len a.entries.cap a.entries.ok a.entries.small };

    fn serve(&mut self, caller: u32, _ask: Ask) -> Reply {
        self.add(caller)
    }

    fn answer(&self, _caller: u32, _query: Query) -> Answer {
        Answer::Nothing {
            len: self.entries.len() as u64,
        }
    }
}
