//! Plays the rows of a table in a session with two plugins.

ghost use Rattle.std.specs.Prelude.{◌≡◌, ◌≤◌, IfSome, length};
ghost use Rattle.core_session.specs.Core.{terms_of};

use core_session::{Answer, Core, Reply};
use outside::{CalmShelf, MemSink};
use plain_text::Texts;
use std::alloc::Global;

/// How many characters may be inserted into each document.
const LIMIT: u64 = 40;

/// The most bytes that the sink takes in one call.
const GREATEST: usize = 1 << 20;

/// What is done with the session.
#[derive(Clone, Copy)]
pub enum Step {
    /// A line of the front end.
    Front(&'static str),
    /// The same line, so many times.
    Often(usize, &'static str),
    /// A line of the first plugin.
    First(&'static str),
    /// A line of the second one.
    Second(&'static str),
    /// The end of the first one's session.
    FirstEnds,
    /// That of the second one's.
    SecondEnds,
    /// A look of the plugin with this number, from the entry at this place on.
    Look(u32, u64),
    /// The closing.
    Close,
}

/// What comes of it.
#[derive(Clone, Copy)]
pub enum Outcome {
    /// It is taken without an answer, and what is written is not looked at.
    Taken,
    /// It is taken with this answer, and this is written.
    Answered(&'static str, &'static str),
    /// It is refused by this line, and nothing is written.
    Refused(&'static str),
    /// Its entry was not sent.
    Unsent,
    /// The session takes no lines.
    Closed,
    /// These lines, each with its LF, tell of the entries before this place.
    Tells(u64, &'static str),
    /// The same, and no more are to come.
    TellsLast(u64, &'static str),
    /// There are this many entries, and none to tell of.
    Nothing(u64),
}

pub type Row = (Step, Outcome);

fn is_piece(gained: &[u8], outcome: Outcome) -> bool {
    match outcome {
        Outcome::Answered(_, piece) => gained == piece.as_bytes(),
        Outcome::Refused(_) => gained.is_empty(),
        _ => true,
    }
}

fn is_reply(reply: &Reply, outcome: Outcome) -> bool {
    match (reply, outcome) {
        (Reply::Taken(text), Outcome::Taken) => text.as_str().is_empty(),
        (Reply::Taken(text), Outcome::Answered(answer, _)) => text.as_str() == answer,
        (Reply::Refused(text), Outcome::Refused(answer)) => text.as_str() == answer,
        (Reply::SinkFault, Outcome::Unsent) => true,
        (Reply::Closed, Outcome::Closed) => true,
        _ => false,
    }
}

// Whether these are the lines, each with its LF.
fn are_lines(lines: &Texts, all: &str) -> bool {
    let mut rest = all.as_bytes();
    for line in lines.as_slice() {
        let Some(after) = rest.strip_prefix(line.as_str().as_bytes()) else {
            return false;
        };
        let Some(more) = after.strip_prefix(b"\n") else {
            return false;
        };
        rest = more;
    }
    rest.is_empty()
}

fn is_answer(answer: &Answer, outcome: Outcome) -> bool {
    match (answer, outcome) {
        (Answer::Notices { lines, next, over }, Outcome::Tells(to, all)) => {
            *next == to && !*over && are_lines(lines, all)
        }
        (Answer::Notices { lines, next, over }, Outcome::TellsLast(to, all)) => {
            *next == to && *over && are_lines(lines, all)
        }
        (Answer::Nothing { len }, Outcome::Nothing(many)) => *len == many,
        _ => false,
    }
}

/// A session with two plugins.
#[derive(Drop)]
struct Session {
    core: Core<MemSink, CalmShelf>,
    ghost two: { (terms_of core).plugins ≡ 2 },
}

impl Session {
    fn written(&self) -> usize {
        match self.core.sink().bytes() {
            Some(bytes) => bytes.len(),
            None => 0,
        }
    }

    // The bytes from there on.
    fn gained(&self, before: usize) -> &[u8] {
        match self.core.sink().bytes() {
            Some(bytes) if before <= bytes.len() => &bytes[before..],
            _ => &[],
        }
    }

    // A look beyond the last entry is none.
    fn look(&self, caller: u32, from: u64) -> Answer {
        if from <= self.core.len() {
            self.core.notices(caller, from)
        } else {
            Answer::NoMemory
        }
    }

    fn reply_to(&mut self, step: Step) -> Reply {
        match step {
            Step::Front(line) | Step::Often(_, line) => self.core.front_line(line.as_bytes()),
            Step::First(line) => self.core.plugin_line(1, line.as_bytes()),
            Step::Second(line) => self.core.plugin_line(2, line.as_bytes()),
            Step::FirstEnds => self.core.plugin_end(1),
            Step::SecondEnds => self.core.plugin_end(2),
            Step::Look(..) | Step::Close => self.core.close_down(),
        }
    }

    fn takes(&mut self, step: Step, outcome: Outcome) -> bool {
        let before = self.written();
        let reply = self.reply_to(step);
        is_reply(&reply, outcome) && is_piece(self.gained(before), outcome)
    }

    fn takes_often(&mut self, times: usize, step: Step, outcome: Outcome) -> bool {
        for _ in 0..times {
            if !self.takes(step, outcome) {
                return false;
            }
        }
        true
    }

    fn plays(&mut self, row: Row) -> bool {
        let (step, outcome) = row;
        match step {
            Step::Look(caller, from) => is_answer(&self.look(caller, from), outcome),
            Step::Often(times, _) => self.takes_often(times, step, outcome),
            _ => self.takes(step, outcome),
        }
    }
}

// A session whose write of this number fails, and none where it is 0.
fn make_session(alloc: Global, failing: u64) -> Option<Session> {
    let writes = Vec::from_slice(alloc, &[failing]).ok()?;
    let sink = MemSink::new(alloc, GREATEST, writes);
    match Core::make(alloc, sink, CalmShelf::new(alloc), 2, LIMIT) {
        Ok(core) => Some(Session { core }),
        Err(_) => None,
    }
}

/// The first of the rows that comes to something else, in a session whose write of this number fails, and none where it is 0. Where there is no
/// memory for the session it is 0.
pub fn first_other(alloc: Global, failing: u64, rows: &[Row]) -> Option<usize>
    ensures { IfSome result (λ at. at ≤ length rows.now) }
{
    let Some(mut session) = make_session(alloc, failing) else {
        return Some(0);
    };
    for (at, row) in rows.iter().enumerate() {
        if !session.plays(*row) {
            return Some(at);
        }
    }
    None
}
