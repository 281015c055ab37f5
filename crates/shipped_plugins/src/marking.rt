ghost use Rattle.std.specs.Prelude.{◌≡◌, ◌<◌, ◌-◌, ◌^◌, [], ◌∷◌, None, Some, IfOk, OnOk, OnErr};
ghost use Rattle.std.specs.Str.{encode_utf8_all};
ghost use Rattle.plugin_side.specs.Heard.{heard_in};
ghost use Rattle.plugin_side.specs.Range.{IsTakenCommand};
ghost use Rattle.shipped_plugins.specs.Todo.{answer_asks, ack_ask, number_of, read_ask, reads, settles, spans_ask, todo_start, todo_step, told_version, whole_number};
ghost use Rattle.shipped_plugins.specs.Turns.{Comes, ComesFirst, Gives, GivesFirst, HeedsAll, HeedsFirst, utf8_of};

use crate::give::give_with_ack;
use crate::marks::spans_of;
use crate::version::Version;
use plain_text::{NoMemory, Text, Texts, TryClone};
use plugin_side::{Answered, Heard, Told, hear, turn_line};
use std::alloc::Global;
use std::collections::BTreeMap;
use std::marker::Model;
use xi_plain::{Act, Command, Id};

const READ_MAX: u64 = 1048576;

/// What the marker of `TODO` reads, and what it marks. Of a text that is asked for and not answered yet it keeps view and revision.
#[derive(Drop)]
pub struct Marking {
    next: u64,
    asked: BTreeMap<u64, Version>,
    alloc: Global,
}

impl Model for Marking {
    ghost use Rattle.shipped_plugins.specs.Todo.{TodoState};

    ghost Value = { TodoState };

    ghost view = { λ p. record { next = p.next; asked = p.asked.entries } };
}

impl Marking {
    /// It takes no memory before it heeds a line.
    pub fn new(alloc: Global) -> Marking
        ensures { result ≡ todo_start }
    {
        Marking {
            next: 0,
            asked: BTreeMap::new(alloc),
            alloc,
        }
    }

    /// Takes the lines one after the other, and puts the lines that it asks at the end. Want of memory ends it at the line where it came:
    /// what stands behind that is not heard.
    pub fn heed(&mut self, lines: &[Text], given: &mut Texts) -> Result<(), NoMemory>
        ensures all { OnOk result (HeedsAll todo_step self.old self.new
            (utf8_of lines.now) (utf8_of given.old) (utf8_of given.new)) }
        ensures first { OnErr result (HeedsFirst todo_step self.old self.new
            (utf8_of lines.now) (utf8_of given.old) (utf8_of given.new)) }
    {
        for line in lines {
            self.heed_line(line, given)?;
        }
        Ok(())
    }

    fn heed_line(&mut self, line: &Text, given: &mut Texts) -> Result<(), NoMemory>
        ensures all { OnOk result (Comes (todo_step self.old (heard_in (encode_utf8_all line.now)))
            self.new (utf8_of given.old) (utf8_of given.new)) }
        ensures first { OnErr result (HeedsFirst todo_step self.old self.new
            (encode_utf8_all line.now ∷ []) (utf8_of given.old) (utf8_of given.new)) }
    {
        match hear(self.alloc, line)? {
            Heard::Told(told) => self.read(told_version(told), given),
            Heard::Answer { id, answer } => self.settle(number_of(&id), answer, given),
            Heard::Nothing => Ok(()),
        }
    }

    /// Asks for a version, while there is an id for it.
    fn read(&mut self, version: Option<Version>, given: &mut Texts) -> Result<(), NoMemory>
        ensures all { OnOk result (Comes (reads self.old version)
            self.new (utf8_of given.old) (utf8_of given.new)) }
        ensures unchanged { OnErr result ((self.new ≡ self.old) × (given.new ≡ given.old)) }
    {
        let Some(version) = version else {
            return Ok(());
        };
        if self.next < u64::MAX {
            self.read_version(version, given)
        } else {
            Ok(())
        }
    }

    fn read_version(&mut self, version: Version, given: &mut Texts) -> Result<(), NoMemory>
        requires { self.old.next < 2 ^ 64 - 1 }
        ensures all { OnOk result (Comes (reads self.old (Some version))
            self.new (utf8_of given.old) (utf8_of given.new)) }
        ensures unchanged { OnErr result ((self.new ≡ self.old) × (given.new ≡ given.old)) }
    {
        let command = read_ask(self.alloc, self.next, &version)?;
        let line = turn_line(self.alloc, &command)?;
        given.push(line)?;
        match self.asked.insert(self.next, version) {
            Ok(_) => {
                self.next += 1;
                Ok(())
            }
            Err(_) => {
                let _line = given.pop();
                Err(NoMemory)
            }
        }
    }

    /// Lets go what was asked for by the id, and marks it where the answer has its text.
    fn settle(
        &mut self,
        id: Option<u64>,
        answer: Answered,
        given: &mut Texts,
    ) -> Result<(), NoMemory>
        ensures all { OnOk result (Comes (settles self.old id answer)
            self.new (utf8_of given.old) (utf8_of given.new)) }
        ensures first { OnErr result (ComesFirst (settles self.old id answer)
            self.new (utf8_of given.old) (utf8_of given.new)) }
    {
        let Some(id) = id else {
            return Ok(());
        };
        let version = self.asked.remove(&id);
        mark(self.alloc, version, answer, given)
    }
}

/// The version that a notice tells of.
fn told_version(told: Told) -> Option<Version>
    ensures { result ≡ told_version told }
{
    match told {
        Told::Opened { view, len: _ } => Some(Version { view, rev: 0 }),
        Told::Changed(notice) => Version::new(notice.view, notice.rev),
        _ => None,
    }
}

fn number_of(id: &Id) -> Option<u64>
    ensures { result ≡ number_of id.now }
{
    match id {
        Id::Num(n) => whole_number(*n),
        _ => None,
    }
}

fn whole_number(n: i128) -> Option<u64>
    ensures { result ≡ whole_number n }
{
    if 0 <= n && n < 1 << 64 {
        Some(n as u64)
    } else {
        None
    }
}

fn read_ask(alloc: Global, id: u64, version: &Version) -> Result<Command, NoMemory>
    ensures command { IfOk result (λ command. command ≡ read_ask id version.now) }
    ensures taken { IfOk result (λ command. IsTakenCommand command) }
{
    Ok(Command {
        id: Id::Num(id as i128),
        act: Act::GetData {
            view: version.view.copy(alloc)?,
            rev: version.rev,
            start: 0,
            max: READ_MAX,
        },
    })
}

/// Marks what an answer has of the version that was asked for, if one was.
fn mark(
    alloc: Global,
    version: Option<Version>,
    answer: Answered,
    given: &mut Texts,
) -> Result<(), NoMemory>
    ensures all { OnOk result (Gives (answer_asks version answer)
        (utf8_of given.old) (utf8_of given.new)) }
    ensures first { OnErr result (GivesFirst (answer_asks version answer)
        (utf8_of given.old) (utf8_of given.new)) }
{
    match (version, answer) {
        (Some(version), Answered::Chunk { text, offset: _ }) => {
            mark_chunk(alloc, &version, &text, given)
        }
        _ => Ok(()),
    }
}

fn mark_chunk(
    alloc: Global,
    version: &Version,
    chunk: &Text,
    given: &mut Texts,
) -> Result<(), NoMemory>
    ensures all { OnOk result (Gives (spans_ask version.now chunk.now ∷ ack_ask version.now ∷ [])
        (utf8_of given.old) (utf8_of given.new)) }
    ensures first { OnErr result (GivesFirst (spans_ask version.now chunk.now ∷ ack_ask version.now ∷ [])
        (utf8_of given.old) (utf8_of given.new)) }
{
    let spans = spans_ask(alloc, version, chunk)?;
    give_with_ack(alloc, &spans, version, given)
}

fn spans_ask(alloc: Global, version: &Version, chunk: &Text) -> Result<Command, NoMemory>
    ensures command { IfOk result (λ command. command ≡ spans_ask version.now chunk.now) }
    ensures taken { IfOk result (λ command. IsTakenCommand command) }
{
    Ok(Command {
        id: Id::NoId,
        act: Act::UpdateSpans {
            view: version.view.copy(alloc)?,
            rev: version.rev,
            start: 0,
            len: chunk.as_str().len() as u64,
            spans: spans_of(alloc, chunk)?,
        },
    })
}
