ghost use Rattle.std.specs.Prelude.{◌≡◌, [], ◌∷◌, None, Some, IfOk, OnOk, OnErr};
ghost use Rattle.std.specs.Str.{encode_utf8_all};
ghost use Rattle.plugin_side.specs.Heard.{heard_in};
ghost use Rattle.plugin_side.specs.Range.{IsTakenCommand};
ghost use Rattle.shipped_plugins.specs.Storm.{counts, edit_ask, first_of, sized_of, storm_delta, storm_start, storm_step, told_change};
ghost use Rattle.shipped_plugins.specs.Todo.{ack_ask};
ghost use Rattle.shipped_plugins.specs.Turns.{Comes, ComesFirst, Gives, GivesFirst, HeedsAll, HeedsFirst, utf8_of};

use crate::give::give_with_ack;
use crate::version::SizedVersion;
use plain_text::{List, NoMemory, Text, Texts, TryClone};
use plugin_side::{Heard, Told, hear};
use std::alloc::Global;
use std::marker::Model;
use xi_plain::{Act, Command, Delta, El, Id};

// So many changes pass; at the next one it edits.
const QUIET_CHANGES: u64 = 7;

/// What the storm's plugin counts, and what it edits.
#[derive(Drop)]
pub struct Counting {
    count: u64,
    first: Option<SizedVersion>,
    alloc: Global,
}

impl Model for Counting {
    ghost use Rattle.shipped_plugins.specs.Storm.{StormState};

    ghost Value = { StormState };

    ghost view = { λ p. record { count = p.count; first = p.first } };
}

impl Counting {
    /// It takes no memory before it heeds a line.
    pub fn new(alloc: Global) -> Counting
        ensures { result ≡ storm_start }
    {
        Counting {
            count: 0,
            first: None,
            alloc,
        }
    }

    /// Takes the lines one after the other, and puts the lines that it asks at the end. Want of memory ends it at the line where it came:
    /// what stands behind that is not heard.
    pub fn heed(&mut self, lines: &[Text], given: &mut Texts) -> Result<(), NoMemory>
        ensures all { OnOk result (HeedsAll storm_step self.old self.new
            (utf8_of lines.now) (utf8_of given.old) (utf8_of given.new)) }
        ensures first { OnErr result (HeedsFirst storm_step self.old self.new
            (utf8_of lines.now) (utf8_of given.old) (utf8_of given.new)) }
    {
        for line in lines {
            self.heed_line(line, given)?;
        }
        Ok(())
    }

    fn heed_line(&mut self, line: &Text, given: &mut Texts) -> Result<(), NoMemory>
        ensures all { OnOk result (Comes (storm_step self.old (heard_in (encode_utf8_all line.now)))
            self.new (utf8_of given.old) (utf8_of given.new)) }
        ensures first { OnErr result (HeedsFirst storm_step self.old self.new
            (encode_utf8_all line.now ∷ []) (utf8_of given.old) (utf8_of given.new)) }
    {
        match hear(self.alloc, line)? {
            Heard::Told(told) => self.count(told_change(told), given),
            Heard::Answer { .. } => Ok(()),
            Heard::Nothing => Ok(()),
        }
    }

    /// Counts a change, or edits.
    fn count(&mut self, now: Option<SizedVersion>, given: &mut Texts) -> Result<(), NoMemory>
        ensures all { OnOk result (Comes (counts self.old now)
            self.new (utf8_of given.old) (utf8_of given.new)) }
        ensures first { OnErr result (ComesFirst (counts self.old now)
            self.new (utf8_of given.old) (utf8_of given.new)) }
    {
        let Some(now) = now else {
            return Ok(());
        };
        let first = self.first.take();
        if self.count < QUIET_CHANGES {
            self.count += 1;
            self.first = Some(first_of(first, now));
            return Ok(());
        }
        self.count = 0;
        edit_first(self.alloc, first, now, given)
    }
}

/// The version that a notice of a change tells of.
fn told_change(told: Told) -> Option<SizedVersion>
    ensures { result ≡ told_change told }
{
    match told {
        Told::Changed(notice) => SizedVersion::of(notice),
        _ => None,
    }
}

fn first_of(first: Option<SizedVersion>, now: SizedVersion) -> SizedVersion
    ensures { result ≡ first_of first now }
{
    match first {
        Some(first) => first,
        None => now,
    }
}

/// Edits the first version, and acknowledges the present one.
fn edit_first(
    alloc: Global,
    first: Option<SizedVersion>,
    now: SizedVersion,
    given: &mut Texts,
) -> Result<(), NoMemory>
    ensures all { OnOk result (Gives (edit_ask (first_of first now) ∷ ack_ask now.version ∷ [])
        (utf8_of given.old) (utf8_of given.new)) }
    ensures first { OnErr result (GivesFirst (edit_ask (first_of first now) ∷ ack_ask now.version ∷ [])
        (utf8_of given.old) (utf8_of given.new)) }
{
    let edited = match &first {
        Some(first) => edit_ask(alloc, first)?,
        None => edit_ask(alloc, &now)?,
    };
    give_with_ack(alloc, &edited, &now.version, given)
}

fn edit_ask(alloc: Global, sized: &SizedVersion) -> Result<Command, NoMemory>
    ensures command { IfOk result (λ command. command ≡ edit_ask sized.now) }
    ensures taken { IfOk result (λ command. IsTakenCommand command) }
{
    Ok(Command {
        id: Id::NoId,
        act: Act::PluginEdit {
            view: sized.version.view.copy(alloc)?,
            rev: sized.version.rev,
            delta: storm_delta(alloc, sized.len)?,
            priority: 1,
            after_cursor: false,
            author: Text::from_ascii(alloc, "storm")?,
            named: None,
        },
    })
}

/// The delta that puts `*` before a text of this length.
fn storm_delta(alloc: Global, len: u64) -> Result<Delta, NoMemory>
    ensures { IfOk result (λ delta. delta ≡ storm_delta len) }
{
    let mut els = List::new(alloc);
    els.push(El::Insert {
        text: Text::from_ascii(alloc, "*")?,
    })?;
    els.push(El::Copy { a: 0, b: len })?;
    Ok(Delta { els, base_len: len })
}
