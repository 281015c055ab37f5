//! A case: a document, what happens to it line by line, and what its lines say of that.

ghost use Rattle.std.specs.Prelude.{◌≡◌, ◌-◌, ◌^◌, ◌<◌, Some, None, length, IfOk, OnOk};
ghost use Rattle.plain_edits.specs.History.{head};
ghost use Rattle.case_lines.specs.Quoted.{unquoted};
ghost use Rattle.doc_session.specs.Step.{IsEventFor};

use crate::events::read_event;
use crate::told::{told, with_text};
use crate::words::{long_text, number, text_left};
use anyhow::{Context, bail, ensure};
use case_lines::{Words, content_of, first_line, unquoted};
use doc_session::{Doc, DocFault, Effects, Event};
use plain_text::{Steps, Text};
use std::alloc::Global;
use std::marker::Brand;
use std::sync::ledger::{Blank, Ledger};
use xi_plain::Config;

/// How many characters may be inserted into a document.
const LIMIT: u64 = 30;

/// A case makes at most this many revisions.
const MOST: u64 = 1_000;

const CONFIG: Config = Config {
    tab: 4,
    width: 0,
    spaces: false,
};

/// How many events came, and how many lines said what they came to.
#[derive(Clone, Copy, Default)]
pub struct Count {
    pub events: u64,
    pub answers: u64,
}

/// A case as far as it has come.
#[derive(Drop)]
struct CaseRun {
    doc: Doc,
    /// What the last event came to, where it was not refused.
    effects: Option<Effects>,
    /// Why the last event was refused, where no line has said so yet.
    refusal: Option<DocFault>,
    count: Count,
}

/// Runs a case. It passes only where each of its lines can be read, each refused event is said to be refused, and all that is said holds.
pub fn run_case(alloc: Global, case: &[u8]) -> anyhow::Result<Count>
    ensures { IfOk result (λ count. 0 < count.answers) }
{
    let mut run = CaseRun::new(alloc, Text::new(alloc), Count::default())?;
    let mut number = 0_u64;
    let mut rest = case;
    while !rest.is_empty() {
        let (line, later) = first_line(rest);
        number = number.saturating_add(1);
        run.take(alloc, content_of(line))
            .context(format_args!("line {number}"))?;
        rest = later;
    }
    run.ensure_said().context("at the end")?;
    ensure!(0 < run.count.answers, "the case asks for nothing");
    Ok(run.count)
}

impl CaseRun {
    /// A document of the text, with two plugins, whose view was opened.
    fn new(alloc: Global, text: Text, count: Count) -> anyhow::Result<CaseRun>
        ensures { IfOk result (λ made. length made.doc.text.sessions ≡ 2) }
    {
        let doc = Doc::of_text(alloc, text, 2, LIMIT, CONFIG)?;
        let mut run = CaseRun {
            doc,
            effects: None,
            refusal: None,
            count,
        };
        run.meet(alloc, Event::Other)?;
        Ok(run)
    }

    /// Takes a line: a new document, an event, several of them, or what the last one came to.
    fn take(&mut self, alloc: Global, line: &[u8]) -> anyhow::Result<()>
        requires { length self.old.doc.text.sessions ≡ 2 }
        ensures { length self.new.doc.text.sessions ≡ 2 }
    {
        let mut words = Words { rest: line };
        match words.next_word() {
            b"" | b"#" => Ok(()),
            b"text" => self.begin(alloc, text_left(alloc, &mut words)?),
            b"letters" => self.begin(alloc, long_text(alloc, &mut words)?),
            b"times" => self.repeat(alloc, &mut words),
            _ => match self.said(alloc, line)? {
                Some(said) => self.compare(alloc, line, said.as_str()),
                None => self.meet(alloc, read_event(alloc, line)?),
            },
        }
    }

    /// Another document begins.
    fn begin(&mut self, alloc: Global, text: Text) -> anyhow::Result<()>
        requires { length self.old.doc.text.sessions ≡ 2 }
        ensures { length self.new.doc.text.sessions ≡ 2 }
    {
        self.ensure_said()?;
        *self = CaseRun::new(alloc, text, self.count)?;
        Ok(())
    }

    /// The event in the line, so many times.
    fn repeat(&mut self, alloc: Global, words: &mut Words<'_>) -> anyhow::Result<()>
        requires { length self.old.doc.text.sessions ≡ 2 }
        ensures { length self.new.doc.text.sessions ≡ 2 }
    {
        for _ in 0..number(words)? {
            self.meet(alloc, read_event(alloc, words.rest)?)?;
        }
        Ok(())
    }

    /// An event comes to the document.
    fn meet(&mut self, alloc: Global, event: Event) -> anyhow::Result<()>
        requires sessions { length self.old.doc.text.sessions ≡ 2 }
        requires event { IsEventFor 2 event }
        ensures { length self.new.doc.text.sessions ≡ 2 }
    {
        self.ensure_said()?;
        ensure!(self.doc.head() < MOST, "the case is too long");
        match applied::<Brand>(alloc, &mut self.doc, event, Blank::new(1)) {
            Ok(effects) => {
                self.effects = Some(effects);
            }
            Err(fault) => {
                self.effects = None;
                self.refusal = Some(fault);
            }
        }
        self.count.events = self.count.events.saturating_add(1);
        Ok(())
    }

    /// What was refused was said to be.
    fn ensure_said(&self) -> anyhow::Result<()>
        ensures { OnOk result (self.now.refusal ≡ None) }
    {
        match self.refusal {
            Some(fault) => bail!("no line says that the event before is refused: {fault}"),
            None => Ok(()),
        }
    }

    /// What the line says is what came.
    fn compare(&mut self, alloc: Global, line: &[u8], came: &str) -> anyhow::Result<()>
        requires { length self.old.doc.text.sessions ≡ 2 }
        ensures { length self.new.doc.text.sessions ≡ 2 }
    {
        ensure_same(alloc, line, came)?;
        if line.starts_with(b"refused") {
            self.refusal = None;
        }
        self.count.answers = self.count.answers.saturating_add(1);
        Ok(())
    }

    /// What the line should say, where its first word asks for something; a refused event came to nothing.
    fn said(&self, alloc: Global, line: &[u8]) -> anyhow::Result<Option<String>> {
        let mut words = Words { rest: line };
        match (words.next_word(), &self.effects) {
            (b"shows", _) => Ok(Some(self.shown(alloc)?)),
            (b"kept", _) => Ok(Some(format!(in alloc; "kept {}", self.doc.kept())?)),
            (b"lines", _) => Ok(Some(format!(in alloc; "lines {}", self.doc.lines())?)),
            (b"refused", _) => Ok(Some(self.refused(alloc)?)),
            (word, Some(effects)) => told(alloc, effects, word, &mut words),
            (_, None) => {
                self.ensure_said()?;
                Ok(None)
            }
        }
    }

    /// What a copy of the document shows.
    fn shown(&self, alloc: Global) -> anyhow::Result<String> {
        let copy = self.doc.copy(alloc)?;
        let text = copy.head_text(alloc)?;
        with_text(format!(in alloc; "shows {}", copy.head())?, text.as_str())
    }

    fn refused(&self, alloc: Global) -> anyhow::Result<String> {
        match self.refusal {
            Some(fault) => Ok(format!(in alloc; "refused {fault}")?),
            None => bail!("the event before is not refused"),
        }
    }
}

fn applied<L: Ledger>(
    alloc: Global,
    doc: &mut Doc,
    event: Event,
    blank: Blank,
) -> Result<Effects, DocFault>
    requires name { blank.name ≡ L.name }
    requires parts { blank.parts ≡ L.parts }
    requires some { 0 < blank.parts }
    requires event { IsEventFor (length doc.old.text.sessions) event }
    requires has_number { head doc.old.text.engine.revisions < 2 ^ 63 - 1 }
    ensures { length doc.new.text.sessions ≡ length doc.old.text.sessions }
{
    let mut steps = Steps::<L>::new(blank);
    doc.apply(alloc, event, &mut steps)
}

/// A line stands for what came.
fn ensure_same(alloc: Global, line: &[u8], came: &str) -> anyhow::Result<()>
    ensures { OnOk result (unquoted line.now ≡ Some came.now) }
{
    let Some(wanted) = unquoted(alloc, line)? else {
        bail!("a backslash needs n, t, s or a backslash after it");
    };
    if wanted.as_slice() != came.as_bytes() {
        let wanted = String::from_utf8_lossy(alloc, &wanted)?;
        bail!("wanted {wanted:?}, came {came:?}");
    }
    Ok(())
}
