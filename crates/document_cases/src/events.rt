//! Lines that are events of a document.

ghost use Rattle.std.specs.Prelude.{◌<◌, ◌≤◌, length, IfOk};
ghost use Rattle.doc_session.specs.Step.{IsEventFor};
ghost use Rattle.stale_spans.specs.Places.{StandIn};

use crate::acts::read_act;
use crate::words::{field, number, text_word};
use anyhow::{bail, ensure};
use case_lines::Words;
use doc_session::Event;
use plain_edits::{Delta, El, Els, Span, Spans};
use rev_engine::Edit;
use std::alloc::Global;
use xi_plain::Config;

/// What a plugin asks with its edit.
#[derive(Drop)]
struct Asked {
    els: Els,
    after_cursor: bool,
    named: Option<u64>,
}

/// The event that a line says.
pub fn read_event(alloc: Global, line: &[u8]) -> anyhow::Result<Event>
    ensures { IfOk result (IsEventFor 2) }
{
    let mut words = Words { rest: line };
    let event = event(alloc, &mut words)?;
    ensure!(words.rest.is_empty(), "the line has a word too many");
    Ok(event)
}

fn event(alloc: Global, words: &mut Words<'_>) -> anyhow::Result<Event>
    ensures { IfOk result (IsEventFor 2) }
{
    match words.next_word() {
        b"edit" => edit(alloc, words),
        b"spans" => spans(alloc, words),
        b"read" => read(words),
        b"count" => count(words),
        b"ack" => ack(words),
        b"ended" => ended(words),
        b"config" => config(words),
        b"save" => Ok(Event::Saved),
        b"other" => Ok(Event::Other),
        word => Ok(Event::Front(read_act(alloc, word, words)?)),
    }
}

fn plugin(words: &mut Words<'_>) -> anyhow::Result<u32>
    ensures { IfOk result (λ caller. (1 ≤ caller) × (caller ≤ 2)) }
{
    match field(b"plugin=", words)? {
        1 => Ok(1),
        2 => Ok(2),
        _ => bail!("the plugins are 1 and 2"),
    }
}

fn edit(alloc: Global, words: &mut Words<'_>) -> anyhow::Result<Event>
    ensures { IfOk result (IsEventFor 2) }
{
    let caller = plugin(words)?;
    let rev = field(b"base=", words)?;
    let base_len = field(b"len=", words)?;
    let Asked {
        els,
        after_cursor,
        named,
    } = read_asked(alloc, words)?;
    let edit = Edit {
        rev,
        delta: Delta { els, base_len },
        priority: 0,
        after_cursor,
        author: caller,
        group: 1,
    };
    Ok(Event::Edit {
        caller,
        edit,
        named,
    })
}

fn read_asked(alloc: Global, words: &mut Words<'_>) -> anyhow::Result<Asked> {
    let mut asked = Asked {
        els: Els::new(alloc),
        after_cursor: false,
        named: None,
    };
    'words: while !words.rest.is_empty() {
        asked.take(alloc, words)?;
    }
    Ok(asked)
}

impl Asked {
    fn take(&mut self, alloc: Global, words: &mut Words<'_>) -> anyhow::Result<()>
        requires { 0 < length words.old.rest.now }
        ensures { length words.new.rest.now < length words.old.rest.now }
    {
        match words.next_word() {
            b"copy" => self.els.push(El::Copy {
                a: number(words)?,
                b: number(words)?,
            })?,
            b"insert" => self.els.push(El::Insert {
                text: text_word(alloc, words)?,
            })?,
            b"into" => self.named = Some(number(words)?),
            b"after_cursor" => self.after_cursor = true,
            _ => bail!("`copy A B`, `insert TEXT`, `into GROUP` or `after_cursor` is due"),
        }
        Ok(())
    }
}

fn spans(alloc: Global, words: &mut Words<'_>) -> anyhow::Result<Event>
    ensures { IfOk result (IsEventFor 2) }
{
    let caller = plugin(words)?;
    let rev = field(b"rev=", words)?;
    let start = field(b"start=", words)?;
    let len = field(b"len=", words)?;
    let spans = spans_in(alloc, len, words)?;
    Ok(Event::Spans {
        caller,
        rev,
        start,
        len,
        spans,
    })
}

/// The spans of a range of so many bytes, up to the end of the line.
fn spans_in(alloc: Global, len: u64, words: &mut Words<'_>) -> anyhow::Result<Spans>
    ensures { IfOk result (StandIn len) }
{
    let mut spans = Spans::new(alloc);
    'spans: while !words.rest.is_empty() {
        spans.push(span_in(len, words)?)?;
    }
    Ok(spans)
}

fn span_in(len: u64, words: &mut Words<'_>) -> anyhow::Result<Span>
    requires { 0 < length words.old.rest.now }
    ensures shorter { length words.new.rest.now < length words.old.rest.now }
    ensures within { IfOk result (λ span. (span.start ≤ span.end) × (span.end ≤ len)) }
{
    let start = number(words)?;
    let end = number(words)?;
    let style = number(words)?;
    ensure!(start <= end && end <= len, "the span is not in its range");
    Ok(Span { start, end, style })
}

fn read(words: &mut Words<'_>) -> anyhow::Result<Event>
    ensures { IfOk result (IsEventFor 2) }
{
    let caller = plugin(words)?;
    let rev = field(b"rev=", words)?;
    let start = field(b"start=", words)?;
    let max = field(b"max=", words)?;
    Ok(Event::Read {
        caller,
        rev,
        start,
        max,
    })
}

fn count(words: &mut Words<'_>) -> anyhow::Result<Event>
    ensures { IfOk result (IsEventFor 2) }
{
    let caller = plugin(words)?;
    Ok(Event::Count { caller })
}

fn ack(words: &mut Words<'_>) -> anyhow::Result<Event>
    ensures { IfOk result (IsEventFor 2) }
{
    let caller = plugin(words)?;
    let rev = field(b"rev=", words)?;
    Ok(Event::Ack { caller, rev })
}

fn ended(words: &mut Words<'_>) -> anyhow::Result<Event>
    ensures { IfOk result (IsEventFor 2) }
{
    let caller = plugin(words)?;
    Ok(Event::Ended { caller })
}

fn config(words: &mut Words<'_>) -> anyhow::Result<Event>
    ensures { IfOk result (IsEventFor 2) }
{
    let tab = u32::try_from(field(b"tab=", words)?)?;
    let width = u32::try_from(field(b"width=", words)?)?;
    ensure!(tab > 0, "a tab has a width");
    let spaces = match words.next_word() {
        b"tabs" => false,
        b"spaces" => true,
        _ => bail!("`tabs` or `spaces` is due"),
    };
    Ok(Event::Config(Config { tab, width, spaces }))
}
