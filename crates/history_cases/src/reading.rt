//! Reads the lines of a case, each of which is done at once.

ghost use Rattle.std.specs.Prelude.{◌<◌, ◌≤◌, ◌-◌, length};

use crate::refusal::{Answer, Refusal};
use crate::run::{Count, Run};
use anyhow::{Context, Result, bail, ensure};
use case_lines::{Words, content_of, first_line, number_of, unquoted};
use plain_collection::kept;
use plain_edits::{Delta, EditFault, El, Misfit};
use plain_text::{List, Text};
use rev_engine::Edit;
use std::alloc::Global;

/// Runs the lines of a case, each of which has to hold.
pub fn run_case(alloc: Global, case: &[u8]) -> Result<Count> {
    let mut run = Run::new(alloc)?;
    take_lines(&mut run, case)
}

fn take_lines(run: &mut Run, case: &[u8]) -> Result<Count> {
    let mut answer = None;
    let mut number = 0_u64;
    let mut rest = case;
    while !rest.is_empty() {
        let (line, later) = first_line(rest);
        number = number.saturating_add(1);
        answer = take_numbered(run, number, content_of(line), answer)?;
        rest = later;
    }
    ensure!(answer.is_none(), "the last step is refused: {answer:?}");
    Ok(run.count)
}

fn take_numbered(run: &mut Run, number: u64, line: &[u8], answer: Answer) -> Result<Answer> {
    take_line(run, line, answer).context(format_args!("line {number}"))
}

/// Does what a line says, after a step with this answer. It gives the answer that the next line has to say.
fn take_line(run: &mut Run, line: &[u8], answer: Answer) -> Result<Answer> {
    if line.is_empty() || line[0] == b'#' {
        return Ok(answer);
    }
    let mut words = Words { rest: line };
    let word = words.next_word();
    if word == b"refused".as_slice() {
        let said = read_refusal(&mut words)?;
        ensure!(answer == Some(said), "the answer is {answer:?}");
        return Ok(None);
    }
    ensure!(answer.is_none(), "the step before is refused: {answer:?}");
    match word {
        b"edit" => run.edit(&read_edit(run.alloc, &mut words)?),
        b"undo" => run.undo(&read_groups(run.alloc, &mut words)?),
        b"collect" => {
            let floor = number(&mut words)?;
            run.collect(floor, read_groups(run.alloc, &mut words)?.as_slice())
        }
        _ => take_fact(run, word, &mut words),
    }
}

/// Does what a line says that is not refused: it begins anew, or says what is so.
fn take_fact(run: &mut Run, word: &[u8], words: &mut Words<'_>) -> Result<Answer> {
    match word {
        b"text" => run.load(&text(run.alloc, words.rest)?)?,
        b"limit" => run.set_limit(number(words)?)?,
        b"shows" => {
            let rev = number(words)?;
            run.shows(rev, &text(run.alloc, words.rest)?)?;
        }
        b"under" => {
            let groups = read_groups(run.alloc, words)?;
            run.shows_under(groups.as_slice(), &text(run.alloc, words.rest)?)?;
        }
        b"floor" => is_said(run.plain.floor(), words)?,
        b"kept" => is_said(kept(&run.plain), words)?,
        _ => bail!("no line begins with this word"),
    }
    Ok(None)
}

/// The number is what the line says.
fn is_said(is: u64, words: &mut Words<'_>) -> Result<()> {
    ensure!(number(words)? == is, "it is {is}");
    Ok(())
}

fn read_refusal(words: &mut Words<'_>) -> Result<Refusal> {
    Ok(match words.next_word() {
        b"edit" => Refusal::Closed,
        b"unknown" => Refusal::Edit(EditFault::Unknown(number(words)?)),
        b"collected" => Refusal::Edit(EditFault::Collected(number(words)?)),
        b"spent" => Refusal::Edit(EditFault::Spent(u128::from(number(words)?))),
        b"misfit" => Refusal::Edit(EditFault::Misfit(Misfit {
            kind: u8::try_from(number(words)?)?,
            at: number(words)?,
        })),
        b"undo" => Refusal::NoEdit,
        b"frozen" => Refusal::Frozen(number(words)?),
        b"collect" => Refusal::Uncollectable,
        _ => bail!("no such refusal"),
    })
}

fn read_edit(alloc: Global, words: &mut Words<'_>) -> Result<Edit> {
    Ok(Edit {
        rev: field(b"base=", words)?,
        group: field(b"group=", words)?,
        priority: u32::try_from(field(b"priority=", words)?)?,
        author: u32::try_from(field(b"author=", words)?)?,
        after_cursor: false,
        delta: read_delta(alloc, words)?,
    })
}

fn read_delta(alloc: Global, words: &mut Words<'_>) -> Result<Delta> {
    let base_len = field(b"len=", words)?;
    let mut els = List::new(alloc);
    'elements: while !words.rest.is_empty() {
        els.push(read_element(alloc, words)?)?;
    }
    Ok(Delta { els, base_len })
}

fn read_element(alloc: Global, words: &mut Words<'_>) -> Result<El>
    requires { 0 < length words.old.rest.now }
    ensures { length words.new.rest.now < length words.old.rest.now }
{
    match words.next_word() {
        b"copy" => Ok(El::Copy {
            a: number(words)?,
            b: number(words)?,
        }),
        b"insert" => Ok(El::Insert {
            text: text(alloc, words.next_word())?,
        }),
        _ => bail!("`copy FROM TO` or `insert TEXT` is due"),
    }
}

/// The groups up to the end of the line, or to the word `shows`.
fn read_groups(alloc: Global, words: &mut Words<'_>) -> Result<List<u64>> {
    let mut groups = List::new(alloc);
    'groups: while !words.rest.is_empty() {
        match words.next_word() {
            b"shows" => break,
            digits => groups.push(number_of(digits).context("a number is due")?)?,
        }
    }
    Ok(groups)
}

fn field(name: &[u8], words: &mut Words<'_>) -> Result<u64> {
    match words.next_word().strip_prefix(name) {
        Some(digits) => number_of(digits).context("a number is due"),
        None => bail!("base=, group=, priority=, author= and len= are due, in this order"),
    }
}

fn number(words: &mut Words<'_>) -> Result<u64>
    ensures { length words.new.rest.now ≤ length words.old.rest.now - 1 }
{
    number_of(words.next_word()).context("a number is due")
}

fn text(alloc: Global, written: &[u8]) -> Result<Text> {
    let Some(bytes) = unquoted(alloc, written)? else {
        bail!("a backslash needs n, t, s or a backslash after it");
    };
    match Text::from_utf8(bytes) {
        Ok(text) => Ok(text),
        Err(_) => bail!("a text is UTF-8"),
    }
}
