//! What an event came to, in the words of the lines that ask for it.

use crate::words::number;
use anyhow::Context;
use case_lines::Words;
use doc_session::{Body, Effects};
use plain_edits::{El, Els};
use plain_screen::{Line, Op, Update};
use std::alloc::Global;
use std::fmt::Write;
use xi_plain::Notice;

/// What a line should say whose first word is `part`, where that is a part of the effects.
pub fn told(
    alloc: Global,
    effects: &Effects,
    part: &[u8],
    words: &mut Words<'_>,
) -> anyhow::Result<Option<String>> {
    let said = match part {
        b"answers" => answered(alloc, &effects.body)?,
        b"takes" => taken(alloc, &effects.body)?,
        b"scrolls" => scrolled(alloc, effects.scroll)?,
        b"notes" => noted(alloc, effects.notice.as_ref())?,
        b"updates" => updated(alloc, effects.update.as_ref())?,
        b"line" | b"carets" | b"styles" => {
            of_line(alloc, effects.update.as_ref(), part, number(words)?)?
        }
        _ => return Ok(None),
    };
    Ok(Some(said))
}

fn answered(alloc: Global, body: &Body) -> anyhow::Result<String> {
    Ok(match body {
        Body::Null => format!(in alloc; "answers null")?,
        Body::Copied { text } => with_text(format!(in alloc; "answers text")?, text.as_str())?,
        Body::Edited { rev, group } => format!(in alloc; "answers rev={rev} group={group}")?,
        Body::Chunk { text, offset } => {
            with_text(
                format!(in alloc; "answers chunk at={offset}")?,
                text.as_str(),
            )?
        }
        Body::Lines(lines) => format!(in alloc; "answers lines {lines}")?,
    })
}

/// How many bytes a chunk takes that is answered.
fn taken(alloc: Global, body: &Body) -> anyhow::Result<String> {
    Ok(match body {
        Body::Chunk { text, .. } => format!(in alloc; "takes {}", text.byte_len())?,
        _ => format!(in alloc; "takes nothing")?,
    })
}

fn scrolled(alloc: Global, scroll: Option<(u64, u64)>) -> anyhow::Result<String> {
    Ok(match scroll {
        Some((line, col)) => format!(in alloc; "scrolls {line} {col}")?,
        None => format!(in alloc; "scrolls nowhere")?,
    })
}

fn noted(alloc: Global, notice: Option<&Notice>) -> anyhow::Result<String> {
    let Some(notice) = notice else {
        return Ok(format!(in alloc; "notes nothing")?);
    };
    let mut said = format!(in alloc;
        "notes plugin={} rev={} len={}",
        notice.author, notice.rev, notice.new_len
    )?;
    write!(said, " base={}", notice.delta.base_len)?;
    write_els(&mut said, &notice.delta.els)?;
    Ok(said)
}

fn write_els(said: &mut String, els: &Els) -> anyhow::Result<()> {
    for el in els.iter() {
        match el {
            El::Copy { a, b } => write!(said, " copy {a} {b}")?,
            El::Insert { text } => write!(said, " insert {}", text.as_str())?,
        }
    }
    Ok(())
}

fn updated(alloc: Global, update: Option<&Update>) -> anyhow::Result<String> {
    let Some(update) = update else {
        return Ok(format!(in alloc; "updates nothing")?);
    };
    let mut said = format!(in alloc;
        "updates {}",
        if update.pristine {
            "pristine"
        } else {
            "changed"
        }
    )?;
    for op in update.ops.iter() {
        match op {
            Op::Copy { n, ln: _ } => write!(said, " copy {n}")?,
            Op::Skip { n } => write!(said, " skip {n}")?,
            Op::Invalidate { n } => write!(said, " invalidate {n}")?,
            Op::Ins { lines } => write!(said, " ins {}", lines.len())?,
            Op::Update { ln: _, lines } => write!(said, " update {}", lines.len())?,
        }
    }
    Ok(said)
}

fn of_line(
    alloc: Global,
    update: Option<&Update>,
    part: &[u8],
    index: u64,
) -> anyhow::Result<String> {
    let line = update
        .and_then(|update| sent(update, index))
        .context("no such line is sent")?;
    match part {
        b"carets" => carets(alloc, index, line),
        b"styles" => styles(alloc, index, line),
        _ => shown(alloc, index, line),
    }
}

/// The line that an update sends at this place, of those that it sends.
fn sent(update: &Update, index: u64) -> Option<&Line> {
    let mut place = usize::try_from(index).ok()?;
    for op in update.ops.iter() {
        if let Op::Ins { lines } = op {
            if place < lines.len() {
                return lines.get(place);
            }
            place -= lines.len();
        }
    }
    None
}

fn shown(alloc: Global, index: u64, line: &Line) -> anyhow::Result<String> {
    let said = match line.ln {
        Some(ln) => format!(in alloc; "line {index} ln={ln}")?,
        None => format!(in alloc; "line {index} ln=-")?,
    };
    with_text(said, line.text.as_str())
}

/// These words, and the text behind them where it is not empty.
pub fn with_text(said: String, text: &str) -> anyhow::Result<String> {
    let mut said = said;
    if !text.is_empty() {
        write!(said, " {text}")?;
    }
    Ok(said)
}

fn carets(alloc: Global, index: u64, line: &Line) -> anyhow::Result<String> {
    let mut said = format!(in alloc; "carets {index}")?;
    for at in line.cursor.iter() {
        write!(said, " {at}")?;
    }
    Ok(said)
}

fn styles(alloc: Global, index: u64, line: &Line) -> anyhow::Result<String> {
    let mut said = format!(in alloc; "styles {index}")?;
    for triple in line.styles.iter() {
        write!(said, " {} {} {}", triple.start, triple.len, triple.id)?;
    }
    Ok(said)
}
