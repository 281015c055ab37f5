// Lines to a book, and what it makes of them, in words.

use plain_text::{NoMemory, Text, Texts};
use plugin_mirror::{Book, BookFault, Page};
use plugin_wire::ask_of;
use std::alloc::Global;
use xi_plain::{Act, Command, Delta, El, Id};

// The first word, and what stands after it.
fn cut(words: &str) -> (&str, &str) {
    match words.split_once(' ') {
        Some((word, rest)) => (word, rest),
        None => (words, ""),
    }
}

// The line of an update, in words: its view, revision, length, base length, and elements.
fn update(alloc: Global, words: &str) -> Result<String, NoMemory> {
    let (view, words) = cut(words);
    let (rev, words) = cut(words);
    let (new_len, words) = cut(words);
    let (base_len, els) = cut(words);
    Ok(format!(in alloc;
        "{{\"method\":\"update\",\"params\":{{\"author\":0,\"delta\":{{\"base_len\":{base_len},\"els\":[{els}]}},\"new_len\":{new_len},\"rev\":{rev},\"view_id\":\"{view}\"}}}}"
    )?)
}

// The line that is said in words, or these words themselves.
pub(crate) fn line(alloc: Global, said: &str) -> Result<String, NoMemory> {
    let (what, words) = cut(said);
    let (first, second) = cut(words);
    Ok(match what {
        "open" => format!(in alloc;
            "{{\"method\":\"new_buffer\",\"params\":{{\"len\":{second},\"rev\":0,\"view_id\":\"{first}\"}}}}"
        )?,
        "update" => update(alloc, words)?,
        "close" => format!(in alloc;
            "{{\"method\":\"did_close\",\"params\":{{\"view_id\":\"{first}\"}}}}"
        )?,
        "chunk" => {
            let (offset, text) = cut(second);
            format!(in alloc;
                "{{\"id\":{first},\"result\":{{\"chunk\":\"{text}\",\"offset\":{offset}}}}}"
            )?
        }
        "error" => format!(in alloc;
            "{{\"error\":{{\"code\":5,\"message\":\"collected revision: 1\"}},\"id\":{first}}}"
        )?,
        _ => format!(in alloc; "{said}")?,
    })
}

fn fault(alloc: Global, fault: BookFault) -> Result<String, NoMemory> {
    Ok(match fault {
        BookFault::Unread => format!(in alloc; "unread")?,
        BookFault::Unknown(view) => format!(in alloc; "unknown {view}")?,
        BookFault::Gap(rev) => format!(in alloc; "gap {rev}")?,
        BookFault::Bad(misfit) => format!(in alloc; "bad {} at {}", misfit.kind, misfit.at)?,
        BookFault::Length(got) => format!(in alloc; "length {got}")?,
        BookFault::NoMemory => return Err(NoMemory),
    })
}

fn taken(alloc: Global, book: &mut Book, said: &str) -> Result<String, NoMemory> {
    let line = Text::from_string(line(alloc, said)?);
    match book.take(&line) {
        Ok(()) => Ok(format!(in alloc; "ok")?),
        Err(given) => fault(alloc, given),
    }
}

fn elements(alloc: Global, els: &[El]) -> Result<String, NoMemory> {
    let mut told = String::new(alloc);
    for el in els {
        let words = match el {
            El::Copy { a, b } => format!(in alloc; " {a}-{b}")?,
            El::Insert { text } => format!(in alloc; " {text}")?,
        };
        told.push_str(words.as_str())?;
    }
    Ok(told)
}

// An ask with its id, the view, where it starts and how long it is; a revision that is acknowledged; or an edit of a replacer with its
// view, revision, length and elements.
fn asked(alloc: Global, command: &Command) -> Result<String, NoMemory> {
    Ok(match (&command.id, &command.act) {
        (
            Id::Num(id),
            Act::GetData {
                view,
                rev: 0,
                start,
                max,
            },
        ) => format!(in alloc; "{id}:{view} from {start} most {max}")?,
        (Id::NoId, Act::Ack { view, rev }) => format!(in alloc; "ack {view} {rev}")?,
        (
            Id::NoId,
            Act::PluginEdit {
                view,
                rev,
                delta: Delta { els, base_len },
                priority: 0,
                after_cursor: false,
                author,
                named: None,
            },
        ) => {
            let els = elements(alloc, els.as_slice())?;
            format!(in alloc; "edit by {author} {view} {rev} of {base_len}:{els}")?
        }
        _ => format!(in alloc; "?")?,
    })
}

// What lines ask, in words.
pub(crate) fn in_words(alloc: Global, lines: &Texts) -> Result<String, NoMemory> {
    let mut told = String::new(alloc);
    for line in lines.as_slice() {
        if !told.is_empty() {
            told.push_str(", ")?;
        }
        let command = ask_of(alloc, line.as_str().as_bytes())?;
        told.push_str(asked(alloc, &command)?.as_str())?;
    }
    Ok(told)
}

fn asks(alloc: Global, book: &mut Book) -> Result<String, NoMemory> {
    let lines = book.asks()?;
    in_words(alloc, &lines)
}

// The lines of asks as they are, each in angle brackets.
fn written(alloc: Global, book: &mut Book) -> Result<String, NoMemory> {
    let lines = book.asks()?;
    let mut told = String::new(alloc);
    for line in lines.as_slice() {
        told.push_str(format!(in alloc; "<{line}>")?.as_str())?;
    }
    Ok(told)
}

fn page(alloc: Global, page: Option<&Page>) -> Result<String, NoMemory> {
    Ok(match page {
        None => format!(in alloc; "none")?,
        Some(page) if page.whole => format!(in alloc; "{} {}", page.rev, page.text)?,
        Some(page) => format!(in alloc; "{}... {}", page.rev, page.text)?,
    })
}

fn step(alloc: Global, book: &mut Book, said: &str) -> Result<String, NoMemory> {
    let (what, view) = cut(said);
    match what {
        "asks" => asks(alloc, book),
        "written" => written(alloc, book),
        "page" => {
            let view = Text::from_str(alloc, view)?;
            page(alloc, book.page(&view))
        }
        _ => taken(alloc, book, said),
    }
}

fn play(alloc: Global, script: &str) -> Result<String, NoMemory> {
    let mut book = Book::new(alloc, 4);
    let mut told = String::new(alloc);
    for said in script.split("; ") {
        told.push_str(step(alloc, &mut book, said)?.as_str())?;
        told.push_str("; ")?;
    }
    Ok(told)
}

// Whether this comes of lines, asks and looks at a book that asks for four bytes at a time.
pub(crate) fn plays(alloc: Global, script: &str, expected: &str) -> bool {
    match play(alloc, script) {
        Ok(told) => told.as_str().strip_suffix("; ") == Some(expected),
        Err(_) => false,
    }
}
