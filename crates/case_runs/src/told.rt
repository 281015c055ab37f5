//! Lines of a table made one text, and what a journal tells in short.

ghost use Rattle.std.specs.Prelude.{◌≡◌, ◌++◌, IfOk, OnOk, take};
ghost use Rattle.std.specs.List.{flat_map};
ghost use Rattle.case_runs.specs.Told.{caller_in, callers_in};

use plain_text::{NoMemory, Text};
use std::alloc::{AllocError, Global};
use xi_plain::Entry;

// The first of these texts, so many.
fn first_texts<'a>(texts: &'a [&'a str], count: usize) -> &'a [&'a str]
    ensures { result.now ≡ take count texts.now }
{
    if count < texts.len() {
        &texts[..count]
    } else {
        texts
    }
}

/// The first of these texts, one after the other; all where there are not so many.
pub fn joined(alloc: Global, texts: &[&str], count: usize) -> Result<Vec<u8>, AllocError>
    ensures { IfOk result (λ bytes. bytes.items ≡ flat_map (λ text. text.now) (take count texts.now)) }
{
    let first = first_texts(texts, count);
    let mut bytes = Vec::new(alloc);
    for text in first {
        bytes.extend_from_slice(text.as_bytes())?;
    }
    Ok(bytes)
}

fn push_caller(told: &mut Text, entry: &Entry) -> Result<(), NoMemory>
    ensures { OnOk result (told.new ≡ told.old ++ caller_in entry.now) }
{
    told.push(char::from(b'0' + (entry.caller % 10) as u8))?;
    if !entry.sent {
        told.push('!')?;
    }
    Ok(())
}

/// The callers of the entries, each by its last digit, with `!` behind an entry that was not sent.
pub fn callers(alloc: Global, entries: &[Entry]) -> Result<Text, NoMemory>
    ensures { IfOk result (λ told. told ≡ callers_in entries.now) }
{
    let mut told = Text::new(alloc);
    for entry in entries {
        push_caller(&mut told, entry)?;
    }
    Ok(told)
}
