// What a value says of a shelf's answer.
ghost use Rattle.std.specs.Prelude.{◌≡◌, codes, IfOk, option_and_then, option_map};
ghost use Rattle.serde_json.specs.Find.{get, as_str};
ghost use Rattle.serde_json.specs.View.{view};
ghost use Rattle.xi_plain.specs.declared.entry.ShelfNote.TheVariants as ShelfNote;
ghost use Rattle.journal_file.specs.Filed.{bytes_of_digits, held_from, note_named, note_of};

use hex::FromHexError;
use plain_text::{Bytes, NoMemory};
use serde_json::Value;
use std::alloc::Global;
use xi_plain::ShelfNote;

pub(crate) fn note_of(alloc: Global, value: &Value) -> Result<Option<ShelfNote>, NoMemory>
    ensures { IfOk result (λ note. note ≡ note_of (view value.now)) }
{
    match value {
        Value::Null => Ok(Some(ShelfNote::NoCall)),
        Value::String(name) => Ok(note_named(name.as_str())),
        Value::Object(_) => held_of(alloc, value),
        _ => Ok(None),
    }
}

fn note_named(name: &str) -> Option<ShelfNote>
    ensures { result ≡ note_named name.now }
{
    match name {
        "absent" => Some(ShelfNote::Absent),
        "failed" => Some(ShelfNote::Failed),
        "done" => Some(ShelfNote::Done),
        _ => None,
    }
}

fn held_of(alloc: Global, value: &Value) -> Result<Option<ShelfNote>, NoMemory>
    ensures { IfOk result (λ note. note ≡ held_from (option_and_then as_str (get (codes "text") (view value.now)))
        (option_and_then as_str (get (codes "base16") (view value.now)))) }
{
    match value.get("text").and_then(Value::as_str) {
        Some(text) => {
            let bytes = Vec::from_slice(alloc, text.as_bytes())?;
            Ok(Some(ShelfNote::Held(Bytes::from_vec(bytes))))
        }
        None => match value.get("base16").and_then(Value::as_str) {
            Some(digits) => digits_of(alloc, digits),
            None => Ok(None),
        },
    }
}

fn digits_of(alloc: Global, digits: &str) -> Result<Option<ShelfNote>, NoMemory>
    ensures { IfOk result (λ note. note ≡ option_map ShelfNote.Held (bytes_of_digits digits.now)) }
{
    match hex::decode(alloc, digits) {
        Ok(bytes) => Ok(Some(ShelfNote::Held(Bytes::from_vec(bytes)))),
        Err(FromHexError::OutOfMemory) => Err(NoMemory),
        Err(_) => Ok(None),
    }
}
