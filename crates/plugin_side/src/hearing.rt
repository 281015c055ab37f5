ghost use Rattle.std.specs.Prelude.{◌≡◌, None, is_some, IfOk, option_map, codes};
ghost use Rattle.std.specs.Str.{encode_utf8_all};
ghost use Rattle.serde_json.specs.Errors.{IsMemory};
ghost use Rattle.serde_json.specs.Find.{get};
ghost use Rattle.serde_json.specs.View.{view};
ghost use Rattle.json_rpc.specs.Line.{without_lf};
ghost use Rattle.plugin_side.specs.declared.heard.Heard.TheVariants as Hears;
ghost use Rattle.plugin_side.specs.Heard.{heard_of, heard_in};
ghost use Rattle.plugin_side.specs.Inner.{value_heard};

use crate::answer::answer_of;
use crate::heard::{Heard, Told};
use crate::notice::told_of;
use plain_text::{NoMemory, Text};
use serde_json::{Error, Value};
use std::alloc::Global;

const LINE_FEED: u8 = b'\n';

/// What a plugin hears in a line, with or without its LF. Members stand in any order, and further ones are passed over. A number that
/// has no room in its type makes a notice or an error [`Heard::Nothing`]. The cost is linear in the line: the texts of insertions and
/// of a chunk are moved out of what was read.
pub fn hear(alloc: Global, line: &Text) -> Result<Heard, NoMemory>
    ensures { IfOk result (λ heard. heard ≡ heard_in (encode_utf8_all line.now)) }
{
    match Value::from_slice(alloc, without_lf(line.as_str().as_bytes())) {
        Ok(value) => value_heard(alloc, value),
        Err(error) => unread(&error),
    }
}

fn unread(error: &Error) -> Result<Heard, NoMemory>
    ensures nothing { IfOk result (λ heard. heard ≡ Hears.Nothing) }
    ensures read { IfOk result (λ _. ¬ IsMemory error.now) }
{
    if error.is_memory() {
        Err(NoMemory)
    } else {
        Ok(Heard::Nothing)
    }
}

fn without_lf(line: &[u8]) -> &[u8]
    ensures { result.now ≡ without_lf line.now }
{
    match line.split_last() {
        Some((last, rest)) if *last == LINE_FEED => rest,
        _ => line,
    }
}

/// What is heard in a value: a notice has no id, and an answer has one.
fn value_heard(alloc: Global, value: Value) -> Result<Heard, NoMemory>
    ensures { IfOk result (λ heard. heard ≡ value_heard (view value)) }
{
    if has_id(&value) {
        let answer = answer_of(alloc, value)?;
        return Ok(answer_or_nothing(answer));
    }
    let told = told_of(alloc, value)?;
    Ok(told_or_nothing(told))
}

fn has_id(value: &Value) -> bool
    ensures { result ≡ is_some (get (codes "id") (view value.now)) }
{
    value.get("id").is_some()
}

fn answer_or_nothing(answer: Option<Heard>) -> Heard
    ensures { result ≡ heard_of None answer }
{
    match answer {
        Some(answer) => answer,
        None => Heard::Nothing,
    }
}

fn told_or_nothing(told: Option<Told>) -> Heard
    ensures { result ≡ heard_of (option_map Hears.Told told) None }
{
    match told {
        Some(told) => Heard::Told(told),
        None => Heard::Nothing,
    }
}
