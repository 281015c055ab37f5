ghost use Rattle.std.specs.Prelude.{◌≡◌, ℤ, IfOk, option_map, option_and_then, codes};
ghost use Rattle.serde_json.specs.Find.{get, as_integer, as_number, as_u64};
ghost use Rattle.serde_json.specs.View.{view, number_view};
ghost use Rattle.json_rpc.specs.Request.{number_id};
ghost use Rattle.json_rpc.specs.Response.{answered_id, answer_from, error_from};
ghost use Rattle.plugin_side.specs.Heard.{chunk_from, chunk_in, edited_in, first_of, lines_from, result_heard, code_with_room, answer_heard};
ghost use Rattle.plugin_side.specs.Inner.{value_answer, answer_by, failure_by};

use crate::heard::{Answered, Heard};
use crate::values::{taken, text_at, text_of, whole_at};
use plain_text::{NoMemory, Text};
use serde_json::{Number, Value};
use std::alloc::Global;
use xi_plain::Id;

/// The answer that a value is.
pub fn answer_of(alloc: Global, value: Value) -> Result<Option<Heard>, NoMemory>
    ensures { IfOk result (λ heard. heard ≡ value_answer (view value)) }
{
    let id = id_at(alloc, &value)?;
    let answer = answered(alloc, value)?;
    Ok(answer_by(id, answer))
}

fn answer_by(id: Option<Id>, answer: Option<Answered>) -> Option<Heard>
    ensures { result ≡ answer_by id answer }
{
    Some(Heard::Answer {
        id: id?,
        answer: answer?,
    })
}

fn id_at(alloc: Global, value: &Value) -> Result<Option<Id>, NoMemory>
    ensures { IfOk result (λ id.
        id ≡ option_and_then answered_id (get (codes "id") (view value.now))) }
{
    match value.get("id") {
        Some(id) => answered_id(alloc, id),
        None => Ok(None),
    }
}

fn answered_id(alloc: Global, value: &Value) -> Result<Option<Id>, NoMemory>
    ensures { IfOk result (λ id. id ≡ answered_id (view value.now)) }
{
    match value {
        Value::Null => Ok(Some(Id::NoId)),
        Value::Number(number) => Ok(number_id(number)),
        Value::String(text) => Ok(Some(Id::Word(Text::from_str(alloc, text.as_str())?))),
        _ => Ok(None),
    }
}

fn number_id(number: &Number) -> Option<Id>
    ensures { result ≡ number_id (number_view number.now) }
{
    match number.as_i128() {
        Some(n) => Some(Id::Num(n)),
        None => None,
    }
}

/// What the members `error` and `result` give.
fn answered(alloc: Global, value: Value) -> Result<Option<Answered>, NoMemory>
    ensures { IfOk result (λ answer. answer ≡ option_and_then answer_heard
        (answer_from (get (codes "error") (view value)) (get (codes "result") (view value)))) }
{
    if let Some(error) = value.get("error") {
        return failure_of(alloc, error);
    }
    match taken(value, "result") {
        Some(result) => Ok(Some(result_of(result))),
        None => Ok(None),
    }
}

fn failure_of(alloc: Global, error: &Value) -> Result<Option<Answered>, NoMemory>
    ensures { IfOk result (λ answer. answer ≡ option_and_then answer_heard
        (error_from (get (codes "code") (view error.now))
        (get (codes "message") (view error.now)))) }
{
    let code = code_at(error);
    let message = text_at(alloc, error, "message")?;
    Ok(failure_by(code, message))
}

fn failure_by(code: Option<i64>, message: Option<Text>) -> Option<Answered>
    ensures { result ≡ failure_by code message }
{
    Some(Answered::Failed {
        code: code?,
        message: message?,
    })
}

fn code_at(error: &Value) -> Option<i64>
    ensures { result ≡ option_and_then code_with_room
        (option_and_then as_integer (option_and_then as_number
        (get (codes "code") (view error.now)))) }
{
    match error.get("code").and_then(Value::as_number) {
        Some(number) => code_of(number),
        None => None,
    }
}

fn code_of(number: &Number) -> Option<i64>
    ensures { result ≡ option_and_then code_with_room (as_integer (number_view number.now)) }
{
    match number.as_i128() {
        Some(code) => code_with_room(code),
        None => None,
    }
}

fn code_with_room(code: i128) -> Option<i64>
    ensures { result ≡ code_with_room code }
{
    if -(1 << 63) <= code && code < 1 << 63 {
        Some(code as i64)
    } else {
        None
    }
}

/// What a result says. The text of a chunk is moved out of it.
fn result_of(value: Value) -> Answered
    ensures { result ≡ result_heard (view value) }
{
    match value {
        Value::Null => Answered::Null,
        Value::Number(number) => lines_from(number.as_u64()),
        Value::Object(members) => object_of(Value::Object(members)),
        _ => Answered::Other,
    }
}

fn lines_from(n: Option<u64>) -> Answered
    ensures { result ≡ lines_from n }
{
    match n {
        Some(n) => Answered::Lines(n),
        None => Answered::Other,
    }
}

fn object_of(value: Value) -> Answered
    ensures { result ≡ first_of (chunk_in (view value)) (edited_in (view value)) }
{
    let edited = edited_in(&value);
    let offset = whole_at(&value, "offset");
    let text = text_of(taken(value, "chunk"));
    let chunk = chunk_from(text, offset);
    chunk.or(edited).unwrap_or(Answered::Other)
}

fn edited_in(value: &Value) -> Option<Answered>
    ensures { result ≡ edited_in (view value.now) }
{
    let rev = whole_at(value, "rev")?;
    let group = whole_at(value, "undo_group")?;
    Some(Answered::Edited { rev, group })
}

fn chunk_from(text: Option<Text>, offset: Option<u64>) -> Option<Answered>
    ensures { result ≡ chunk_from text offset }
{
    Some(Answered::Chunk {
        text: text?,
        offset: offset?,
    })
}
