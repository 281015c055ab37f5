ghost use Rattle.std.specs.Prelude.{◌≡◌, ◌≤◌, false, true, IfOk, Some, Ok};
ghost use Rattle.std.specs.Str.{encode_utf8_all, all_scalars};
ghost use Rattle.serde_json.specs.Data.{depth, number};
ghost use Rattle.serde_json.specs.Find.{of_integer};
ghost use Rattle.serde_json.specs.Written.{has_float};
ghost use Rattle.serde_json.specs.View.{view};
ghost use Rattle.xi_plain.specs.declared.command.Id.TheVariants.{NoId, Num};
ghost use Rattle.json_rpc.specs.Line.{IsLineOf};
ghost use Rattle.json_rpc.specs.Request.{IsWireId, IsTextId, line_request};
ghost use Rattle.json_rpc.specs.Response.{text_data, id_data, pair_data, reply_data, failure_data, error_data, note_data, given, failed, line_response};

use crate::value::{pair, text_value};
use plain_text::{NoMemory, Text};
use serde_json::{Number, Value};
use std::alloc::Global;
use xi_plain::Id;

/// The line that answers the request of this id with a result. The cost is linear in the line. `Err` is want of memory alone.
pub fn write_reply(alloc: Global, id: &Id, value: Value) -> Result<Text, NoMemory>
    requires id_fits { IsWireId id.now }
    requires no_float { has_float (view value) ≡ false }
    requires shallow { depth (view value) ≤ 126 }
    ensures line { IfOk result (λ text.
        IsLineOf (reply_data id.now (view value)) (encode_utf8_all text)) }
    ensures reads_back { IfOk result (λ text. line_response (encode_utf8_all text)
        ≡ Some (record { id = id.now; answer = given (view value) })) }
{
    let id = id_value(alloc, id)?;
    line(alloc, &pair(alloc, "id", id, "result", value)?)
}

/// The line that answers the request of this id with an error; where a line could not be read, the id is [`Id::NoId`].
pub fn write_error(alloc: Global, id: &Id, code: i64, message: &Text) -> Result<Text, NoMemory>
    requires id_fits { IsWireId id.now }
    ensures line { IfOk result (λ text.
        IsLineOf (error_data id.now code message.now) (encode_utf8_all text)) }
    ensures reads_back { IfOk result (λ text. line_response (encode_utf8_all text)
        ≡ Some (record { id = id.now; answer = failed code message.now })) }
{
    let id = id_value(alloc, id)?;
    let error = error_value(alloc, code, message)?;
    line(alloc, &pair(alloc, "error", error, "id", id)?)
}

/// The line of a notification, which has no id and gets no answer. The cost is linear in the line.
pub fn write_note(alloc: Global, method: &Text, params: Value) -> Result<Text, NoMemory>
    requires no_float { has_float (view params) ≡ false }
    requires shallow { depth (view params) ≤ 126 }
    ensures line { IfOk result (λ text.
        IsLineOf (note_data method.now (view params)) (encode_utf8_all text)) }
    ensures reads_back { IfOk result (λ text. line_request (encode_utf8_all text)
        ≡ Ok (record { id = NoId; method = method.now; params = view params })) }
{
    let method = text_value(alloc, method)?;
    line(alloc, &pair(alloc, "method", method, "params", params)?)
}

fn line(alloc: Global, value: &Value) -> Result<Text, NoMemory>
    requires no_float { has_float (view value.now) ≡ false }
    requires shallow { depth (view value.now) ≤ 127 }
    ensures { IfOk result (λ text. IsLineOf (view value.now) (encode_utf8_all text)) }
{
    let mut text = value.to_string(alloc)?;
    text.push('\n')?;
    Ok(Text::from_string(text))
}

fn error_value(alloc: Global, code: i64, message: &Text) -> Result<Value, NoMemory>
    ensures value { IfOk result (λ value. view value ≡ failure_data code message.now) }
    ensures float { IfOk result (λ value. has_float (view value) ≡ false) }
    ensures characters { IfOk result (λ _. all_scalars message.now ≡ true) }
{
    let message = text_value(alloc, message)?;
    pair(alloc, "code", Value::from(code), "message", message)
}

fn id_value(alloc: Global, id: &Id) -> Result<Value, NoMemory>
    requires { IsWireId id.now }
    ensures value { IfOk result (λ value. view value ≡ id_data id.now) }
    ensures text { IfOk result (λ _. IsTextId id.now) }
{
    match id {
        Id::NoId => Ok(Value::Null),
        Id::Num(n) => Ok(number_value(*n)),
        Id::Word(text) => text_value(alloc, text),
    }
}

fn number_value(n: i128) -> Value
    requires { IsWireId (Num n) }
    ensures { view result ≡ number (of_integer n) }
{
    match Number::from_i128(n) {
        Some(number) => Value::Number(number),
        None => Value::Null,
    }
}
