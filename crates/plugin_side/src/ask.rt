ghost use Rattle.std.specs.Prelude.{◌≡◌, false, codes, IfOk, option_map};
ghost use Rattle.std.specs.Str.{encode_utf8_all};
ghost use Rattle.serde_json.specs.Data.{member, no_members};
ghost use Rattle.serde_json.specs.View.{view, members_view};
ghost use Rattle.serde_json.specs.Written.{has_float};
ghost use Rattle.json_rpc.specs.Line.{line_of, HasNoLf, IsLineOf};
ghost use Rattle.json_rpc.specs.Request.{IsTextId};
ghost use Rattle.json_rpc.specs.Response.{text_data};
ghost use Rattle.plugin_wire.specs.Asked.{ask_of};
ghost use Rattle.plugin_side.specs.Asking.{IsAsk, ask_method, ask_params, id_number, id_member, command_data, turn_bytes};
ghost use Rattle.plugin_side.specs.Range.{IsHeldAct, IsHeldCommand, IsTakenCommand};

use crate::ask_value::params_value;
use crate::members::put_if;
use json_rpc::laws::ends_do_not_matter;
use json_rpc::text_value;
use plain_text::{NoMemory, Text};
use serde_json::{Map, Value, put};
use std::alloc::Global;
use xi_plain::{Act, Command, Id};

/// The line of a command, with its LF. The core takes it as the same command, where its numbers are below 2^63, a weight is at most
/// 1,000, and its spans end within their length and not before they start. An id that JSON has no room for is written as null, which
/// the core refuses. The cost is linear in the line: a text is copied once into the value and once into the line.
pub fn ask_line(alloc: Global, command: &Command) -> Result<Text, NoMemory>
    requires { IsAsk command.now.act }
    ensures line { IfOk result (λ text. IsLineOf (command_data command.now) (encode_utf8_all text)) }
    ensures asked { IfOk result (λ text. IsTakenCommand command.now
        → ask_of (encode_utf8_all text) ≡ command.now) }
{
    let value = command_value(alloc, command)?;
    line(alloc, &value)
}

/// The same line without its LF, as a turn gives it.
pub fn turn_line(alloc: Global, command: &Command) -> Result<Text, NoMemory>
    requires { IsAsk command.now.act }
    ensures line { IfOk result (λ text. encode_utf8_all text ≡ turn_bytes command.now) }
    ensures one { IfOk result (λ text. HasNoLf (encode_utf8_all text)) }
    ensures asked { IfOk result (λ text. IsTakenCommand command.now
        → ask_of (encode_utf8_all text) ≡ command.now) }
{
    ends_do_not_matter();
    let written = ask_line(alloc, command)?;
    let mut line = written.into_string();
    let _lf = line.pop();
    Ok(Text::from_string(line))
}

fn line(alloc: Global, value: &Value) -> Result<Text, NoMemory>
    requires { has_float (view value.now) ≡ false }
    ensures { IfOk result (λ text. encode_utf8_all text ≡ line_of (view value.now)) }
{
    let mut text = value.to_string(alloc)?;
    text.push('\n')?;
    Ok(Text::from_string(text))
}

fn command_value(alloc: Global, command: &Command) -> Result<Value, NoMemory>
    requires { IsAsk command.now.act }
    ensures value { IfOk result (λ value. view value ≡ command_data command.now) }
    ensures held { IfOk result (λ _. IsHeldCommand command.now) }
{
    let mut members = ask_members(alloc, &command.act)?;
    let id = id_value(alloc, &command.id)?;
    put_if(alloc, &mut members, "id", id)?;
    Ok(Value::Object(members))
}

/// The method and its params.
fn ask_members(alloc: Global, act: &Act) -> Result<Map<String, Value>, NoMemory>
    requires { IsAsk act.now }
    ensures members { IfOk result (λ made. members_view made.entries
        ≡ member (codes "method") (text_data (ask_method act.now))
        (member (codes "params") (ask_params act.now) no_members)) }
    ensures held { IfOk result (λ _. IsHeldAct act.now) }
{
    let params = params_value(alloc, act)?;
    let method = Value::try_from_str(alloc, method_of(act))?;
    let mut members = Map::new(alloc);
    put(&mut members, alloc, "params", params)?;
    put(&mut members, alloc, "method", method)?;
    Ok(members)
}

fn method_of(act: &Act) -> &'static str
    requires { IsAsk act.now }
    ensures { result.now ≡ encode_utf8_all (ask_method act.now) }
{
    match act {
        Act::PluginEdit { .. } => "edit",
        Act::GetData { .. } => "get_data",
        Act::UpdateSpans { .. } => "update_spans",
        Act::LineCount { .. } => "line_count",
        Act::Alert { .. } => "alert",
        Act::Ack { .. } => "ack",
        _ => unreachable!(),
    }
}

/// The value of an id, where there is one.
fn id_value(alloc: Global, id: &Id) -> Result<Option<Value>, NoMemory>
    ensures value { IfOk result (λ value. option_map view value ≡ id_member id.now) }
    ensures text { IfOk result (λ _. IsTextId id.now) }
{
    match id {
        Id::NoId => Ok(None),
        Id::Num(n) => Ok(Some(number_value(*n))),
        Id::Word(text) => Ok(Some(text_value(alloc, text)?)),
    }
}

fn number_value(n: i128) -> Value
    ensures { view result ≡ id_number n }
{
    if 0 <= n && n < 1 << 64 {
        Value::from(n as u64)
    } else if n < 0 && -(1 << 63) <= n {
        Value::from(n as i64)
    } else {
        Value::Null
    }
}
