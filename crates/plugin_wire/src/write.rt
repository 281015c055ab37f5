ghost use Rattle.std.specs.Prelude.{◌≡◌, ◌≤◌, false, IfOk};
ghost use Rattle.std.specs.Str.{encode_utf8_all, IsAscii};
ghost use Rattle.serde_json.specs.Data.{depth};
ghost use Rattle.serde_json.specs.View.{view};
ghost use Rattle.serde_json.specs.Written.{has_float};
ghost use Rattle.json_rpc.specs.Line.{IsLineOf};
ghost use Rattle.json_rpc.specs.Response.{note_data};
ghost use Rattle.plugin_wire.specs.Told.{started, opened, changed, closed, stopped, told_params, change_params};
ghost use Rattle.plugin_wire.specs.Fair.{IsFairTold, IsFairNotice};
ghost use Rattle.plugin_wire.specs.Laws.{IsNoticeOf};

use crate::delta_value::delta_value;
use json_rpc::{text_value, write_note};
use plain_text::{NoMemory, Text};
use serde_json::{Map, Value, json, put};
use std::alloc::Global;
use xi_plain::Notice;

/// The line that tells a plugin of a revision. The cost is that of the notice: a text that is inserted is copied once.
pub fn notice_line(alloc: Global, notice: &Notice) -> Result<Text, NoMemory>
    ensures { IfOk result (λ text. IsNoticeOf (changed notice.now) (encode_utf8_all text)) }
{
    let params = change_value(alloc, notice)?;
    note(alloc, "update", params)
}

/// The line that tells a plugin of a view that was opened on a text of `len` bytes.
pub fn buffer_line(alloc: Global, view: &Text, len: u64) -> Result<Text, NoMemory>
    ensures { IfOk result (λ text. IsNoticeOf (opened view.now len) (encode_utf8_all text)) }
{
    let params = open_value(alloc, view, len)?;
    note(alloc, "new_buffer", params)
}

/// The line that tells a plugin of a view that was closed.
pub fn close_line(alloc: Global, view: &Text) -> Result<Text, NoMemory>
    ensures { IfOk result (λ text. IsNoticeOf (closed view.now) (encode_utf8_all text)) }
{
    let params = close_value(alloc, view)?;
    note(alloc, "did_close", params)
}

/// The first line of a plugin, which tells its number among the callers.
pub fn start_line(alloc: Global, caller: u32) -> Result<Text, NoMemory>
    ensures { IfOk result (λ text. IsNoticeOf (started caller) (encode_utf8_all text)) }
{
    let params = start_value(alloc, caller)?;
    note(alloc, "initialize", params)
}

/// The last line of a plugin.
pub fn stop_line(alloc: Global) -> Result<Text, NoMemory>
    ensures { IfOk result (λ text. IsNoticeOf stopped (encode_utf8_all text)) }
{
    let params = stop_value(alloc);
    note(alloc, "shutdown", params)
}

fn note(alloc: Global, method: &str, params: Value) -> Result<Text, NoMemory>
    requires ascii { IsAscii method.now }
    requires no_float { has_float (view params) ≡ false }
    requires shallow { depth (view params) ≤ 126 }
    ensures { IfOk result (λ text.
        IsLineOf (note_data method.now (view params)) (encode_utf8_all text)) }
{
    let method = Text::from_ascii(alloc, method)?;
    write_note(alloc, &method, params)
}

fn change_value(alloc: Global, notice: &Notice) -> Result<Value, NoMemory>
    ensures value { IfOk result (λ value. view value ≡ change_params notice.now) }
    ensures fair { IfOk result (λ _. IsFairNotice notice.now) }
{
    let mut members = Map::new(alloc);
    put(
        &mut members,
        alloc,
        "view_id",
        text_value(alloc, &notice.view)?,
    )?;
    put(&mut members, alloc, "rev", Value::from(notice.rev))?;
    put(&mut members, alloc, "new_len", Value::from(notice.new_len))?;
    put(
        &mut members,
        alloc,
        "delta",
        delta_value(alloc, &notice.delta)?,
    )?;
    put(&mut members, alloc, "author", Value::from(notice.author))?;
    Ok(Value::Object(members))
}

fn open_value(alloc: Global, id: &Text, len: u64) -> Result<Value, NoMemory>
    ensures value { IfOk result (λ value. view value ≡ told_params (opened id.now len)) }
    ensures fair { IfOk result (λ _. IsFairTold (opened id.now len)) }
{
    Ok(json!(in alloc; {"len": len, "rev": 0u64, "view_id": id.as_str()})?)
}

fn close_value(alloc: Global, id: &Text) -> Result<Value, NoMemory>
    ensures value { IfOk result (λ value. view value ≡ told_params (closed id.now)) }
    ensures fair { IfOk result (λ _. IsFairTold (closed id.now)) }
{
    Ok(json!(in alloc; {"view_id": id.as_str()})?)
}

fn start_value(alloc: Global, caller: u32) -> Result<Value, NoMemory>
    ensures value { IfOk result (λ value. view value ≡ told_params (started caller)) }
    ensures fair { IfOk result (λ _. IsFairTold (started caller)) }
{
    Ok(json!(in alloc; {"plugin_id": caller})?)
}

fn stop_value(alloc: Global) -> Value
    ensures { view result ≡ told_params stopped }
{
    Value::Object(Map::new(alloc))
}
