ghost use Rattle.std.specs.Prelude.{◌≡◌, ◌^◌, IfOk, None, option_map, option_and_then, unwrap_or, codes};
ghost use Rattle.serde_json.specs.Data.{null};
ghost use Rattle.serde_json.specs.Find.{get};
ghost use Rattle.serde_json.specs.View.{view};
ghost use Rattle.plugin_wire.specs.Shapes.{under};
ghost use Rattle.plugin_wire.specs.Told.{started as wire_started, changed as wire_changed, closed as wire_closed};
ghost use Rattle.plugin_wire.specs.Hearing.{heard_number, heard_view, notice_from, heard_notice, opening_from, heard};
ghost use Rattle.plugin_side.specs.Heard.{with_room};
ghost use Rattle.plugin_side.specs.Inner.{value_told};

use crate::heard::Told;
use crate::read_delta::delta_of;
use crate::values::{taken, text_at, whole_at};
use plain_text::{NoMemory, Text};
use serde_json::Value;
use std::alloc::Global;
use xi_plain::{Delta, Notice};

/// What a value without an id tells.
pub fn told_of(alloc: Global, value: Value) -> Result<Option<Told>, NoMemory>
    requires { get (codes "id") (view value) ≡ None }
    ensures { IfOk result (λ told. told
        ≡ option_and_then with_room (value_told (view value))) }
{
    let name = text_at(alloc, &value, "method")?;
    told_by(alloc, name, params_of(value))
}

fn params_of(value: Value) -> Value
    ensures { view result ≡ unwrap_or (get (codes "params") (view value)) null }
{
    taken(value, "params").unwrap_or(Value::Null)
}

fn told_by(alloc: Global, name: Option<Text>, params: Value) -> Result<Option<Told>, NoMemory>
    ensures { IfOk result (λ told. told ≡ option_and_then with_room
        (option_and_then (λ name. heard name (view params)) name)) }
{
    match name {
        Some(name) => told(alloc, name.as_str(), params),
        None => Ok(None),
    }
}

/// What the notice of this name tells by its params.
fn told(alloc: Global, name: &str, params: Value) -> Result<Option<Told>, NoMemory>
    ensures { IfOk result (λ told. told
        ≡ option_and_then with_room (heard name.now (view params))) }
{
    match name {
        "initialize" => Ok(started(&params)),
        "new_buffer" => opened(alloc, &params),
        "update" => changed(alloc, params),
        "did_close" => closed(alloc, &params),
        "shutdown" => Ok(Some(Told::Stopped)),
        _ => Ok(None),
    }
}

fn started(params: &Value) -> Option<Told>
    ensures { result ≡ option_and_then with_room
        (option_map wire_started (heard_number (codes "plugin_id") (view params.now))) }
{
    let caller = whole_at(params, "plugin_id")?;
    let caller = short(caller)?;
    Some(Told::Started { caller })
}

fn short(n: u64) -> Option<u32>
    ensures { result ≡ under (2 ^ 32) n }
{
    if n < 1 << 32 { Some(n as u32) } else { None }
}

fn opened(alloc: Global, params: &Value) -> Result<Option<Told>, NoMemory>
    ensures { IfOk result (λ told. told ≡ option_and_then with_room
        (opening_from (heard_number (codes "len") (view params.now))
        (heard_number (codes "rev") (view params.now)) (heard_view (view params.now)))) }
{
    let len = whole_at(params, "len");
    let rev = whole_at(params, "rev");
    let id = text_at(alloc, params, "view_id")?;
    Ok(opening_from(len, rev, id))
}

fn opening_from(len: Option<u64>, rev: Option<u64>, id: Option<Text>) -> Option<Told>
    ensures { result ≡ option_and_then with_room (opening_from len rev id) }
{
    let len = len?;
    let rev = rev?;
    let view = id?;
    if rev == 0 {
        Some(Told::Opened { view, len })
    } else {
        None
    }
}

fn changed(alloc: Global, params: Value) -> Result<Option<Told>, NoMemory>
    ensures { IfOk result (λ told. told ≡ option_and_then with_room
        (option_map wire_changed (heard_notice (view params)))) }
{
    let author = whole_at(&params, "author");
    let new_len = whole_at(&params, "new_len");
    let rev = whole_at(&params, "rev");
    let id = text_at(alloc, &params, "view_id")?;
    let delta = delta_of(alloc, taken(params, "delta"))?;
    Ok(notice_from(author, delta, new_len, rev, id))
}

fn notice_from(
    author: Option<u64>,
    delta: Option<Delta>,
    new_len: Option<u64>,
    rev: Option<u64>,
    id: Option<Text>,
) -> Option<Told>
    ensures { result ≡ option_and_then with_room
        (option_map wire_changed (notice_from author delta new_len rev id)) }
{
    let author = author?;
    let delta = delta?;
    let new_len = new_len?;
    let rev = rev?;
    let view = id?;
    let author = short(author)?;
    Some(Told::Changed(Notice {
        view,
        author,
        rev,
        new_len,
        delta,
    }))
}

fn closed(alloc: Global, params: &Value) -> Result<Option<Told>, NoMemory>
    ensures { IfOk result (λ told. told ≡ option_and_then with_room
        (option_map wire_closed (heard_view (view params.now)))) }
{
    match text_at(alloc, params, "view_id")? {
        Some(view) => Ok(Some(Told::Closed { view })),
        None => Ok(None),
    }
}
