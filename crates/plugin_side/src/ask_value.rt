ghost use Rattle.std.specs.Prelude.{◌≡◌, None, IfOk};
ghost use Rattle.serde_json.specs.View.{view, members_view};
ghost use Rattle.xi_plain.specs.declared.command.Act.{Act};
ghost use Rattle.plugin_side.specs.Asking.{IsAsk, edit_params, data_params, spans_params, count_params, alert_params, ack_params, ask_params};
ghost use Rattle.plugin_side.specs.Inner.{IsListAsk, edit_members};
ghost use Rattle.plugin_side.specs.Range.{IsHeldAct};

use crate::delta_value::delta_value;
use crate::members::{put_if, whole_if};
use crate::span_value::spans_value;
use json_rpc::text_value;
use plain_text::{NoMemory, Text};
use serde_json::{Map, Value, json, put};
use std::alloc::Global;
use xi_plain::{Act, Delta, WireSpan};

/// The params of the method that asks the act.
pub fn params_value(alloc: Global, act: &Act) -> Result<Value, NoMemory>
    requires { IsAsk act.now }
    ensures value { IfOk result (λ value. view value ≡ ask_params act.now) }
    ensures held { IfOk result (λ _. IsHeldAct act.now) }
{
    match act {
        Act::GetData {
            view,
            rev,
            start,
            max,
        } => data_value(alloc, view, *rev, *start, *max),
        Act::LineCount { view } => count_value(alloc, view),
        Act::Alert { msg } => alert_value(alloc, msg),
        Act::Ack { view, rev } => ack_value(alloc, view, *rev),
        _ => list_value(alloc, act),
    }
}

/// The same, of an act with a delta or spans.
fn list_value(alloc: Global, act: &Act) -> Result<Value, NoMemory>
    requires { IsListAsk act.now }
    ensures value { IfOk result (λ value. view value ≡ ask_params act.now) }
    ensures held { IfOk result (λ _. IsHeldAct act.now) }
{
    match act {
        Act::PluginEdit {
            view,
            rev,
            delta,
            priority,
            after_cursor,
            author,
            named,
        } => edit_value(
            alloc,
            view,
            *rev,
            delta,
            *priority,
            *after_cursor,
            author,
            *named,
        ),
        Act::UpdateSpans {
            view,
            rev,
            start,
            len,
            spans,
        } => update_value(alloc, view, *rev, *start, *len, spans.as_slice()),
        _ => unreachable!(),
    }
}

fn edit_value(
    alloc: Global,
    id: &Text,
    rev: u64,
    delta: &Delta,
    priority: u32,
    after_cursor: bool,
    author: &Text,
    named: Option<u64>,
) -> Result<Value, NoMemory>
    ensures value { IfOk result (λ value. view value
        ≡ edit_params id.now rev delta.now priority after_cursor author.now named) }
    ensures held { IfOk result (λ _.
        IsHeldAct (Act.PluginEdit id.now rev delta.now priority after_cursor author.now named)) }
{
    let mut members = edit_members(alloc, id, rev, delta, priority, after_cursor, author)?;
    put_if(alloc, &mut members, "undo_group", whole_if(named))?;
    Ok(Value::Object(members))
}

/// The members of an edit but the undo group.
fn edit_members(
    alloc: Global,
    id: &Text,
    rev: u64,
    delta: &Delta,
    priority: u32,
    after_cursor: bool,
    author: &Text,
) -> Result<Map<String, Value>, NoMemory>
    ensures members { IfOk result (λ made. members_view made.entries
        ≡ edit_members id.now rev delta.now priority after_cursor author.now) }
    ensures held { IfOk result (λ _.
        IsHeldAct (Act.PluginEdit id.now rev delta.now priority after_cursor author.now None)) }
{
    let mut members = Map::new(alloc);
    put(&mut members, alloc, "view_id", text_value(alloc, id)?)?;
    put(&mut members, alloc, "rev", Value::from(rev))?;
    put(&mut members, alloc, "priority", Value::from(priority))?;
    put(&mut members, alloc, "delta", delta_value(alloc, delta)?)?;
    put(&mut members, alloc, "author", text_value(alloc, author)?)?;
    put(
        &mut members,
        alloc,
        "after_cursor",
        Value::from(after_cursor),
    )?;
    Ok(members)
}

fn data_value(alloc: Global, id: &Text, rev: u64, start: u64, max: u64) -> Result<Value, NoMemory>
    ensures value { IfOk result (λ value. view value ≡ data_params id.now rev start max) }
    ensures held { IfOk result (λ _. IsHeldAct (Act.GetData id.now rev start max)) }
{
    Ok(json!(in alloc; {"max_size": max, "rev": rev, "start": start, "view_id": id.as_str()})?)
}

fn update_value(
    alloc: Global,
    id: &Text,
    rev: u64,
    start: u64,
    len: u64,
    spans: &[WireSpan],
) -> Result<Value, NoMemory>
    ensures value { IfOk result (λ value. view value
        ≡ spans_params id.now rev start len spans.now) }
    ensures held { IfOk result (λ _. IsHeldAct (Act.UpdateSpans id.now rev start len spans.now)) }
{
    let mut members = Map::new(alloc);
    put(&mut members, alloc, "view_id", text_value(alloc, id)?)?;
    put(&mut members, alloc, "start", Value::from(start))?;
    put(&mut members, alloc, "spans", spans_value(alloc, spans)?)?;
    put(&mut members, alloc, "rev", Value::from(rev))?;
    put(&mut members, alloc, "len", Value::from(len))?;
    Ok(Value::Object(members))
}

fn count_value(alloc: Global, id: &Text) -> Result<Value, NoMemory>
    ensures value { IfOk result (λ value. view value ≡ count_params id.now) }
    ensures held { IfOk result (λ _. IsHeldAct (Act.LineCount id.now)) }
{
    Ok(json!(in alloc; {"view_id": id.as_str()})?)
}

fn alert_value(alloc: Global, msg: &Text) -> Result<Value, NoMemory>
    ensures value { IfOk result (λ value. view value ≡ alert_params msg.now) }
    ensures held { IfOk result (λ _. IsHeldAct (Act.Alert msg.now)) }
{
    Ok(json!(in alloc; {"msg": msg.as_str()})?)
}

fn ack_value(alloc: Global, id: &Text, rev: u64) -> Result<Value, NoMemory>
    ensures value { IfOk result (λ value. view value ≡ ack_params id.now rev) }
    ensures held { IfOk result (λ _. IsHeldAct (Act.Ack id.now rev)) }
{
    Ok(json!(in alloc; {"rev": rev, "view_id": id.as_str()})?)
}
