ghost use Rattle.std.specs.Prelude.{◌≡◌, [], IfOk, OnOk, codes, Ok, option_map, option_and_then};
ghost use Rattle.std.specs.Str.{bytes_eq, chars};
ghost use Rattle.serde_json.specs.Find.{as_array};
ghost use Rattle.serde_json.specs.View.{items_view, view};
ghost use Rattle.plain_text.specs.InputLines.{lines_of};
ghost use Rattle.json_rpc.specs.Request.{request};
ghost use Rattle.view_update.specs.Reading.{as_chars, is_note, member_as, note_params};
ghost use Rattle.screen_flags.specs.Flags.{changes_in, count_valid};
ghost use Rattle.screen_flags.specs.Told.{changes_told, flags_told, flags_with, ops_for, ops_in};

use crate::flags::Flags;
use case_lines::first_line;
use json_rpc::{Rpc, RpcFault, read_line};
use plain_text::{NoMemory, Text};
use serde_json::Value;
use std::alloc::Global;
use xi_plain::Id;

/// How many lines are valid of the screen that these bytes tell of the view with this id. Lines that are no update of it are passed over.
/// It takes the time of the bytes, and for each update that of the lines of the screen; and the memory of one line.
pub fn count_valid(alloc: Global, bytes: &[u8], id: &str) -> Result<u64, NoMemory>
    ensures { IfOk result (λ count. count ≡ count_valid (flags_told (chars id.now) [] (lines_of bytes.now))) }
{
    let mut flags = Flags::new(alloc);
    let mut rest = bytes;
    while !rest.is_empty() {
        let (line, later) = first_line(rest);
        heed(alloc, &mut flags, line, id)?;
        rest = later;
    }
    Ok(flags.count())
}

/// Takes what a line tells.
fn heed(alloc: Global, flags: &mut Flags, line: &[u8], id: &str) -> Result<(), NoMemory>
    ensures { OnOk result (flags.new ≡ flags_with flags.old (changes_told (chars id.now) line.now)) }
{
    match read_line(alloc, line) {
        Ok(rpc) => heed_note(alloc, flags, &rpc, id),
        Err(RpcFault::NoMemory) => Err(NoMemory),
        Err(RpcFault::Parse | RpcFault::Invalid) => Ok(()),
    }
}

fn heed_note(alloc: Global, flags: &mut Flags, rpc: &Rpc, id: &str) -> Result<(), NoMemory>
    ensures { OnOk result (flags.new ≡ flags_with flags.old
        (option_map changes_in (option_and_then (ops_for (chars id.now)) (note_params (codes "update") (Ok (request rpc.now)))))) }
{
    match ops_told(rpc, id) {
        Some(items) => flags.take(alloc, items),
        None => Ok(()),
    }
}

/// The operations that a message says for the view, where it is a note of them.
fn ops_told<'a>(rpc: &'a Rpc, id: &str) -> Option<&'a [Value]>
    ensures { option_map (λ items. items_view items.now) result
        ≡ option_and_then (ops_for (chars id.now)) (note_params (codes "update") (Ok (request rpc.now))) }
{
    if is_note(&rpc.id) && is_update(&rpc.method) {
        ops_for(&rpc.params, id)
    } else {
        None
    }
}

fn is_note(id: &Id) -> bool
    ensures { result ≡ is_note id.now }
{
    match id {
        Id::NoId => true,
        Id::Num(_) | Id::Word(_) => false,
    }
}

fn is_update(method: &Text) -> bool
    ensures { result ≡ bytes_eq method.now (codes "update") }
{
    is_same(method.as_str(), "update")
}

fn ops_for<'a>(params: &'a Value, id: &str) -> Option<&'a [Value]>
    ensures { option_map (λ items. items_view items.now) result ≡ ops_for (chars id.now) (view params.now) }
{
    match params.get("view_id").and_then(Value::as_str) {
        Some(name) if is_same(name, id) => ops_in(params),
        _ => None,
    }
}

fn ops_in(params: &Value) -> Option<&[Value]>
    ensures { option_map (λ items. items_view items.now) result ≡ ops_in (view params.now) }
{
    match params.get("update") {
        Some(update) => ops_of(update),
        None => None,
    }
}

fn ops_of(update: &Value) -> Option<&[Value]>
    ensures { option_map (λ items. items_view items.now) result ≡ member_as as_array (codes "ops") (view update.now) }
{
    match update.get("ops") {
        Some(ops) => items_of(ops),
        None => None,
    }
}

fn items_of(ops: &Value) -> Option<&[Value]>
    ensures { option_map (λ items. items_view items.now) result ≡ as_array (view ops.now) }
{
    match ops.as_array() {
        Some(items) => Some(items.as_slice()),
        None => None,
    }
}

/// Whether two texts have the same characters.
fn is_same(text: &str, other: &str) -> bool
    ensures { result ≡ bytes_eq (chars text.now) (chars other.now) }
{
    text == other
}
