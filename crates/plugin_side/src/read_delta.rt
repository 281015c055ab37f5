ghost use Rattle.std.specs.Prelude.{◌≡◌, ◌^◌, IfOk, codes, option_map, option_and_then};
ghost use Rattle.serde_json.specs.Find.{get};
ghost use Rattle.serde_json.specs.View.{view, items_view};
ghost use Rattle.plugin_wire.specs.Shapes.{text_shape, each_shape, list_shape, copy_items, copy_shape, el_from, el_shape, delta_from, delta_shape};

use crate::values::{taken, whole, whole_at};
use plain_text::{List, NoMemory, Text};
use serde_json::Value;
use std::alloc::Global;
use xi_plain::{Delta, El, Els};

/// The delta that a member is. The texts of its insertions are moved out of it.
pub fn delta_of(alloc: Global, member: Option<Value>) -> Result<Option<Delta>, NoMemory>
    ensures { IfOk result (λ delta.
        delta ≡ option_and_then (delta_shape (2 ^ 64)) (option_map view member)) }
{
    match member {
        Some(value) => delta(alloc, value),
        None => Ok(None),
    }
}

fn delta(alloc: Global, value: Value) -> Result<Option<Delta>, NoMemory>
    ensures { IfOk result (λ delta. delta ≡ delta_shape (2 ^ 64) (view value)) }
{
    let base_len = whole_at(&value, "base_len");
    let els = els_of(alloc, taken(value, "els"))?;
    Ok(delta_from(base_len, els))
}

fn delta_from(base_len: Option<u64>, els: Option<Els>) -> Option<Delta>
    ensures { result ≡ delta_from base_len els }
{
    let base_len = base_len?;
    let els = els?;
    Some(Delta { els, base_len })
}

fn els_of(alloc: Global, member: Option<Value>) -> Result<Option<Els>, NoMemory>
    ensures { IfOk result (λ els.
        els ≡ option_and_then (list_shape (el_shape (2 ^ 64))) (option_map view member)) }
{
    match member {
        Some(Value::Array(items)) => els_in(alloc, items),
        _ => Ok(None),
    }
}

/// The elements that all items are. They are taken from the end of the list turned round, so that each is moved and none copied.
fn els_in(alloc: Global, mut items: Vec<Value>) -> Result<Option<Els>, NoMemory>
    ensures { IfOk result (λ els. els ≡ each_shape (el_shape (2 ^ 64)) (items_view items.items)) }
{
    let mut els = Vec::with_capacity(alloc, items.len())?;
    items.reverse();
    while let Some(item) = items.pop() {
        let Some(el) = el(item) else {
            return Ok(None);
        };
        els.push(el)?;
    }
    Ok(Some(List::from_vec(els)))
}

fn el(value: Value) -> Option<El>
    ensures { result ≡ el_shape (2 ^ 64) (view value) }
{
    let copy = copy_at(&value);
    let insert = insert_of(taken(value, "insert"));
    el_from(copy, insert)
}

fn el_from(copy: Option<Option<El>>, insert: Option<Option<Text>>) -> Option<El>
    ensures { result ≡ el_from copy insert }
{
    match (copy, insert) {
        (Some(copy), None) => copy,
        (None, Some(text)) => Some(El::Insert { text: text? }),
        _ => None,
    }
}

fn copy_at(value: &Value) -> Option<Option<El>>
    ensures { result ≡ option_map (copy_shape (2 ^ 64)) (get (codes "copy") (view value.now)) }
{
    match value.get("copy") {
        Some(offsets) => Some(copy(offsets)),
        None => None,
    }
}

fn copy(value: &Value) -> Option<El>
    ensures { result ≡ copy_shape (2 ^ 64) (view value.now) }
{
    match value.as_array() {
        Some(items) => copy_items(items.as_slice()),
        None => None,
    }
}

fn copy_items(items: &[Value]) -> Option<El>
    ensures { result ≡ copy_items (2 ^ 64) (items_view items.now) }
{
    match items {
        [from, to] => Some(El::Copy {
            a: whole(from)?,
            b: whole(to)?,
        }),
        _ => None,
    }
}

fn insert_of(member: Option<Value>) -> Option<Option<Text>>
    ensures { result ≡ option_map text_shape (option_map view member) }
{
    match member {
        Some(Value::String(text)) => Some(Some(Text::from_string(text))),
        Some(_) => Some(None),
        None => None,
    }
}
