ghost use Rattle.std.specs.Prelude.{◌≡◌, ◌^◌, IfOk, map};
ghost use Rattle.std.specs.List.{AllByRecursion};
ghost use Rattle.serde_json.specs.Data.{array};
ghost use Rattle.serde_json.specs.View.{view, items_of};
ghost use Rattle.plugin_wire.specs.Told.{el_data, delta_data};
ghost use Rattle.plugin_wire.specs.Fair.{IsFairEl, IsFairDelta};

use json_rpc::pair;
use plain_text::NoMemory;
use serde_json::{Value, json};
use std::alloc::Global;
use xi_plain::{Delta, El};

/// The value of JSON that is a delta.
pub fn delta_value(alloc: Global, delta: &Delta) -> Result<Value, NoMemory>
    ensures value { IfOk result (λ value. view value ≡ delta_data delta.now) }
    ensures fair { IfOk result (λ _. IsFairDelta (2 ^ 64) delta.now) }
{
    let els = els_value(alloc, delta.els.as_slice())?;
    pair(alloc, "base_len", Value::from(delta.base_len), "els", els)
}

fn els_value(alloc: Global, els: &[El]) -> Result<Value, NoMemory>
    ensures value { IfOk result (λ value. view value ≡ array (items_of (map el_data els.now))) }
    ensures fair { IfOk result (λ _. AllByRecursion (IsFairEl (2 ^ 64)) els.now) }
{
    let mut made = Vec::with_capacity(alloc, els.len())?;
    for el in els {
        made.push(el_value(alloc, el)?)?;
    }
    Ok(Value::Array(made))
}

fn el_value(alloc: Global, el: &El) -> Result<Value, NoMemory>
    ensures value { IfOk result (λ value. view value ≡ el_data el.now) }
    ensures fair { IfOk result (λ _. IsFairEl (2 ^ 64) el.now) }
{
    match el {
        El::Copy { a, b } => copy_value(alloc, *a, *b),
        El::Insert { text } => Ok(json!(in alloc; {"insert": text.as_str()})?),
    }
}

fn copy_value(alloc: Global, a: u64, b: u64) -> Result<Value, NoMemory>
    ensures value { IfOk result (λ value. view value ≡ el_data (El.Copy a b)) }
    ensures fair { IfOk result (λ _. IsFairEl (2 ^ 64) (El.Copy a b)) }
{
    Ok(json!(in alloc; {"copy": [a, b]})?)
}
