ghost use Rattle.std.specs.Prelude.{◌≡◌, IfOk, IfErr, Some, codes, option_map, option_and_then, string_bytes, unwrap_or};
ghost use Rattle.serde_json.specs.Find.{as_str, get};
ghost use Rattle.serde_json.specs.View.{view};
ghost use Rattle.session_load.specs.Kind.{kind_in, kind_of, method_of, unreadable};

use anyhow::bail;
use serde_json::Value;
use std::alloc::Global;

/// The kind of a line: its method, or where it edits a view the method of that; `unreadable` where it is no JSON or names none.
pub fn kind_of(alloc: Global, line: &str) -> anyhow::Result<String>
    ensures { IfOk result (λ kind. string_bytes kind ≡ kind_of line.now) }
{
    match Value::from_str(alloc, line) {
        Ok(value) => kind_in(alloc, &value),
        Err(error) if error.is_memory() => bail!("no memory"),
        Err(_) => unreadable(alloc),
    }
}

fn kind_in(alloc: Global, value: &Value) -> anyhow::Result<String>
    ensures { IfOk result (λ kind. string_bytes kind ≡ kind_in (Some (view value.now))) }
{
    let kind = method_of(alloc, value)?;
    match value.get("params") {
        Some(params) if kind.as_str() == "edit" => method_of(alloc, params),
        _ => Ok(kind),
    }
}

fn method_of(alloc: Global, value: &Value) -> anyhow::Result<String>
    ensures { IfOk result (λ name. string_bytes name ≡ method_of (view value.now)) }
{
    match value.get("method") {
        Some(Value::String(name)) => Ok(String::from_str(alloc, name.as_str())?),
        _ => unreadable(alloc),
    }
}

fn unreadable(alloc: Global) -> anyhow::Result<String>
    ensures { IfOk result (λ name. string_bytes name ≡ unreadable) }
{
    Ok(String::from_str(alloc, "unreadable")?)
}
