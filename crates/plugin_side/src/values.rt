ghost use Rattle.std.specs.Prelude.{◌≡◌, ◌^◌, IfOk, option_map, option_and_then};
ghost use Rattle.serde_json.specs.Find.{get, get_member};
ghost use Rattle.serde_json.specs.View.{view, members_view};
ghost use Rattle.plugin_wire.specs.Shapes.{whole_shape, text_shape};

use plain_text::{NoMemory, Text};
use serde_json::{Map, Value};
use std::alloc::Global;

/// The whole number from 0 to 2^64 - 1 that a value is.
pub fn whole(value: &Value) -> Option<u64>
    ensures { result ≡ whole_shape (2 ^ 64) (view value.now) }
{
    value.as_u64()
}

/// The whole number that the member of this name is.
pub fn whole_at(value: &Value, name: &str) -> Option<u64>
    ensures { result ≡ option_and_then (whole_shape (2 ^ 64)) (get name.now (view value.now)) }
{
    match value.get(name) {
        Some(member) => whole(member),
        None => None,
    }
}

/// A copy of the text that the member of this name is.
pub fn text_at(alloc: Global, value: &Value, name: &str) -> Result<Option<Text>, NoMemory>
    ensures { IfOk result (λ text.
        text ≡ option_and_then text_shape (get name.now (view value.now))) }
{
    match value.get(name).and_then(Value::as_str) {
        Some(text) => Ok(Some(Text::from_str(alloc, text)?)),
        None => Ok(None),
    }
}

/// The text that a member is, moved out of it.
pub fn text_of(member: Option<Value>) -> Option<Text>
    ensures { result ≡ option_and_then text_shape (option_map view member) }
{
    match member {
        Some(Value::String(text)) => Some(Text::from_string(text)),
        _ => None,
    }
}

/// The member of this name, moved out of the value.
pub fn taken(value: Value, name: &str) -> Option<Value>
    ensures { option_map view result ≡ get name.now (view value) }
{
    match value {
        Value::Object(members) => member_taken(members, name),
        _ => None,
    }
}

fn member_taken(mut members: Map<String, Value>, name: &str) -> Option<Value>
    ensures { option_map view result ≡ get_member name.now (members_view members.entries) }
{
    members.remove(name)
}
