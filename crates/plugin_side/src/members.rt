ghost use Rattle.std.specs.Prelude.{◌≡◌, ◌^◌, OnOk, option_map};
ghost use Rattle.serde_json.specs.View.{view, members_view};
ghost use Rattle.plugin_wire.specs.Told.{whole_data};
ghost use Rattle.plugin_side.specs.Inner.{with_if};
ghost use Rattle.plugin_side.specs.Range.{IsUnder};

use plain_text::NoMemory;
use serde_json::{Map, Value, put};
use std::alloc::Global;

/// Puts a member of this name among the others, where there is a value for it.
pub fn put_if(
    alloc: Global,
    members: &mut Map<String, Value>,
    name: &str,
    value: Option<Value>,
) -> Result<(), NoMemory>
    ensures { OnOk result (members_view members.new.entries
        ≡ with_if name.now (option_map view value) (members_view members.old.entries)) }
{
    match value {
        Some(value) => Ok(put(members, alloc, name, value)?),
        None => Ok(()),
    }
}

/// The value of a number, where there is one.
pub fn whole_if(n: Option<u64>) -> Option<Value>
    ensures value { option_map view result ≡ option_map whole_data n }
    ensures held { IsUnder (2 ^ 64) n }
{
    match n {
        Some(n) => Some(Value::from(n)),
        None => None,
    }
}
