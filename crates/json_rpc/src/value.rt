ghost use Rattle.std.specs.Prelude.{◌≡◌, true, IfOk};
ghost use Rattle.std.specs.Str.{all_scalars};
ghost use Rattle.std.specs.Ordering.{nat_cmp};
ghost use Rattle.std.specs.Cmp.Lexicographic.{slice_cmp};
ghost use Rattle.std.specs.declared.cmp.Ordering.TheVariants.{Less};
ghost use Rattle.serde_json.specs.View.{view};
ghost use Rattle.json_rpc.specs.Response.{text_data, pair_data};

use plain_text::{NoMemory, Text};
use serde_json::{Map, Value, put};
use std::alloc::Global;

/// The object of two members, the first of which has the lesser name in bytes.
pub fn pair(
    alloc: Global,
    name: &str,
    value: Value,
    later_name: &str,
    later: Value,
) -> Result<Value, NoMemory>
    requires { slice_cmp nat_cmp name.now later_name.now ≡ Less }
    ensures { IfOk result (λ made. view made
        ≡ pair_data name.now (view value) later_name.now (view later)) }
{
    let mut members = Map::new(alloc);
    put(&mut members, alloc, later_name, later)?;
    put(&mut members, alloc, name, value)?;
    Ok(Value::Object(members))
}

/// The value that is a text.
pub fn text_value(alloc: Global, text: &Text) -> Result<Value, NoMemory>
    ensures value { IfOk result (λ value. view value ≡ text_data text.now) }
    ensures characters { IfOk result (λ _. all_scalars text.now ≡ true) }
{
    Ok(Value::try_from_str(alloc, text.as_str())?)
}
