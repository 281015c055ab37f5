ghost use Rattle.std.specs.Prelude.{◌≡◌, ◌^◌, IfOk, map, option_map};
ghost use Rattle.std.specs.List.{AllByRecursion};
ghost use Rattle.serde_json.specs.Data.{boolean};
ghost use Rattle.serde_json.specs.View.{view};
ghost use Rattle.plugin_wire.specs.Told.{whole_data};
ghost use Rattle.plugin_side.specs.Asking.{style_data, span_data, spans_data};
ghost use Rattle.plugin_side.specs.Range.{IsUnder, IsHeldStyle, IsHeldSpan};

use crate::members::put_if;
use plain_text::NoMemory;
use serde_json::{Map, Value, put};
use std::alloc::Global;
use xi_plain::{Style, WireSpan};

/// The value of JSON that is a list of spans.
pub fn spans_value(alloc: Global, spans: &[WireSpan]) -> Result<Value, NoMemory>
    ensures value { IfOk result (λ value. view value ≡ spans_data spans.now) }
    ensures held { IfOk result (λ _. AllByRecursion IsHeldSpan spans.now) }
{
    let mut made = Vec::with_capacity(alloc, spans.len())?;
    for span in spans {
        made.push(span_value(alloc, span)?)?;
    }
    Ok(Value::Array(made))
}

fn span_value(alloc: Global, span: &WireSpan) -> Result<Value, NoMemory>
    ensures value { IfOk result (λ value. view value ≡ span_data span.now) }
    ensures held { IfOk result (λ _. IsHeldSpan span.now) }
{
    let mut members = Map::new(alloc);
    put(
        &mut members,
        alloc,
        "style",
        style_value(alloc, &span.style)?,
    )?;
    put(&mut members, alloc, "start", Value::from(span.start))?;
    put(&mut members, alloc, "end", Value::from(span.end))?;
    Ok(Value::Object(members))
}

fn style_value(alloc: Global, style: &Style) -> Result<Value, NoMemory>
    ensures value { IfOk result (λ value. view value ≡ style_data style.now) }
    ensures held { IfOk result (λ _. IsHeldStyle style.now) }
{
    let mut members = Map::new(alloc);
    put_if(alloc, &mut members, "weight", count_if(style.weight))?;
    put_if(alloc, &mut members, "underline", truth_if(style.underline))?;
    put_if(alloc, &mut members, "italic", truth_if(style.italic))?;
    put_if(alloc, &mut members, "fg_color", count_if(style.fg_color))?;
    put_if(alloc, &mut members, "bg_color", count_if(style.bg_color))?;
    Ok(Value::Object(members))
}

fn count_if(n: Option<u32>) -> Option<Value>
    ensures value { option_map view result ≡ option_map whole_data n }
    ensures held { IsUnder (2 ^ 32) n }
{
    match n {
        Some(n) => Some(Value::from(n)),
        None => None,
    }
}

fn truth_if(truth: Option<bool>) -> Option<Value>
    ensures { option_map view result ≡ option_map boolean truth }
{
    match truth {
        Some(truth) => Some(Value::from(truth)),
        None => None,
    }
}
