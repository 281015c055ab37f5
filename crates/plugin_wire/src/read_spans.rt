ghost use Rattle.std.specs.Prelude.{◌≡◌, ◌^◌, IfOk, codes, option_map, option_and_then};
ghost use Rattle.serde_json.specs.Find.{get};
ghost use Rattle.serde_json.specs.View.{view, items_view};
ghost use Rattle.plugin_wire.specs.Shapes.{whole_shape, member_shape, optional_shape, each_shape, style_from, style_members, style_shape, span_from, span_shape, spans_shape};

use crate::values::{given, optional_short_whole, optional_truth, whole_at};
use plain_text::{List, NoMemory};
use serde_json::Value;
use std::alloc::Global;
use xi_plain::{Style, WireSpan, WireSpans};

const MOST_WEIGHT: u64 = 1_000;

/// The spans within `len` bytes that a member is.
pub fn spans_of(
    alloc: Global,
    len: u64,
    member: Option<&Value>,
) -> Result<Option<WireSpans>, NoMemory>
    ensures { IfOk result (λ spans. spans
        ≡ option_and_then (spans_shape len) (option_map (λ v. view v.now) member.entry)) }
{
    match member.and_then(Value::as_array) {
        Some(items) => spans_in(alloc, len, items.as_slice()),
        None => Ok(None),
    }
}

fn spans_in(alloc: Global, len: u64, items: &[Value]) -> Result<Option<WireSpans>, NoMemory>
    ensures { IfOk result (λ spans. spans ≡ each_shape (span_shape len) (items_view items.now)) }
{
    let mut spans = Vec::with_capacity(alloc, items.len())?;
    for item in items {
        let Some(span) = span(len, item) else {
            return Ok(None);
        };
        spans.push(span)?;
    }
    Ok(Some(List::from_vec(spans)))
}

fn span(len: u64, value: &Value) -> Option<WireSpan>
    ensures { result ≡ span_shape len (view value.now) }
{
    let start = whole_at(value, "start");
    let end = whole_at(value, "end");
    let style = style_at(value);
    span_from(len, start, end, style)
}

fn span_from(
    len: u64,
    start: Option<u64>,
    end: Option<u64>,
    style: Option<Style>,
) -> Option<WireSpan>
    ensures { result ≡ span_from len start end style }
{
    let start = start?;
    let end = end?;
    let style = style?;
    if start <= end && end <= len {
        Some(WireSpan { start, end, style })
    } else {
        None
    }
}

fn style_at(value: &Value) -> Option<Style>
    ensures { result ≡ member_shape style_shape (codes "style") (view value.now) }
{
    match value.get("style") {
        Some(member) => style(member),
        None => None,
    }
}

fn style(value: &Value) -> Option<Style>
    ensures { result ≡ style_shape (view value.now) }
{
    if value.is_object() {
        style_members(value)
    } else {
        None
    }
}

fn style_members(value: &Value) -> Option<Style>
    ensures { result ≡ style_members (view value.now) }
{
    let fg_color = optional_short_whole(value.get("fg_color"));
    let bg_color = optional_short_whole(value.get("bg_color"));
    let weight = optional_weight(value.get("weight"));
    let italic = optional_truth(value.get("italic"));
    let underline = optional_truth(value.get("underline"));
    style_from(fg_color, bg_color, weight, italic, underline)
}

fn style_from(
    fg_color: Option<Option<u32>>,
    bg_color: Option<Option<u32>>,
    weight: Option<Option<u32>>,
    italic: Option<Option<bool>>,
    underline: Option<Option<bool>>,
) -> Option<Style>
    ensures { result ≡ style_from fg_color bg_color weight italic underline }
{
    Some(Style {
        fg_color: fg_color?,
        bg_color: bg_color?,
        weight: weight?,
        italic: italic?,
        underline: underline?,
    })
}

fn optional_weight(member: Option<&Value>) -> Option<Option<u32>>
    ensures { result ≡ optional_shape (whole_shape 1001) (option_map (λ v. view v.now) member.entry) }
{
    match given(member) {
        Some(value) => Some(Some(weight(value)?)),
        None => Some(None),
    }
}

fn weight(value: &Value) -> Option<u32>
    ensures { result ≡ whole_shape 1001 (view value.now) }
{
    let n = value.as_u64()?;
    if n <= MOST_WEIGHT {
        Some(n as u32)
    } else {
        None
    }
}
