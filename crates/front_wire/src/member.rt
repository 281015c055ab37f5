ghost use Rattle.std.specs.Prelude.{◌≡◌, ◌≤◌, ◌^◌, IfSome, option_map};
ghost use Rattle.std.specs.Str.{chars};
ghost use Rattle.std.specs.String.{string_bytes};
ghost use Rattle.serde_json.specs.Find.{at, get};
ghost use Rattle.serde_json.specs.View.{view, number_view};
ghost use Rattle.case_front.specs.Members.{plain_member};
ghost use Rattle.front_wire.specs.Members.{found, is_item, whole_number, whole_of, touch_named, touch_of, is_of, may_be, is_right, is_given, is_true, text_if_any};
ghost use Rattle.front_wire.specs.Fair.{IsText, IsTextIfAny};

use case_front::{Kind, Member};
use plain_text::Text;
use serde_json::{Number, Value};
use xi_plain::Touch;

/// The greatest whole number that a front end may send, on either side of 0.
const MOST: i64 = 1 << 40;

/// What stands there for a member, by its name and its place among the members.
pub fn found(params: &Value, member: Member, place: usize) -> Option<&Value>
    ensures { option_map (λ v. view v.now) result ≡ found (plain_member member) place (view params.now) }
{
    if is_item(member.name) {
        params.get(place)
    } else {
        params.get(member.name)
    }
}

/// The same, moved out.
pub fn taken(params: &mut Value, member: Member, place: usize) -> Option<Value>
    ensures { option_map view result ≡ found (plain_member member) place (view params.old) }
{
    if is_item(member.name) {
        item_out(params, place)
    } else {
        member_out(params, member.name)
    }
}

fn item_out(params: &mut Value, place: usize) -> Option<Value>
    ensures { option_map view result ≡ at place (view params.old) }
{
    let item = params.get_mut(place)?;
    Some(item.take())
}

fn member_out(params: &mut Value, name: &str) -> Option<Value>
    ensures { option_map view result ≡ get name.now (view params.old) }
{
    let member = params.get_mut(name)?;
    Some(member.take())
}

fn is_item(name: &str) -> bool
    ensures { result ≡ is_item name.now }
{
    match name.as_bytes() {
        [first, ..] => 48 <= *first && *first <= 57,
        [] => false,
    }
}

/// Whether what stands there for a member is right.
pub fn is_given(member: Member, value: Option<&Value>) -> bool
    ensures { result ≡ is_given (plain_member member) (option_map (λ v. view v.now) value.entry) }
{
    match value {
        Some(value) => is_right(member, value),
        None => member.optional,
    }
}

fn is_right(member: Member, value: &Value) -> bool
    ensures { result ≡ is_right (plain_member member) (view value.now) }
{
    (member.optional && value.is_null())
        || (is_of(member.kind, value) && may_be(member.name, value))
}

fn is_of(kind: Kind, value: &Value) -> bool
    ensures { result ≡ is_of kind (view value.now) }
{
    match kind {
        Kind::Word => value.is_string(),
        Kind::Whole => whole_of(value).is_some(),
        Kind::Truth => value.is_boolean(),
        Kind::Object => value.is_object(),
        Kind::Any => true,
    }
}

fn may_be(name: &str, value: &Value) -> bool
    ensures { result ≡ may_be name.now (view value.now) }
{
    match name {
        "ty" => touch_of(value).is_some(),
        "regex" | "whole_words" => !is_true(value.as_bool()),
        _ => true,
    }
}

fn is_true(value: Option<bool>) -> bool
    ensures { result ≡ is_true value }
{
    value.unwrap_or(false)
}

/// The number that a whole one counts as.
pub fn whole_of(value: &Value) -> Option<u64>
    ensures number { result ≡ whole_of (view value.now) }
    ensures range { IfSome result (λ n. n ≤ 2 ^ 40) }
{
    match value.as_number() {
        Some(number) => whole_number(number),
        None => None,
    }
}

fn whole_number(number: &Number) -> Option<u64>
    ensures number { result ≡ whole_number (number_view number.now) }
    ensures range { IfSome result (λ n. n ≤ 2 ^ 40) }
{
    if let Some(n) = number.as_u64() {
        return if n <= MOST as u64 { Some(n) } else { None };
    }
    match number.as_i64() {
        Some(n) if n >= -MOST => Some(0),
        _ => None,
    }
}

/// Where a gesture touches, by its name.
pub fn touch_of(value: &Value) -> Option<Touch>
    ensures { result ≡ touch_of (view value.now) }
{
    match value.as_str() {
        Some(name) => touch_named(name),
        None => None,
    }
}

fn touch_named(name: &str) -> Option<Touch>
    ensures { result ≡ touch_named name.now }
{
    match name {
        "point_select" => Some(Touch::Point),
        "toggle_sel" => Some(Touch::Toggle),
        "range_select" => Some(Touch::Range),
        "word_select" => Some(Touch::Word),
        "line_select" => Some(Touch::Line),
        _ => None,
    }
}

/// The text that a value is, moved out.
pub fn text_of(value: Option<Value>) -> Option<Text>
    ensures text { result ≡ text_if_any (option_map view value) }
    ensures scalars { IsTextIfAny result }
{
    match value {
        Some(Value::String(text)) => Some(moved(text)),
        _ => None,
    }
}

fn moved(text: String) -> Text
    ensures value { result ≡ chars (string_bytes text) }
    ensures scalars { IsText result }
{
    let text = Text::from_string(text);
    let _scalars = text.as_str();
    text
}
