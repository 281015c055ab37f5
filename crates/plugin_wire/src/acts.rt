ghost use Rattle.std.specs.Prelude.{◌≡◌, IfOk};
ghost use Rattle.serde_json.specs.View.{view};
ghost use Rattle.plugin_wire.specs.Asked.{text_member, whole_member, priority_member, caret_member, group_member, delta_member, spans_member, plugin_edit_from, edit_ask, data_from, data_ask, spans_from, spans_ask, count_ask, alert_ask, ack_from, ack_ask, method_ask, or_bad_params, plugin_act};

use crate::member::Member;
use crate::method::{Method, method_named};
use crate::read_delta::delta_of;
use crate::read_spans::spans_of;
use crate::values::{optional_whole, short_whole, taken, text_at, text_of, whole_at};
use plain_text::{NoMemory, Text};
use serde_json::Value;
use std::alloc::Global;
use xi_plain::{Act, Delta, Fault, WireSpans};

/// What a method asks, or the first member that is missing or of another shape.
type Asked = Result<Act, Member>;

/// What a name asks with its parameters.
pub fn plugin_act(alloc: Global, name: Text, params: Value) -> Result<Act, NoMemory>
    ensures { IfOk result (λ act. act ≡ plugin_act name (view params)) }
{
    match method_named(name.as_str()) {
        Some(method) => or_bad_params(alloc, method_ask(alloc, method, params)?),
        None => Ok(Act::Bad(Fault::NoMethod(name))),
    }
}

fn or_bad_params(alloc: Global, asked: Asked) -> Result<Act, NoMemory>
    ensures { IfOk result (λ act. act ≡ or_bad_params asked) }
{
    match asked {
        Ok(act) => Ok(act),
        Err(member) => Ok(Act::Bad(Fault::BadParams(Text::from_ascii(alloc, member.name())?))),
    }
}

fn method_ask(alloc: Global, method: Method, params: Value) -> Result<Asked, NoMemory>
    ensures { IfOk result (λ asked. asked ≡ method_ask (method) (view params)) }
{
    match method {
        Method::Ack => ack_ask(alloc, &params),
        Method::Alert => Ok(alert_ask(params)),
        Method::Edit => edit_ask(alloc, params),
        Method::GetData => data_ask(alloc, &params),
        Method::LineCount => count_ask(alloc, &params),
        Method::UpdateSpans => spans_ask(alloc, &params),
    }
}

fn edit_ask(alloc: Global, params: Value) -> Result<Asked, NoMemory>
    ensures { IfOk result (λ asked. asked ≡ edit_ask (view params)) }
{
    let view = text_member(alloc, &params, Member::ViewId)?;
    let rev = whole_member(&params, Member::Rev);
    let priority = priority_member(&params);
    let after_cursor = caret_member(&params);
    let author = text_member(alloc, &params, Member::Author)?;
    let named = group_member(&params);
    let delta = delta_member(alloc, params)?;
    Ok(plugin_edit_from(view, rev, delta, priority, after_cursor, author, named))
}

fn plugin_edit_from(
    view: Option<Text>,
    rev: Option<u64>,
    delta: Option<Delta>,
    priority: Option<u32>,
    after_cursor: Option<bool>,
    author: Option<Text>,
    named: Option<Option<u64>>,
) -> Asked
    ensures { result ≡ plugin_edit_from view rev delta priority after_cursor author named }
{
    Ok(Act::PluginEdit {
        view: view.ok_or(Member::ViewId)?,
        rev: rev.ok_or(Member::Rev)?,
        delta: delta.ok_or(Member::Delta)?,
        priority: priority.ok_or(Member::Priority)?,
        after_cursor: after_cursor.ok_or(Member::AfterCursor)?,
        author: author.ok_or(Member::Author)?,
        named: named.ok_or(Member::UndoGroup)?,
    })
}

fn data_ask(alloc: Global, params: &Value) -> Result<Asked, NoMemory>
    ensures { IfOk result (λ asked. asked ≡ data_ask (view params.now)) }
{
    let view = text_member(alloc, params, Member::ViewId)?;
    let rev = whole_member(params, Member::Rev);
    let start = whole_member(params, Member::Start);
    let max = whole_member(params, Member::MaxSize);
    Ok(data_from(view, rev, start, max))
}

fn data_from(view: Option<Text>, rev: Option<u64>, start: Option<u64>, max: Option<u64>) -> Asked
    ensures { result ≡ data_from view rev start max }
{
    Ok(Act::GetData {
        view: view.ok_or(Member::ViewId)?,
        rev: rev.ok_or(Member::Rev)?,
        start: start.ok_or(Member::Start)?,
        max: max.ok_or(Member::MaxSize)?,
    })
}

fn spans_ask(alloc: Global, params: &Value) -> Result<Asked, NoMemory>
    ensures { IfOk result (λ asked. asked ≡ spans_ask (view params.now)) }
{
    let view = text_member(alloc, params, Member::ViewId)?;
    let rev = whole_member(params, Member::Rev);
    let start = whole_member(params, Member::Start);
    let len = whole_member(params, Member::Len);
    let spans = spans_member(alloc, len, params)?;
    Ok(spans_from(view, rev, start, len, spans))
}

fn spans_from(
    view: Option<Text>,
    rev: Option<u64>,
    start: Option<u64>,
    len: Option<u64>,
    spans: Option<WireSpans>,
) -> Asked
    ensures { result ≡ spans_from view rev start len spans }
{
    Ok(Act::UpdateSpans {
        view: view.ok_or(Member::ViewId)?,
        rev: rev.ok_or(Member::Rev)?,
        start: start.ok_or(Member::Start)?,
        len: len.ok_or(Member::Len)?,
        spans: spans.ok_or(Member::Spans)?,
    })
}

fn count_ask(alloc: Global, params: &Value) -> Result<Asked, NoMemory>
    ensures { IfOk result (λ asked. asked ≡ count_ask (view params.now)) }
{
    match text_member(alloc, params, Member::ViewId)? {
        Some(view) => Ok(Ok(Act::LineCount { view })),
        None => Ok(Err(Member::ViewId)),
    }
}

fn alert_ask(params: Value) -> Asked
    ensures { result ≡ alert_ask (view params) }
{
    match text_of(taken(params, Member::Msg.name())) {
        Some(msg) => Ok(Act::Alert { msg }),
        None => Err(Member::Msg),
    }
}

fn ack_ask(alloc: Global, params: &Value) -> Result<Asked, NoMemory>
    ensures { IfOk result (λ asked. asked ≡ ack_ask (view params.now)) }
{
    let view = text_member(alloc, params, Member::ViewId)?;
    let rev = whole_member(params, Member::Rev);
    Ok(ack_from(view, rev))
}

fn ack_from(view: Option<Text>, rev: Option<u64>) -> Asked
    ensures { result ≡ ack_from view rev }
{
    Ok(Act::Ack {
        view: view.ok_or(Member::ViewId)?,
        rev: rev.ok_or(Member::Rev)?,
    })
}

fn text_member(alloc: Global, params: &Value, member: Member) -> Result<Option<Text>, NoMemory>
    ensures { IfOk result (λ text. text ≡ text_member member (view params.now)) }
{
    text_at(alloc, params, member.name())
}

fn whole_member(params: &Value, member: Member) -> Option<u64>
    ensures { result ≡ whole_member member (view params.now) }
{
    whole_at(params, member.name())
}

fn priority_member(params: &Value) -> Option<u32>
    ensures { result ≡ priority_member (view params.now) }
{
    match params.get(Member::Priority.name()) {
        Some(value) => short_whole(value),
        None => None,
    }
}

fn caret_member(params: &Value) -> Option<bool>
    ensures { result ≡ caret_member (view params.now) }
{
    params
        .get(Member::AfterCursor.name())
        .and_then(Value::as_bool)
}

fn group_member(params: &Value) -> Option<Option<u64>>
    ensures { result ≡ group_member (view params.now) }
{
    optional_whole(params.get(Member::UndoGroup.name()))
}

fn delta_member(alloc: Global, params: Value) -> Result<Option<Delta>, NoMemory>
    ensures { IfOk result (λ delta. delta ≡ delta_member (view params)) }
{
    delta_of(alloc, taken(params, Member::Delta.name()))
}

fn spans_member(
    alloc: Global,
    len: Option<u64>,
    params: &Value,
) -> Result<Option<WireSpans>, NoMemory>
    ensures { IfOk result (λ spans. spans ≡ spans_member len (view params.now)) }
{
    match len {
        Some(len) => spans_of(alloc, len, params.get(Member::Spans.name())),
        None => Ok(None),
    }
}
