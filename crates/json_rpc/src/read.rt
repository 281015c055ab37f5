ghost use Rattle.std.specs.Prelude.{◌≡◌, ◌≢◌, ◌↔◌, List, ℕ, Some, None, Ok, Err, IfOk, IfErr, IfSome, option_map, option_and_then};
ghost use Rattle.std.specs.Str.{chars};
ghost use Rattle.serde_json.specs.Data.{object};
ghost use Rattle.serde_json.specs.Errors.{IsMemory};
ghost use Rattle.serde_json.specs.Find.{get_member, as_str};
ghost use Rattle.serde_json.specs.View.{view, number_view, members_view};
ghost use Rattle.json_rpc.specs.Fault.{fault_refusal};
ghost use Rattle.json_rpc.specs.Line.{without_lf};
ghost use Rattle.json_rpc.specs.Request.{request, request_of, request_from, no_request, or_refusal, line_request, member_id, number_id, IsWireId, IsAsked};

use crate::fault::RpcFault;
use crate::rpc::Rpc;
use plain_text::Text;
use serde_json::{Error, Map, Number, Value};
use std::alloc::Global;
use xi_plain::Id;

const LINE_FEED: u8 = b'\n';

/// The request that a line is, with or without its LF, or why it is none. A numeric id is from -2^63 to 2^64 - 1, and members other
/// than `id`, `method` and `params` are passed over. The cost is linear in the line: a text is copied out of it once, without its
/// escapes, and then moved.
pub fn read_line(alloc: Global, line: &[u8]) -> Result<Rpc, RpcFault>
    ensures asks { IfOk result (λ rpc. line_request line.now ≡ Ok (request rpc)) }
    ensures refused { IfErr result (λ fault. IfSome (fault_refusal fault)
        (λ refusal. line_request line.now ≡ Err refusal)) }
    ensures id_fits { IfOk result (λ rpc. IsWireId rpc.id) }
    ensures asked { IfOk result (λ rpc. IsAsked (request rpc)) }
{
    let value = value_in(alloc, line)?;
    request_in(value).ok_or(RpcFault::Invalid)
}

#[tactic(auto, unfolding(crate::specs::Line::without_lf))]
fn without_lf(line: &[u8]) -> &[u8]
    ensures { result.now ≡ without_lf line.now }
{
    match line.split_last() {
        Some((last, rest)) if *last == LINE_FEED => rest,
        _ => line,
    }
}

fn value_in(alloc: Global, line: &[u8]) -> Result<Value, RpcFault>
    ensures ok { IfOk result (λ value. line_request line.now
        ≡ or_refusal no_request (request_of (view value))) }
    ensures refused { IfErr result (λ fault. IfSome (fault_refusal fault)
        (λ refusal. line_request line.now ≡ Err refusal)) }
{
    match Value::from_slice(alloc, without_lf(line)) {
        Ok(value) => Ok(value),
        Err(error) => Err(fault_of(&error)),
    }
}

fn fault_of(error: &Error) -> RpcFault
    ensures memory { (result ≡ RpcFault.NoMemory) ↔ IsMemory error.now }
    ensures parse { (result ≡ RpcFault.Parse) ↔ (¬ IsMemory error.now) }
{
    if error.is_memory() {
        RpcFault::NoMemory
    } else {
        RpcFault::Parse
    }
}

#[tactic(auto, unfolding(crate::specs::Request::request_of))]
fn request_in(value: Value) -> Option<Rpc>
    ensures { option_map request result ≡ request_of (view value) }
{
    match value {
        Value::Object(members) => request_of_members(members),
        _ => None,
    }
}

fn request_of_members(mut members: Map<String, Value>) -> Option<Rpc>
    ensures { option_map request result
        ≡ request_of (object (members_view members.entries)) }
{
    let id = taken(&mut members, "id");
    let method = taken(&mut members, "method");
    let params = taken(&mut members, "params");
    request_from(id, method, params)
}

fn request_from(id: Option<Value>, method: Option<Value>, params: Option<Value>) -> Option<Rpc>
    ensures { option_map request result
        ≡ request_from (option_map view id) (option_map view method) (option_map view params) }
{
    let method = text_of(method)?;
    let id = id_of(id)?;
    let params = params.unwrap_or(Value::Null);
    Some(Rpc { id, method, params })
}

fn taken(members: &mut Map<String, Value>, name: &str) -> Option<Value>
    ensures value { option_map view result
        ≡ get_member name.now (members_view members.old.entries) }
    ensures others { (other : List ℕ) → other ≢ name.now
        → get_member other (members_view members.new.entries)
        ≡ get_member other (members_view members.old.entries) }
{
    members.remove(name)
}

fn id_of(member: Option<Value>) -> Option<Id>
    ensures { result ≡ member_id (option_map view member) }
{
    match member {
        None => Some(Id::NoId),
        Some(Value::Number(number)) => number_id(number),
        Some(Value::String(text)) => Some(Id::Word(Text::from_string(text))),
        Some(_) => None,
    }
}

fn number_id(number: Number) -> Option<Id>
    ensures { result ≡ number_id (number_view number) }
{
    if let Some(n) = number.as_u64() {
        return Some(Id::Num(i128::from(n)));
    }
    Some(Id::Num(i128::from(number.as_i64()?)))
}

fn text_of(member: Option<Value>) -> Option<Text>
    ensures { result ≡ option_map chars (option_and_then as_str (option_map view member)) }
{
    match member {
        Some(Value::String(text)) => Some(Text::from_string(text)),
        _ => None,
    }
}
