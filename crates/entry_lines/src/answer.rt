ghost use Rattle.std.specs.Prelude.{◌≡◌, ◌≤◌, [], ◌∷◌, false, IfOk, IsAscii};
ghost use Rattle.std.specs.Str.{encode_utf8_all};
ghost use Rattle.json_rpc.specs.Refusal.{code_of, message_of};
ghost use Rattle.json_rpc.specs.Request.{IsWireId};
ghost use Rattle.json_rpc.specs.Response.{error_data};
ghost use Rattle.serde_json.specs.Data.{depth};
ghost use Rattle.serde_json.specs.Written.{has_float};
ghost use Rattle.serde_json.specs.View.{view};
ghost use Rattle.entry_lines.specs.Answer.{reply_of, answers, refusal, named_refusal, refused_by, result_messages};
ghost use Rattle.entry_lines.specs.Piece.{AreLinesOf};

use crate::reply::{FrontReply, SPENT};
use json_rpc::{code_of, message_of, text_value, write_error, write_reply};
use plain_text::{NoMemory, Text};
use serde_json::Value;
use std::alloc::Global;
use view_update::write_alert;
use xi_plain::{Fault, Id};

/// The number of the refusal of what the shelf could not do.
const SHELF: i64 = 1;

/// The number of the refusal of a file that is no text.
const NOT_TEXT: i64 = 2;

/// The lines that answer an entry.
pub fn answer_lines(alloc: Global, id: &Id, reply: &FrontReply) -> Result<Text, NoMemory>
    requires { IsWireId id.now }
    ensures { IfOk result (λ text. AreLinesOf (answers id.now (reply_of reply.now)) (encode_utf8_all text)) }
{
    match reply {
        FrontReply::Opened(view) => result_line(alloc, id, text_value(alloc, view)?),
        FrontReply::Accepted => result_line(alloc, id, Value::Null),
        FrontReply::Copied(text) => result_line(alloc, id, text_value(alloc, text)?),
        FrontReply::Refused(fault) => refusal(alloc, id, fault),
        FrontReply::ShelfFailed => refused_as(alloc, id, SHELF, "shelf"),
        FrontReply::NotText => refused_as(alloc, id, NOT_TEXT, "not text"),
        FrontReply::Spent => refused_as(alloc, id, SPENT, "spent"),
        FrontReply::Alert(message) => write_alert(alloc, message),
        FrontReply::Silent => Ok(Text::new(alloc)),
    }
}

fn result_line(alloc: Global, id: &Id, value: Value) -> Result<Text, NoMemory>
    requires id_fits { IsWireId id.now }
    requires no_float { has_float (view value) ≡ false }
    requires shallow { depth (view value) ≤ 126 }
    ensures { IfOk result (λ text. AreLinesOf (result_messages id.now (view value)) (encode_utf8_all text)) }
{
    match id {
        Id::NoId => Ok(Text::new(alloc)),
        _ => write_reply(alloc, id, value),
    }
}

fn refusal(alloc: Global, id: &Id, fault: &Fault) -> Result<Text, NoMemory>
    requires { IsWireId id.now }
    ensures { IfOk result (λ text. AreLinesOf (refusal id.now fault.now ∷ []) (encode_utf8_all text)) }
{
    match fault {
        Fault::Parse | Fault::Invalid => error_line(alloc, &Id::NoId, fault),
        _ => named_refusal(alloc, id, fault),
    }
}

fn named_refusal(alloc: Global, id: &Id, fault: &Fault) -> Result<Text, NoMemory>
    requires { IsWireId id.now }
    ensures { IfOk result (λ text. AreLinesOf (named_refusal id.now fault.now ∷ []) (encode_utf8_all text)) }
{
    refused_by(alloc, id, code_of(fault), &message_of(alloc, fault)?)
}

/// A refusal whose message is of ASCII.
fn refused_as(alloc: Global, id: &Id, code: i64, message: &str) -> Result<Text, NoMemory>
    requires id_fits { IsWireId id.now }
    requires ascii { IsAscii message.now }
    ensures { IfOk result (λ line. AreLinesOf (refused_by id.now code message.now ∷ []) (encode_utf8_all line)) }
{
    refused_by(alloc, id, code, &Text::from_ascii(alloc, message)?)
}

fn refused_by(alloc: Global, id: &Id, code: i64, message: &Text) -> Result<Text, NoMemory>
    requires { IsWireId id.now }
    ensures { IfOk result (λ line. AreLinesOf (refused_by id.now code message.now ∷ []) (encode_utf8_all line)) }
{
    match id {
        Id::NoId => write_alert(alloc, message),
        _ => write_error(alloc, id, code, message),
    }
}

fn error_line(alloc: Global, id: &Id, fault: &Fault) -> Result<Text, NoMemory>
    requires { IsWireId id.now }
    ensures { IfOk result (λ text.
        AreLinesOf (error_data id.now (code_of fault.now) (message_of fault.now) ∷ []) (encode_utf8_all text)) }
{
    write_error(alloc, id, code_of(fault), &message_of(alloc, fault)?)
}
