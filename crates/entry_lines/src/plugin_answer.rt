ghost use Rattle.std.specs.Prelude.{◌≡◌, ◌≤◌, false, IfOk};
ghost use Rattle.std.specs.Str.{encode_utf8_all};
ghost use Rattle.json_rpc.specs.Request.{IsWireId};
ghost use Rattle.json_rpc.specs.Response.{error_data};
ghost use Rattle.serde_json.specs.Data.{depth};
ghost use Rattle.serde_json.specs.Written.{has_float};
ghost use Rattle.serde_json.specs.View.{view};
ghost use Rattle.plain_edits.specs.Edits.{misfit};
ghost use Rattle.entry_lines.specs.PluginAnswer.{IsAnswerText, IsTextOf, chunk_data, edited_data, plugin_answer, refusal_text, result_answer, verdict_of};

use crate::cut::without_lf;
use crate::numbered::numbered;
use crate::reply::{PluginReply, SPENT};
use json_rpc::{code_of, message_of, pair, text_value, write_error, write_reply};
use plain_edits::Misfit;
use plain_text::{NoMemory, Text};
use serde_json::Value;
use std::alloc::Global;
use xi_plain::Id;

/// The number of the refusal of a revision above the head.
const UNKNOWN: i64 = 4;

/// The number of the refusal of a revision below the floor.
const COLLECTED: i64 = 5;

/// The number of the refusal of a delta that does not fit.
const MISFIT: i64 = 6;

/// The line, without its LF, that answers a plugin's line of this id; empty where that has no id and was taken. The cost is that of the
/// line: the text of a chunk is copied once, and walked once for its escapes.
pub fn answer_of(alloc: Global, id: &Id, reply: &PluginReply) -> Result<Text, NoMemory>
    requires { IsWireId id.now }
    ensures { IfOk result (λ text. IsAnswerText (plugin_answer id.now (verdict_of reply.now)) (encode_utf8_all text)) }
{
    match reply {
        PluginReply::Null => result_text(alloc, id, Value::Null),
        PluginReply::Edited { rev, group } => {
            result_text(alloc, id, edited_value(alloc, *rev, *group)?)
        }
        PluginReply::Chunk { text, offset } => {
            result_text(alloc, id, chunk_value(alloc, text, *offset)?)
        }
        PluginReply::Lines(n) => result_text(alloc, id, Value::from(*n)),
        PluginReply::Refused(fault) => {
            error_text(alloc, id, code_of(fault), &message_of(alloc, fault)?)
        }
        PluginReply::Spent(_) => error_text(alloc, id, SPENT, &Text::from_ascii(alloc, "spent")?),
        PluginReply::Unknown(head) => {
            error_text(
                alloc,
                id,
                UNKNOWN,
                &numbered(alloc, "unknown revision: ", *head)?,
            )
        }
        PluginReply::Collected(floor) => {
            error_text(
                alloc,
                id,
                COLLECTED,
                &numbered(alloc, "collected revision: ", *floor)?,
            )
        }
        PluginReply::Misfit(first) => {
            error_text(alloc, id, MISFIT, &misfit_text(alloc, *first)?)
        }
    }
}

fn result_text(alloc: Global, id: &Id, value: Value) -> Result<Text, NoMemory>
    requires id_fits { IsWireId id.now }
    requires no_float { has_float (view value) ≡ false }
    requires shallow { depth (view value) ≤ 126 }
    ensures { IfOk result (λ text. IsAnswerText (result_answer id.now (view value)) (encode_utf8_all text)) }
{
    match id {
        Id::NoId => Ok(Text::new(alloc)),
        _ => Ok(without_lf(write_reply(alloc, id, value)?)),
    }
}

fn error_text(alloc: Global, id: &Id, code: i64, message: &Text) -> Result<Text, NoMemory>
    requires { IsWireId id.now }
    ensures { IfOk result (λ text. IsTextOf (error_data id.now code message.now) (encode_utf8_all text)) }
{
    Ok(without_lf(write_error(alloc, id, code, message)?))
}

fn edited_value(alloc: Global, rev: u64, group: u64) -> Result<Value, NoMemory>
    ensures { IfOk result (λ value. view value ≡ edited_data rev group) }
{
    pair(
        alloc,
        "rev",
        Value::from(rev),
        "undo_group",
        Value::from(group),
    )
}

fn chunk_value(alloc: Global, text: &Text, offset: u64) -> Result<Value, NoMemory>
    ensures { IfOk result (λ value. view value ≡ chunk_data text.now offset) }
{
    pair(
        alloc,
        "chunk",
        text_value(alloc, text)?,
        "offset",
        Value::from(offset),
    )
}

fn misfit_text(alloc: Global, first: Misfit) -> Result<Text, NoMemory>
    ensures { IfOk result (λ text. text ≡ refusal_text (misfit first)) }
{
    let mut text = numbered(alloc, "misfit ", u64::from(first.kind))?;
    text.push_text(&numbered(alloc, " at ", first.at)?)?;
    Ok(text)
}
