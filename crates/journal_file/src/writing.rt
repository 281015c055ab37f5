ghost use Rattle.std.specs.Prelude.{◌≡◌, ◌<◌, ◌^◌, ◌↔◌, ℕ, false, length, map, slice_get, Some, Err, IfOk, IfSome, IsSome, IsTrue};
ghost use Rattle.std.specs.Str.{encode_utf8_all};
ghost use Rattle.serde_json.specs.Data.{member, no_members, object, string};
ghost use Rattle.serde_json.specs.View.{view};
ghost use Rattle.serde_json.specs.Written.{has_float};
ghost use Rattle.json_rpc.specs.Line.{line_of};
ghost use Rattle.plugin_side.specs.Asking.{IsAsk};
ghost use Rattle.plugin_wire.specs.Asked.{ask_of};
ghost use Rattle.xi_plain.specs.declared.entry.Entry.{Entry};
ghost use Rattle.xi_plain.specs.declared.entry.ShelfNote.TheVariants as ShelfNote;
ghost use Rattle.journal_file.specs.declared.writing.Unwritten.TheVariants as Unwritten;
ghost use Rattle.journal_file.specs.Filed.{IsOneLine, command_by, entries_in, entry_in, entry_of, note_of};
ghost use Rattle.journal_file.specs.Lined.{HasLine, IsLined, IsPlain, IsPluginCommand, IsUnasked, entry_data};

use crate::front_line::front_line;
use crate::reading::entry_in;
use plain_text::{NoMemory, Text};
use plugin_side::turn_line;
use same_command::is_same_entry;
use serde_json::{Map, Value, put};
use std::alloc::Global;
use xi_plain::{Act, Command, Entry, ShelfNote};

/// Why a journal has no file.
#[derive(Clone, Copy, Debug, PartialEq, Eq)]
pub enum Unwritten {
    /// The line that was made of the entry with this index, counted from 0, would not be read as the entry.
    Entry(u64),
    /// Memory ran out.
    NoMemory,
}

/// The file of a journal, which is read back as the same: each line that is made is read and compared with its entry. The cost is linear in
/// the file.
pub fn write_journal(alloc: Global, journal: &[Entry]) -> Result<Text, Unwritten>
    ensures reads_back { IfOk result (λ text. entries_in (encode_utf8_all text) ≡ map Some journal.now) }
    ensures unwritten { (index : ℕ) → result ≡ Err (Unwritten.Entry index) → index < length journal.now }
    ensures unlined { (index : ℕ) (entry : Entry) → result ≡ Err (Unwritten.Entry index)
        → slice_get journal.now index ≡ Some entry → HasLine entry → ⊥ }
{
    let mut text = Text::new(alloc);
    for at in 0..journal.len() {
        match checked_line(alloc, &journal[at]) {
            Err(_) => return Err(Unwritten::NoMemory),
            Ok(None) => return Err(Unwritten::Entry(at as u64)),
            Ok(Some(line)) => {
                if text.push_text(&line).is_err() {
                    return Err(Unwritten::NoMemory);
                }
            }
        }
    }
    Ok(text)
}

/// The line of an entry, where it is read as the entry.
fn checked_line(alloc: Global, entry: &Entry) -> Result<Option<Text>, NoMemory>
    ensures line { IfOk result (λ made. IfSome made (λ text. IsOneLine (encode_utf8_all text))) }
    ensures reads_back { IfOk result (λ made. IfSome made (λ text. entry_in (encode_utf8_all text) ≡ Some entry.now)) }
    ensures lined { IfOk result (λ made. HasLine entry.now → IsSome made) }
{
    let line = entry_line(alloc, entry)?;
    let read = entry_in(alloc, line.as_str().as_bytes())?;
    if is_entry(&read, entry) {
        Ok(Some(line))
    } else {
        Ok(None)
    }
}

fn is_entry(read: &Option<Entry>, entry: &Entry) -> bool
    ensures { IsTrue result ↔ (read.now ≡ Some entry.now) }
{
    match read {
        None => false,
        Some(read) => is_same_entry(read, entry),
    }
}

/// The line of an entry, with its LF.
fn entry_line(alloc: Global, entry: &Entry) -> Result<Text, NoMemory>
    ensures line { IfOk result (λ text. IsOneLine (encode_utf8_all text)) }
    ensures reads { IfOk result (λ text. HasLine entry.now → entry_in (encode_utf8_all text) ≡ Some entry.now) }
{
    let value = entry_value(alloc, entry)?;
    value_line(alloc, &value)
}

/// The line of a value, with its LF.
fn value_line(alloc: Global, value: &Value) -> Result<Text, NoMemory>
    requires { has_float (view value.now) ≡ false }
    ensures { IfOk result (λ text. encode_utf8_all text ≡ line_of (view value.now)) }
{
    let mut text = value.to_string(alloc)?;
    text.push('\n')?;
    Ok(Text::from_string(text))
}

fn entry_value(alloc: Global, entry: &Entry) -> Result<Value, NoMemory>
    ensures plain { IfOk result (λ value. IsPlain 2 (view value)) }
    ensures reads { IfOk result (λ value. HasLine entry.now → entry_of (view value) ≡ Some entry.now) }
{
    let command = command_value(alloc, entry.caller, &entry.command)?;
    let note = note_value(alloc, &entry.shelf)?;
    parts_value(alloc, entry.caller, command, note, entry.sent)
}

/// The value of an entry with these parts.
fn parts_value(
    alloc: Global,
    caller: u32,
    command: Value,
    note: Value,
    sent: bool,
) -> Result<Value, NoMemory>
    ensures value { IfOk result (λ value. view value ≡ entry_data caller (view command) (view note) sent) }
    ensures held { caller < 2 ^ 32 }
{
    let mut members = Map::new(alloc);
    put(&mut members, alloc, "sent", Value::Bool(sent))?;
    put(&mut members, alloc, "note", note)?;
    put(&mut members, alloc, "command", command)?;
    put(&mut members, alloc, "caller", Value::from(caller))?;
    Ok(Value::Object(members))
}

/// The command as a line that asks it, where one does.
fn command_value(alloc: Global, caller: u32, command: &Command) -> Result<Value, NoMemory>
    ensures plain { IfOk result (λ value. IsPlain 1 (view value)) }
    ensures reads { IfOk result (λ value. IsLined caller command.now
        → command_by caller (view value) ≡ Some command.now) }
{
    if is_unasked(&command.act) {
        return Ok(Value::Null);
    }
    let line = asking_line(alloc, caller, command)?;
    Ok(Value::from(line.into_string()))
}

/// A line without its LF that asks the command, where this caller may ask it.
fn asking_line(alloc: Global, caller: u32, command: &Command) -> Result<Text, NoMemory>
    ensures { IfOk result (λ text. IsPluginCommand caller command.now → ask_of (encode_utf8_all text) ≡ command.now) }
{
    if caller == 0 {
        return front_line(alloc, command);
    }
    if !is_ask(&command.act) {
        return Ok(Text::new(alloc));
    }
    turn_line(alloc, command)
}

fn note_value(alloc: Global, note: &ShelfNote) -> Result<Value, NoMemory>
    ensures plain { IfOk result (λ value. IsPlain 1 (view value)) }
    ensures reads { IfOk result (λ value. note_of (view value) ≡ Some note.now) }
{
    match note {
        ShelfNote::NoCall => Ok(Value::Null),
        ShelfNote::Absent => Ok(Value::try_from_str(alloc, "absent")?),
        ShelfNote::Failed => Ok(Value::try_from_str(alloc, "failed")?),
        ShelfNote::Done => Ok(Value::try_from_str(alloc, "done")?),
        ShelfNote::Held(bytes) => held_value(alloc, bytes.as_slice()),
    }
}

/// The bytes of a file as a text, or else in base 16.
fn held_value(alloc: Global, bytes: &[u8]) -> Result<Value, NoMemory>
    ensures plain { IfOk result (λ value. IsPlain 1 (view value)) }
    ensures reads { IfOk result (λ value. note_of (view value) ≡ Some (ShelfNote.Held bytes.now)) }
{
    match std::str::from_utf8(bytes) {
        Ok(text) => named_text(alloc, "text", text),
        Err(_) => {
            let digits = hex::encode(alloc, bytes)?;
            named_text(alloc, "base16", digits.as_str())
        }
    }
}

/// An object with one member, which is a text.
fn named_text(alloc: Global, name: &str, text: &str) -> Result<Value, NoMemory>
    ensures { IfOk result (λ value. view value ≡ object (member name.now (string text.now) no_members)) }
{
    let mut members = Map::new(alloc);
    put(&mut members, alloc, name, Value::try_from_str(alloc, text)?)?;
    Ok(Value::Object(members))
}

/// Whether a plugin asks so in a line.
fn is_ask(act: &Act) -> bool
    ensures { IsTrue result ↔ IsAsk act.now }
{
    matches!(
        act,
        Act::PluginEdit { .. }
            | Act::GetData { .. }
            | Act::UpdateSpans { .. }
            | Act::LineCount { .. }
            | Act::Alert { .. }
            | Act::Ack { .. }
    )
}

/// Whether no line asks so.
fn is_unasked(act: &Act) -> bool
    ensures { IsTrue result ↔ IsUnasked act.now }
{
    matches!(act, Act::Ended | Act::Closing)
}
