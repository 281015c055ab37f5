ghost use Rattle.std.specs.Prelude.{◌≡◌, ℕ, map, codes, Some, Err, IfOk, option_and_then};
ghost use Rattle.serde_json.specs.Find.{get};
ghost use Rattle.serde_json.specs.View.{view};
ghost use Rattle.json_rpc.specs.Line.{without_lf};
ghost use Rattle.journal_file.specs.declared.reading.BadJournal.TheVariants as BadJournal;
ghost use Rattle.journal_file.specs.Filed.{IsFirstBad, command_asked_by, caller_of, command_by, entries_in, entry_by, entry_from, entry_in, entry_of, note_of, unasked};

use crate::held::note_of;
use front_wire::command_of;
use macro_record::cut_line;
use plain_text::{List, NoMemory};
use plugin_wire::ask_of;
use serde_json::Value;
use std::alloc::Global;
use xi_plain::{Act, Command, Entry, Id, ShelfNote};

const LINE_FEED: u8 = b'\n';

/// Why a file is no journal.
#[derive(Clone, Copy, Debug, PartialEq, Eq)]
pub enum BadJournal {
    /// The line with this index, counted from 0, is the first that is no entry.
    Line(u64),
    /// Memory ran out.
    NoMemory,
}

/// The entries of a file, one a line. It is read line by line; the cost is linear in it.
pub fn read_journal(alloc: Global, bytes: &[u8]) -> Result<List<Entry>, BadJournal>
    ensures entries { IfOk result (λ entries. entries_in bytes.now ≡ map Some entries) }
    ensures bad { (index : ℕ) → result ≡ Err (BadJournal.Line index) → IsFirstBad (entries_in bytes.now) index }
{
    let mut made = Vec::new(alloc);
    let mut rest = bytes;
    while !rest.is_empty() {
        let (line, later) = cut_line(rest);
        match entry_in(alloc, line) {
            Err(_) => return Err(BadJournal::NoMemory),
            Ok(None) => return Err(BadJournal::Line(made.len() as u64)),
            Ok(Some(entry)) => {
                if made.push(entry).is_err() {
                    return Err(BadJournal::NoMemory);
                }
            }
        }
        rest = later;
    }
    Ok(List::from_vec(made))
}

/// The entry that a line is, with or without its LF, if it is one.
#[tactic(auto, unfolding(crate::specs::Filed::entry_in))]
pub(crate) fn entry_in(alloc: Global, line: &[u8]) -> Result<Option<Entry>, NoMemory>
    ensures { IfOk result (λ entry. entry ≡ entry_in line.now) }
{
    match Value::from_slice(alloc, without_lf(line)) {
        Ok(value) => entry_of(alloc, &value),
        Err(error) => {
            if error.is_memory() {
                Err(NoMemory)
            } else {
                Ok(None)
            }
        }
    }
}

fn without_lf(line: &[u8]) -> &[u8]
    ensures { result.now ≡ without_lf line.now }
{
    match line.split_last() {
        Some((last, rest)) if *last == LINE_FEED => rest,
        _ => line,
    }
}

fn entry_of(alloc: Global, value: &Value) -> Result<Option<Entry>, NoMemory>
    ensures { IfOk result (λ entry. entry ≡ entry_of (view value.now)) }
{
    match caller_of(value) {
        None => Ok(None),
        Some(caller) => entry_by(alloc, caller, value),
    }
}

fn entry_by(alloc: Global, caller: u32, value: &Value) -> Result<Option<Entry>, NoMemory>
    ensures { IfOk result (λ entry. entry ≡ entry_by caller (view value.now)) }
{
    let command = command_at(alloc, caller, value)?;
    let note = note_at(alloc, value)?;
    let sent = value.get("sent").and_then(Value::as_bool);
    Ok(entry_from(caller, command, note, sent))
}

fn entry_from(
    caller: u32,
    command: Option<Command>,
    note: Option<ShelfNote>,
    sent: Option<bool>,
) -> Option<Entry>
    ensures { result ≡ entry_from caller command note sent }
{
    Some(Entry {
        caller,
        command: command?,
        shelf: note?,
        sent: sent?,
    })
}

fn caller_of(value: &Value) -> Option<u32>
    ensures { result ≡ caller_of (view value.now) }
{
    match value.get("caller").and_then(Value::as_u64) {
        None => None,
        Some(number) => {
            if number < 1 << 32 {
                Some(number as u32)
            } else {
                None
            }
        }
    }
}

fn command_at(alloc: Global, caller: u32, value: &Value) -> Result<Option<Command>, NoMemory>
    ensures { IfOk result (λ command.
        command ≡ option_and_then (command_by caller) (get (codes "command") (view value.now))) }
{
    match value.get("command") {
        None => Ok(None),
        Some(command) => command_by(alloc, caller, command),
    }
}

fn command_by(alloc: Global, caller: u32, value: &Value) -> Result<Option<Command>, NoMemory>
    ensures { IfOk result (λ command. command ≡ command_by caller (view value.now)) }
{
    match value {
        Value::Null => Ok(Some(unasked(caller))),
        Value::String(line) => Ok(Some(command_asked_by(alloc, caller, line.as_str().as_bytes())?)),
        _ => Ok(None),
    }
}

fn unasked(caller: u32) -> Command
    ensures { result ≡ unasked caller }
{
    Command {
        id: Id::NoId,
        act: if caller == 0 {
            Act::Closing
        } else {
            Act::Ended
        },
    }
}

fn command_asked_by(alloc: Global, caller: u32, line: &[u8]) -> Result<Command, NoMemory>
    ensures { IfOk result (λ command. command ≡ command_asked_by caller line.now) }
{
    if caller == 0 {
        command_of(alloc, line)
    } else {
        ask_of(alloc, line)
    }
}

fn note_at(alloc: Global, value: &Value) -> Result<Option<ShelfNote>, NoMemory>
    ensures { IfOk result (λ note. note ≡ option_and_then note_of (get (codes "note") (view value.now))) }
{
    match value.get("note") {
        None => Ok(None),
        Some(note) => note_of(alloc, note),
    }
}
