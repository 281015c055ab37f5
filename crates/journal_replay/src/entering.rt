// One entry of a journal, entered into the session that plays it again.
ghost use Rattle.std.specs.Prelude.{◌≡◌, ◌≢◌, ◌≤◌, ◌↔◌, ℕ, List, true, false, IfOk, IfSome, IfNone, IsTrue};
ghost use Rattle.std.specs.Str.{encode_utf8_all};
ghost use Rattle.plain_text.specs.InputLines.{lines_of};
ghost use Rattle.xi_plain.specs.Journal.{is_closing, is_no_call, may_open, may_save};
ghost use Rattle.xi_plain.specs.declared.command.Act.TheVariants as Act;
ghost use Rattle.xi_plain.specs.declared.command.Id.TheVariants as Id;
ghost use Rattle.json_rpc.specs.Line.{line_of};
ghost use Rattle.plugin_wire.specs.Asked.{ask_of};
ghost use Rattle.plugin_side.specs.Asking.{IsAsk, command_data};
ghost use Rattle.core_session.specs.Core.{journal_of, terms_of};
ghost use Rattle.core_session.specs.Grown.{IsGrown};
ghost use Rattle.core_session.specs.Kept.{is_over};
ghost use Rattle.core_session.specs.Object.{state_of};
ghost use Rattle.journal_replay.specs.Follow.{lines_left};
ghost use Rattle.journal_replay.specs.Inner.{EndsWith, IsReplayed, IsSettled, has_fitting_note, point_at};

use core_session::Core;
use front_wire::command_of;
use macro_record::cut_line;
use outside::{Shelf, Sink};
use plain_text::{NoMemory, Text};
use plugin_side::ask_line;
use plugin_wire::ask_of;
use same_command::{is_same_command, is_same_note};
use std::alloc::Global;
use xi_plain::{Act, Command, Entry, Id, Reply, ShelfNote};

// What entering an entry came to.
#[derive(Clone, Copy)]
pub(crate) enum Entered {
    // It is an entry again.
    Taken,
    // It does not follow, and nothing was entered.
    Differs,
    // It is an entry again, of which not all was sent.
    SinkFault,
    NoMemory,
}

// Enters the entry that comes next, where the tape has still these bytes and no closing entry came.
pub(crate) fn enter<K: Sink, H: Shelf>(
    alloc: Global,
    core: &mut Core<K, H>,
    plugins: u32,
    lines: &[u8],
    entry: &Entry,
) -> Entered
    requires plugins { plugins ≡ (terms_of core.old).plugins }
    requires unclosed { is_over (journal_of core.old) ≡ false }
    ensures entered { IsReplayed result plugins (point_at (terms_of core.old) (journal_of core.old) (lines_of lines.now)) entry.now
        (journal_of core.old) (journal_of core.new) }
    ensures terms { terms_of core.new ≡ terms_of core.old }
    ensures grown { IsGrown (state_of K.held K.faults K.failures H.files H.faults core.old) (state_of K.held K.faults K.failures H.files H.faults core.new) }
{
    if !has_fitting_note(core, entry) {
        return Entered::Differs;
    }
    if entry.caller > plugins {
        return Entered::Differs;
    }
    if entry.caller > 0 {
        return enter_plugin(alloc, core, entry);
    }
    if is_closing(entry) {
        return close(core, entry);
    }
    enter_line(alloc, core, lines, entry)
}

// What an entry of the front end leaves of the tape: all but the next line, and a closing entry all.
pub(crate) fn lines_left<'a>(lines: &'a [u8], entry: &Entry) -> &'a [u8]
    ensures { lines_of result.now ≡ lines_left entry.now (lines_of lines.now) }
{
    if entry.caller > 0 || is_closing(entry) || lines.is_empty() {
        return lines;
    }
    let (_line, rest) = cut_line(lines);
    rest
}

pub(crate) fn is_closing(entry: &Entry) -> bool
    ensures { result ≡ is_closing entry.now }
{
    matches!(entry.command.act, Act::Closing)
}

// Whether the note is of a kind that the entry's command can have; a saving has one of the shelf's where its view is open.
fn has_fitting_note<K: Sink, H: Shelf>(core: &Core<K, H>, entry: &Entry) -> bool
    ensures { result ≡ has_fitting_note (terms_of core.now) (journal_of core.now) entry.now }
{
    match &entry.command.act {
        Act::NewView { path } => match path {
            None => is_no_call(&entry.shelf),
            Some(_) => may_open(&entry.shelf),
        },
        Act::Save { view, .. } => {
            may_save(&entry.shelf) && core.doc(view).is_none() == is_no_call(&entry.shelf)
        }
        _ => is_no_call(&entry.shelf),
    }
}

fn is_no_call(note: &ShelfNote) -> bool
    ensures { result ≡ is_no_call note.now }
{
    matches!(note, ShelfNote::NoCall)
}

fn may_open(note: &ShelfNote) -> bool
    ensures { result ≡ may_open note.now }
{
    matches!(
        note,
        ShelfNote::Held(_) | ShelfNote::Absent | ShelfNote::Failed
    )
}

fn may_save(note: &ShelfNote) -> bool
    ensures { result ≡ may_save note.now }
{
    matches!(
        note,
        ShelfNote::NoCall | ShelfNote::Done | ShelfNote::Failed
    )
}

// Enters a closing entry.
fn close<K: Sink, H: Shelf>(core: &mut Core<K, H>, entry: &Entry) -> Entered
    requires unclosed { is_over (journal_of core.old) ≡ false }
    requires closing { is_closing entry.now ≡ true }
    requires front { entry.now.caller ≡ 0 }
    requires note { has_fitting_note (terms_of core.old) (journal_of core.old) entry.now ≡ true }
    ensures entered { (plugins : ℕ) (lines : List (List ℕ)) → IsReplayed result plugins
        (point_at (terms_of core.old) (journal_of core.old) lines) entry.now (journal_of core.old) (journal_of core.new) }
    ensures terms { terms_of core.new ≡ terms_of core.old }
    ensures grown { IsGrown (state_of K.held K.faults K.failures H.files H.faults core.old) (state_of K.held K.faults K.failures H.files H.faults core.new) }
{
    if !has_no_id(&entry.command) {
        return Entered::Differs;
    }
    let reply = core.close_down();
    settle(core, &reply, &entry.shelf)
}

fn has_no_id(command: &Command) -> bool
    ensures { IsTrue result ↔ (command.now.id ≡ Id.NoId) }
{
    matches!(command.id, Id::NoId)
}

// Enters an entry of the front end: the tape's next line, where it asks the entry's command.
fn enter_line<K: Sink, H: Shelf>(
    alloc: Global,
    core: &mut Core<K, H>,
    lines: &[u8],
    entry: &Entry,
) -> Entered
    requires unclosed { is_over (journal_of core.old) ≡ false }
    requires asks { is_closing entry.now ≡ false }
    requires front { entry.now.caller ≡ 0 }
    requires note { has_fitting_note (terms_of core.old) (journal_of core.old) entry.now ≡ true }
    ensures entered { (plugins : ℕ) → IsReplayed result plugins
        (point_at (terms_of core.old) (journal_of core.old) (lines_of lines.now)) entry.now (journal_of core.old) (journal_of core.new) }
    ensures terms { terms_of core.new ≡ terms_of core.old }
    ensures grown { IsGrown (state_of K.held K.faults K.failures H.files H.faults core.old) (state_of K.held K.faults K.failures H.files H.faults core.new) }
{
    if lines.is_empty() {
        return Entered::Differs;
    }
    let (line, _rest) = cut_line(lines);
    match command_of(alloc, line) {
        Err(_) => Entered::NoMemory,
        Ok(command) => {
            if !is_same_command(&command, &entry.command) {
                return Entered::Differs;
            }
            let reply = core.front_line(line);
            settle(core, &reply, &entry.shelf)
        }
    }
}

// Enters an entry of a plugin: the end of its session, or a command that its line reads back to.
fn enter_plugin<K: Sink, H: Shelf>(alloc: Global, core: &mut Core<K, H>, entry: &Entry) -> Entered
    requires unclosed { is_over (journal_of core.old) ≡ false }
    requires caller { (1 ≤ entry.now.caller) × (entry.now.caller ≤ (terms_of core.old).plugins) }
    requires note { has_fitting_note (terms_of core.old) (journal_of core.old) entry.now ≡ true }
    ensures entered { (lines : List (List ℕ)) → IsReplayed result (terms_of core.old).plugins
        (point_at (terms_of core.old) (journal_of core.old) lines) entry.now (journal_of core.old) (journal_of core.new) }
    ensures terms { terms_of core.new ≡ terms_of core.old }
    ensures grown { IsGrown (state_of K.held K.faults K.failures H.files H.faults core.old) (state_of K.held K.faults K.failures H.files H.faults core.new) }
{
    match entry.command.act {
        Act::Ended => end(core, entry),
        _ => enter_command(alloc, core, entry),
    }
}

// Ends the session of a plugin.
fn end<K: Sink, H: Shelf>(core: &mut Core<K, H>, entry: &Entry) -> Entered
    requires unclosed { is_over (journal_of core.old) ≡ false }
    requires ends { entry.now.command.act ≡ Act.Ended }
    requires caller { (1 ≤ entry.now.caller) × (entry.now.caller ≤ (terms_of core.old).plugins) }
    requires note { has_fitting_note (terms_of core.old) (journal_of core.old) entry.now ≡ true }
    ensures entered { (lines : List (List ℕ)) → IsReplayed result (terms_of core.old).plugins
        (point_at (terms_of core.old) (journal_of core.old) lines) entry.now (journal_of core.old) (journal_of core.new) }
    ensures terms { terms_of core.new ≡ terms_of core.old }
    ensures grown { IsGrown (state_of K.held K.faults K.failures H.files H.faults core.old) (state_of K.held K.faults K.failures H.files H.faults core.new) }
{
    if !has_no_id(&entry.command) {
        return Entered::Differs;
    }
    let reply = core.plugin_end(entry.caller);
    settle(core, &reply, &entry.shelf)
}

// Enters a command of a plugin, where it is one that a line asks.
fn enter_command<K: Sink, H: Shelf>(alloc: Global, core: &mut Core<K, H>, entry: &Entry) -> Entered
    requires unclosed { is_over (journal_of core.old) ≡ false }
    requires goes { entry.now.command.act ≢ Act.Ended }
    requires caller { (1 ≤ entry.now.caller) × (entry.now.caller ≤ (terms_of core.old).plugins) }
    requires note { has_fitting_note (terms_of core.old) (journal_of core.old) entry.now ≡ true }
    ensures entered { (lines : List (List ℕ)) → IsReplayed result (terms_of core.old).plugins
        (point_at (terms_of core.old) (journal_of core.old) lines) entry.now (journal_of core.old) (journal_of core.new) }
    ensures terms { terms_of core.new ≡ terms_of core.old }
    ensures grown { IsGrown (state_of K.held K.faults K.failures H.files H.faults core.old) (state_of K.held K.faults K.failures H.files H.faults core.new) }
{
    if !is_ask(&entry.command.act) {
        return Entered::Differs;
    }
    match own_line(alloc, &entry.command) {
        Err(_) => Entered::NoMemory,
        Ok(found) => match found {
            None => Entered::Differs,
            Some(line) => {
                let reply = core.plugin_line(entry.caller, line.as_str().as_bytes());
                settle(core, &reply, &entry.shelf)
            }
        },
    }
}

// Whether a plugin asks so in a line.
fn is_ask(act: &Act) -> bool
    ensures yes { IsTrue result → IsAsk act.now }
    ensures no { IsAsk act.now → IsTrue result }
{
    matches!(
        act,
        Act::PluginEdit { .. }
            | Act::GetData { .. }
            | Act::UpdateSpans { .. }
            | Act::LineCount { .. }
            | Act::Alert { .. }
            | Act::Ack { .. }
    )
}

// The line of a plugin's command, where it reads back as the same.
fn own_line(alloc: Global, command: &Command) -> Result<Option<Text>, NoMemory>
    requires { IsAsk command.now.act }
    ensures same { IfOk result (λ line. IfSome line (λ text. ask_of (encode_utf8_all text) ≡ command.now)) }
    ensures back { IfOk result (λ line. IfSome line (λ _. ask_of (line_of (command_data command.now)) ≡ command.now)) }
    ensures other { IfOk result (λ line. IfNone line (ask_of (line_of (command_data command.now)) ≢ command.now)) }
{
    let line = ask_line(alloc, command)?;
    let read = ask_of(alloc, line.as_str().as_bytes())?;
    if is_same_command(&read, command) {
        Ok(Some(line))
    } else {
        Ok(None)
    }
}

// What an entry came to whose ask was answered so, by the note that the session's last entry has then. The shelf gives each entry its own note,
// so that another one stands for want of memory.
fn settle<K: Sink, H: Shelf>(core: &Core<K, H>, reply: &Reply, note: &ShelfNote) -> Entered
    ensures { IsSettled result reply.now note.now (journal_of core.now) }
{
    match reply {
        Reply::Refused(_) => Entered::Differs,
        Reply::Closed | Reply::NoMemory => Entered::NoMemory,
        Reply::Taken(_) => {
            if ends_with(core.journal(), note) {
                Entered::Taken
            } else {
                Entered::NoMemory
            }
        }
        Reply::SinkFault => {
            if ends_with(core.journal(), note) {
                Entered::SinkFault
            } else {
                Entered::NoMemory
            }
        }
    }
}

// Whether the last of these entries has this note.
fn ends_with(journal: &[Entry], note: &ShelfNote) -> bool
    ensures { IsTrue result → EndsWith note.now journal.now }
{
    match journal.last() {
        None => false,
        Some(last) => is_same_note(&last.shelf, note),
    }
}
