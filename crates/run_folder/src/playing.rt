ghost use Rattle.std.specs.Prelude.{◌≡◌, ◌≤◌, IfSome};
ghost use Rattle.outside.specs.Faults.{Rose};
ghost use Rattle.outside.specs.Shelf.{TellsOf, bytes_of};
ghost use Rattle.outside.specs.Sink.{sink_state};
ghost use Rattle.run_folder.specs.Folder.{IsPlayedFrom, IsPlayedOn, IsPlayedTo, path_of, plugin_count, with_caller};

use crate::part::{Part, path_of};
use journal_file::{BadJournal, read_journal};
use journal_replay::{Entry, ReplayFault, replay};
use outside::{Shelf, Shelved, Sink};
use plain_text::{Bytes, Text};
use std::alloc::Global;

/// The most plugins that a run has.
const MOST_PLUGINS: u32 = 64;

/// What playing a folder came to.
#[derive(Clone, Copy, Debug, PartialEq, Eq)]
pub enum Ending {
    /// All entries follow, and what they write was written.
    Whole,
    /// This file is not there.
    Missing(Part),
    /// This file can't be read.
    Unread(Part),
    /// The line of the journal with this index, counted from 0, is the first that is no entry.
    NoEntry(u64),
    /// The entry with this index, counted from 0, is the first that does not follow. What those before it write was written.
    Differs(u64),
    /// The sink failed.
    SinkFault,
    /// Memory ran out.
    NoMemory,
}

/// Plays a folder again, with as many plugins as its journal's greatest caller says, of 64 at most. The sink is given back.
pub fn replay_folder<H: Shelf, K: Sink>(
    alloc: Global,
    shelf: &mut H,
    folder: &Text,
    sink: K,
) -> (Ending, K)
    ensures played { IsPlayedFrom result.0 folder.now (H.files shelf.old) (sink_state K.held K.faults K.failures sink)
        (sink_state K.held K.faults K.failures result.1) }
    ensures files { H.files shelf.new ≡ H.files shelf.old }
    ensures faults { H.faults shelf.old ≤ H.faults shelf.new }
    ensures unread { (part : Part) → result.0 ≡ Ending.Unread part → Rose (H.faults shelf.old) (H.faults shelf.new) }
{
    match read_part(alloc, shelf, folder, Part::Tape) {
        Shelved::Held(tape) => replay_tape(alloc, shelf, folder, &tape, sink),
        Shelved::Absent => (Ending::Missing(Part::Tape), sink),
        Shelved::Failed => (Ending::Unread(Part::Tape), sink),
        Shelved::NoMemory => (Ending::NoMemory, sink),
    }
}

/// The same with the tape at hand.
fn replay_tape<H: Shelf, K: Sink>(
    alloc: Global,
    shelf: &mut H,
    folder: &Text,
    tape: &Bytes,
    sink: K,
) -> (Ending, K)
    ensures played { IsPlayedOn result.0 folder.now tape.now (H.files shelf.old) (sink_state K.held K.faults K.failures sink)
        (sink_state K.held K.faults K.failures result.1) }
    ensures files { H.files shelf.new ≡ H.files shelf.old }
    ensures faults { H.faults shelf.old ≤ H.faults shelf.new }
    ensures unread { (part : Part) → result.0 ≡ Ending.Unread part → Rose (H.faults shelf.old) (H.faults shelf.new) }
{
    match read_part(alloc, shelf, folder, Part::Journal) {
        Shelved::Held(bytes) => replay_bytes(alloc, tape, &bytes, sink),
        Shelved::Absent => (Ending::Missing(Part::Journal), sink),
        Shelved::Failed => (Ending::Unread(Part::Journal), sink),
        Shelved::NoMemory => (Ending::NoMemory, sink),
    }
}

/// Plays the journal of a file.
fn replay_bytes<K: Sink>(alloc: Global, tape: &Bytes, bytes: &Bytes, sink: K) -> (Ending, K)
    ensures { IsPlayedTo result.0 tape.now bytes.now (sink_state K.held K.faults K.failures sink)
        (sink_state K.held K.faults K.failures result.1) }
{
    match read_journal(alloc, bytes.as_slice()) {
        Err(BadJournal::Line(at)) => (Ending::NoEntry(at), sink),
        Err(BadJournal::NoMemory) => (Ending::NoMemory, sink),
        Ok(journal) => {
            let plugins = plugin_count(journal.as_slice());
            match replay(alloc, tape, journal.as_slice(), plugins, sink) {
                Ok(sink) => (Ending::Whole, sink),
                Err((ReplayFault::Differs(at), sink)) => (Ending::Differs(at), sink),
                Err((ReplayFault::SinkFault, sink)) => (Ending::SinkFault, sink),
                Err((ReplayFault::NoMemory, sink)) => (Ending::NoMemory, sink),
            }
        }
    }
}

/// How many plugins a journal is played with.
fn plugin_count(journal: &[Entry]) -> u32
    ensures { result ≡ plugin_count journal.now }
{
    let mut count = 0;
    for entry in journal {
        count = with_caller(count, entry.caller);
    }
    count
}

/// So many plugins, or as many as this caller says, of the most at most.
fn with_caller(count: u32, caller: u32) -> u32
    ensures { result ≡ with_caller count caller }
{
    if count < caller && caller <= MOST_PLUGINS {
        caller
    } else {
        count
    }
}

/// The bytes of a file of a folder.
fn read_part<H: Shelf>(alloc: Global, shelf: &mut H, folder: &Text, part: Part) -> Shelved
    ensures bytes { IfSome (H.files shelf.old) (λ held. TellsOf result (bytes_of held (path_of folder.now part))) }
    ensures files { H.files shelf.new ≡ H.files shelf.old }
    ensures faults { H.faults shelf.old ≤ H.faults shelf.new }
    ensures failed { result ≡ Shelved.Failed → Rose (H.faults shelf.old) (H.faults shelf.new) }
{
    match path_of(alloc, folder, part) {
        Err(_) => Shelved::NoMemory,
        Ok(path) => shelf.read(alloc, &path),
    }
}
