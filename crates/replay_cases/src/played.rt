//! A run with its tape, and what a replay of it comes to.

use journal_replay::{Entry, ReplayFault, replay};
use macro_record::TapeSource;
use outside::{CalmShelf, MemShelf, MemSink, MemSource};
use plain_text::{Bytes, List, NoMemory, Text};
use std::alloc::Global;
use xi_top::{Plugin, run_alone};

// A path and its bytes.
pub(crate) type File = (&'static str, &'static [u8]);

// What a run leaves: its tape, its journal, and what it wrote.
#[derive(Drop)]
pub(crate) struct Ran {
    pub(crate) tape: Bytes,
    pub(crate) journal: Vec<Entry>,
    pub(crate) bytes: Vec<u8>,
}

pub(crate) fn shelf_of(
    alloc: Global,
    files: &[File],
    refused: &[u64],
) -> Result<MemShelf, NoMemory> {
    let mut shelf = CalmShelf::new(alloc);
    for (path, bytes) in files {
        let bytes = List::from_vec(Vec::from_slice(alloc, bytes)?);
        shelf.put(Text::from_str(alloc, path)?, bytes)?;
    }
    Ok(MemShelf::new(shelf, Vec::from_slice(alloc, refused)?))
}

// A run of these lines, with these files, of which the shelf's calls with these numbers fail.
pub(crate) fn run_over<P: Plugin + Drop>(
    alloc: Global,
    lines: &str,
    files: &[File],
    refused: &[u64],
    plugins: Vec<P>,
) -> Result<Option<Ran>, NoMemory> {
    if plugins.len() > 64 {
        return Ok(None);
    }
    let input = Vec::from_slice(alloc, lines.as_bytes())?;
    let mut source = TapeSource::new(alloc, MemSource::new(input, 4096, Vec::new(alloc)));
    let sink = MemSink::new(alloc, 4096, Vec::new(alloc));
    let shelf = shelf_of(alloc, files, refused)?;
    let report = run_alone(alloc, &mut source, sink, shelf, plugins);
    if report.status != 0 || !source.whole() {
        return Ok(None);
    }
    let (tape, _input) = source.into_parts();
    match report.sink.into_bytes() {
        None => Ok(None),
        Some(bytes) => Ok(Some(Ran {
            tape,
            journal: report.journal,
            bytes,
        })),
    }
}

// What a replay came to.
#[derive(Clone, Copy, PartialEq, Eq)]
pub(crate) enum Came {
    Through,
    Stopped(ReplayFault),
}

// What the replay of a journal comes to, and what it writes into a sink whose writes with these numbers fail.
pub(crate) fn played(
    alloc: Global,
    tape: &Bytes,
    journal: &[Entry],
    plugins: u32,
    failing: &[u64],
) -> Result<(Came, Vec<u8>), NoMemory> {
    let sink = MemSink::new(alloc, 4096, Vec::from_slice(alloc, failing)?);
    let (came, sink) = match replay(alloc, tape, journal, plugins, sink) {
        Ok(sink) => (Came::Through, sink),
        Err((fault, sink)) => (Came::Stopped(fault), sink),
    };
    match sink.into_bytes() {
        None => Err(NoMemory),
        Some(bytes) => Ok((came, bytes)),
    }
}

// Whether the journal of a run, played again on its tape, writes the same.
pub(crate) fn writes_the_same(alloc: Global, ran: &Ran, plugins: u32) -> Result<bool, NoMemory> {
    let (came, bytes) = played(alloc, &ran.tape, &ran.journal, plugins, &[])?;
    Ok(came == Came::Through && bytes.as_slice() == ran.bytes.as_slice())
}
