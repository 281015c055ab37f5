ghost use Rattle.std.specs.Prelude.{◌≡◌, ◌≢◌, ◌^◌, ◌<◌, ◌≤◌, ◌∷◌, [], None};
ghost use Rattle.outside.specs.Faults.{Rose};
ghost use Rattle.xi_plain.specs.Journal.{is_no_call};
ghost use Rattle.journal_replay.specs.Notes.{behind_first, from_asked, opens_at, read_by, read_in, saves_at, write_by, write_in};

use outside::{Shelf, Shelved, Stored};
use plain_text::{Text, TryClone};
use std::alloc::Global;
use std::marker::Model;
use xi_plain::{Act, Entry, ShelfNote};

/// A shelf that answers by the notes of a journal, in their order: the next call that asks for the path of the next entry that asked is answered
/// as that entry's note says. It holds no files, and tells none. A call that asks for something else is answered as for want of memory.
#[derive(Drop)]
pub struct NoteShelf<'a> {
    entries: &'a [Entry],
    faults: u64,
}

impl<'a> Model for NoteShelf<'a> {
    ghost use Rattle.journal_replay.specs.Notes.{Noted};

    ghost Value = { Noted };

    ghost view = { λ s. record { entries = s.entries.now; faults = s.faults } };
}

impl<'a> NoteShelf<'a> {
    /// A shelf that answers by the notes of these entries.
    pub fn new(entries: &'a [Entry]) -> NoteShelf<'a>
        ensures entries { result.entries ≡ entries.now }
        ensures faults { result.faults ≡ 0 }
    {
        NoteShelf { entries, faults: 0 }
    }

    // Counts a fault.
    fn count(&mut self)
        ensures entries { self.new.entries ≡ self.old.entries }
        ensures stays { self.old.faults ≤ self.new.faults }
        ensures fits { self.new.faults < 2 ^ 64 }
        ensures rose { Rose self.old.faults self.new.faults }
    {
        self.faults = self.faults.saturating_add(1);
    }
}

impl<'a> Shelf for NoteShelf<'a> {
    ghost files = { λ _. None };

    ghost faults = { λ s. s.faults };

    fn read(&mut self, alloc: Global, path: &Text) -> Shelved
        ensures reads { result ≢ Shelved.NoMemory → result ≡ read_in (from_asked self.old.entries) path.now }
        ensures rest { self.new.entries ≡ behind_first (from_asked self.old.entries) }
        ensures faults_stay { self.old.faults ≤ self.new.faults }
        ensures faults_fit { self.new.faults < 2 ^ 64 }
        ensures failed { result ≡ Shelved.Failed → Rose self.old.faults self.new.faults }
        ensures no_memory { result ≡ Shelved.NoMemory → self.new.faults ≡ self.old.faults }
    {
        // Whoever reads a number knows its range.
        let _range = self.faults;
        let asked = from_asked(self.entries);
        self.entries = behind_first(asked);
        let answer = read_in(alloc, asked, path);
        if let Shelved::Failed = answer {
            self.count();
        }
        answer
    }

    fn write(&mut self, _alloc: Global, path: &Text, _bytes: &[u8]) -> Stored
        ensures writes { result ≡ write_in (from_asked self.old.entries) path.now }
        ensures rest { self.new.entries ≡ behind_first (from_asked self.old.entries) }
        ensures faults_stay { self.old.faults ≤ self.new.faults }
        ensures faults_fit { self.new.faults < 2 ^ 64 }
        ensures failed { result ≡ Stored.Failed → Rose self.old.faults self.new.faults }
        ensures no_memory { result ≡ Stored.NoMemory → self.new.faults ≡ self.old.faults }
    {
        // Whoever reads a number knows its range.
        let _range = self.faults;
        let asked = from_asked(self.entries);
        self.entries = behind_first(asked);
        let answer = write_in(asked, path);
        if let Stored::Failed = answer {
            self.count();
        }
        answer
    }
}

// The entries from the first on for which a shelf was asked.
fn from_asked(entries: &[Entry]) -> &[Entry]
    ensures { result.now ≡ from_asked entries.now }
{
    let mut rest = entries;
    while let Some((entry, later)) = rest.split_first() {
        if !is_no_call(&entry.shelf) {
            return rest;
        }
        rest = later;
    }
    rest
}

// These entries without the first.
fn behind_first(entries: &[Entry]) -> &[Entry]
    ensures { result.now ≡ behind_first entries.now }
{
    match entries.split_first() {
        None => entries,
        Some((_entry, rest)) => rest,
    }
}

fn is_no_call(note: &ShelfNote) -> bool
    ensures { result ≡ is_no_call note.now }
{
    matches!(note, ShelfNote::NoCall)
}

// What a read of a path is answered by the first of these entries.
fn read_in(alloc: Global, entries: &[Entry], path: &Text) -> Shelved
    ensures { result ≢ Shelved.NoMemory → result ≡ read_in entries.now path.now }
{
    match entries.split_first() {
        None => Shelved::NoMemory,
        Some((entry, _rest)) => read_at(alloc, entry, path),
    }
}

fn read_at(alloc: Global, entry: &Entry, path: &Text) -> Shelved
    ensures { result ≢ Shelved.NoMemory → result ≡ read_in (entry.now ∷ []) path.now }
{
    if opens_at(&entry.command.act, path) {
        read_by(alloc, &entry.shelf)
    } else {
        Shelved::NoMemory
    }
}

fn opens_at(act: &Act, path: &Text) -> bool
    ensures { result ≡ opens_at act.now path.now }
{
    match act {
        Act::NewView { path: own } => match own {
            None => false,
            Some(own) => own.as_str() == path.as_str(),
        },
        _ => false,
    }
}

fn read_by(alloc: Global, note: &ShelfNote) -> Shelved
    ensures { result ≢ Shelved.NoMemory → result ≡ read_by note.now }
{
    match note {
        ShelfNote::Held(bytes) => match bytes.copy(alloc) {
            Ok(copy) => Shelved::Held(copy),
            Err(_) => Shelved::NoMemory,
        },
        ShelfNote::Absent => Shelved::Absent,
        ShelfNote::Failed => Shelved::Failed,
        ShelfNote::NoCall | ShelfNote::Done => Shelved::NoMemory,
    }
}

// What a write of a path is answered by the first of these entries.
fn write_in(entries: &[Entry], path: &Text) -> Stored
    ensures { result ≡ write_in entries.now path.now }
{
    match entries.split_first() {
        None => Stored::NoMemory,
        Some((entry, _rest)) => write_at(entry, path),
    }
}

fn write_at(entry: &Entry, path: &Text) -> Stored
    ensures { result ≡ write_in (entry.now ∷ []) path.now }
{
    if saves_at(&entry.command.act, path) {
        write_by(&entry.shelf)
    } else {
        Stored::NoMemory
    }
}

fn saves_at(act: &Act, path: &Text) -> bool
    ensures { result ≡ saves_at act.now path.now }
{
    match act {
        Act::Save { path: own, .. } => own.as_str() == path.as_str(),
        _ => false,
    }
}

fn write_by(note: &ShelfNote) -> Stored
    ensures { result ≡ write_by note.now }
{
    match note {
        ShelfNote::Done => Stored::Done,
        ShelfNote::Failed => Stored::Failed,
        ShelfNote::NoCall | ShelfNote::Held(_) | ShelfNote::Absent => Stored::NoMemory,
    }
}
