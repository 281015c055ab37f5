ghost use Rattle.std.specs.Prelude.{◌≡◌, ◌≤◌, ◌<◌, ℕ, length};
ghost use Rattle.std.specs.Option.{option_map};
ghost use Rattle.outside.specs.Faults.{Rose};
ghost use Rattle.outside.specs.Shelf.{files_after};
ghost use Rattle.run_folder.specs.Folder.{IsKept, IsSaved, path_of};

use crate::part::{Part, path_of};
use journal_file::{Unwritten, write_journal};
use outside::{Shelf, Stored};
use plain_text::{Bytes, Text};
use std::alloc::Global;
use xi_plain::Entry;

/// What saving a run came to.
#[derive(Clone, Copy, Debug, PartialEq, Eq)]
pub enum Saved {
    /// Both files stand.
    Whole,
    /// This file was not saved, and none after it.
    Failed(Part),
    /// The tape stands. The journal has no file, since its entry with this index, counted from 0, has no line.
    Unwritten(u64),
    /// Memory ran out.
    NoMemory,
}

/// Saves the tape of a run in a folder that is there, and then its journal. Each file stands whole, old or new.
pub fn save_run<H: Shelf>(
    alloc: Global,
    shelf: &mut H,
    folder: &Text,
    tape: &Bytes,
    journal: &[Entry],
) -> Saved
    ensures saved { IsSaved result folder.now tape.now journal.now (H.files shelf.old) (H.files shelf.new) }
    ensures faults { H.faults shelf.old ≤ H.faults shelf.new }
    ensures failed { (part : Part) → result ≡ Saved.Failed part → Rose (H.faults shelf.old) (H.faults shelf.new) }
    ensures unwritten { (index : ℕ) → result ≡ Saved.Unwritten index → index < length journal.now }
{
    match save_part(alloc, shelf, folder, Part::Tape, tape.as_slice()) {
        Stored::Done => save_journal(alloc, shelf, folder, journal),
        Stored::Failed => Saved::Failed(Part::Tape),
        Stored::NoMemory => Saved::NoMemory,
    }
}

/// Saves a journal in a folder, where the tape is saved.
fn save_journal<H: Shelf>(alloc: Global, shelf: &mut H, folder: &Text, journal: &[Entry]) -> Saved
    ensures kept { IsKept result folder.now journal.now (H.files shelf.old) (H.files shelf.new) }
    ensures faults { H.faults shelf.old ≤ H.faults shelf.new }
    ensures failed { (part : Part) → result ≡ Saved.Failed part → Rose (H.faults shelf.old) (H.faults shelf.new) }
    ensures unwritten { (index : ℕ) → result ≡ Saved.Unwritten index → index < length journal.now }
{
    match write_journal(alloc, journal) {
        Err(Unwritten::Entry(at)) => Saved::Unwritten(at),
        Err(Unwritten::NoMemory) => Saved::NoMemory,
        Ok(text) => {
            match save_part(
                alloc,
                shelf,
                folder,
                Part::Journal,
                text.as_str().as_bytes(),
            ) {
                Stored::Done => Saved::Whole,
                Stored::Failed => Saved::Failed(Part::Journal),
                Stored::NoMemory => Saved::NoMemory,
            }
        }
    }
}

/// Saves a file of a folder.
fn save_part<H: Shelf>(
    alloc: Global,
    shelf: &mut H,
    folder: &Text,
    part: Part,
    bytes: &[u8],
) -> Stored
    ensures files { H.files shelf.new ≡ option_map (λ held. files_after result held (path_of folder.now part) bytes.now) (H.files shelf.old) }
    ensures faults { H.faults shelf.old ≤ H.faults shelf.new }
    ensures failed { result ≡ Stored.Failed → Rose (H.faults shelf.old) (H.faults shelf.new) }
{
    match path_of(alloc, folder, part) {
        Err(_) => Stored::NoMemory,
        Ok(path) => shelf.write(alloc, &path, bytes),
    }
}
