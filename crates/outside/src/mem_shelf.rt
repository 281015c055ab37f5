ghost use Rattle.std.specs.Prelude.{◌≡◌, ◌≢◌, ℕ, ◌^◌, ◌<◌, ◌≤◌, ◌↔◌, Some, IfSome, IsTrue};
ghost use Rattle.std.specs.Option.{option_map};
ghost use Rattle.outside.specs.Shelf.{IsRisingByPath, TellsOf, bytes_of, files_after};
ghost use Rattle.outside.specs.MemShelf.{read_answer};
ghost use Rattle.outside.specs.Schedule.{schedule_of, is_due, next};
ghost use Rattle.outside.specs.Faults.{Rose};

use crate::calm_shelf::CalmShelf;
use crate::schedule::Schedule;
use crate::shelf::{Shelf, Shelved, Stored};
use plain_text::Text;
use std::alloc::Global;
use std::marker::Model;

/// A shelf in memory which fails at the calls that it is told to.
#[derive(Drop)]
pub struct MemShelf {
    shelf: CalmShelf,
    schedule: Schedule,
}

impl Model for MemShelf {
    ghost use Rattle.outside.specs.MemShelf.{Shelves};
    ghost use Rattle.outside.specs.Shelf.{IsRisingByPath};

    ghost Value = { Shelves };

    ghost view = { λ s. record { files = s.shelf; schedule = s.schedule } };

    ghost invariant = { λ s. IsRisingByPath s.shelf };
}

impl MemShelf {
    /// A shelf of these files whose calls with the numbers `failing` fail, reads and writes counted together from 1.
    pub fn new(shelf: CalmShelf, failing: Vec<u64>) -> Self
        ensures files { result.files ≡ shelf }
        ensures schedule { result.schedule ≡ schedule_of failing.items }
    {
        // Whoever reads the files sees that they rise.
        let _count = shelf.len();
        MemShelf {
            shelf,
            schedule: Schedule::new(failing),
        }
    }

    /// The files.
    pub fn files(&self) -> &CalmShelf
        ensures { result.now ≡ self.now.files }
    {
        &self.shelf
    }

    /// How many calls were made. The count stands still at the end of `u64`.
    pub fn calls(&self) -> u64
        ensures { result ≡ self.now.schedule.calls }
    {
        self.schedule.calls()
    }

    /// How many calls failed.
    pub fn faults(&self) -> u64
        ensures { result ≡ self.now.schedule.faults }
    {
        self.schedule.faults()
    }
}

impl Shelf for MemShelf {
    ghost files = { λ s. Some s.files };

    ghost faults = { λ s. s.schedule.faults };

    fn read(&mut self, alloc: Global, path: &Text) -> Shelved
        ensures answer { result ≢ Shelved.NoMemory → result ≡ read_answer self.old path.now }
        ensures due { IsTrue (is_due self.old.schedule) → result ≡ Shelved.Failed }
        ensures files_stay { self.new.files ≡ self.old.files }
        ensures schedule { self.new.schedule ≡ next self.old.schedule }
        ensures rising { IsRisingByPath self.new.files }
        ensures faults_stay { self.old.schedule.faults ≤ self.new.schedule.faults }
        ensures faults_fit { self.new.schedule.faults < 2 ^ 64 }
    {
        if self.schedule.enter() {
            return Shelved::Failed;
        }
        self.shelf.read(alloc, path)
    }

    fn write(&mut self, alloc: Global, path: &Text, bytes: &[u8]) -> Stored
        ensures answer { (result ≡ Stored.Failed) ↔ IsTrue (is_due self.old.schedule) }
        ensures files { self.new.files ≡ files_after result self.old.files path.now bytes.now }
        ensures schedule { self.new.schedule ≡ next self.old.schedule }
        ensures rising { IsRisingByPath self.new.files }
        ensures faults_stay { self.old.schedule.faults ≤ self.new.schedule.faults }
        ensures faults_fit { self.new.schedule.faults < 2 ^ 64 }
    {
        if self.schedule.enter() {
            return Stored::Failed;
        }
        self.shelf.write(alloc, path, bytes)
    }
}
