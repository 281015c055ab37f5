ghost use Rattle.std.specs.Prelude.{◌≡◌, ◌≢◌, ℕ, ◌^◌, ◌<◌, ◌≤◌, Some, [], IfSome, length, OnOk, OnErr};
ghost use Rattle.std.specs.Option.{option_map};
ghost use Rattle.outside.specs.Shelf.{IsRisingByPath, TellsOf, bytes_of, with_file, files_after, found};
ghost use Rattle.outside.specs.Faults.{Rose};

use crate::shelf::{Shelf, Shelved, Stored};
use plain_text::{Bytes, List, NoMemory, Text, TryClone};
use std::alloc::Global;
use std::collections::BTreeMap;
use std::marker::Model;

/// A shelf in memory that never fails: its files.
#[derive(Drop)]
pub struct CalmShelf {
    files: BTreeMap<Text, Bytes>,
}

impl Model for CalmShelf {
    ghost use Rattle.std.specs.Prelude.{ℕ, List};
    ghost use Rattle.outside.specs.Shelf.{IsRisingByPath};

    ghost Value = { List (List ℕ × List ℕ) };

    ghost view = { λ s. s.files.entries };

    ghost invariant = { λ s. IsRisingByPath s.files.entries };
}

impl CalmShelf {
    /// A shelf without files.
    pub fn new(alloc: Global) -> Self
        ensures { result ≡ [] }
    {
        CalmShelf {
            files: BTreeMap::new(alloc),
        }
    }

    /// Sets a path to the bytes, with no copy.
    pub fn put(&mut self, path: Text, bytes: Bytes) -> Result<(), NoMemory>
        ensures put { OnOk result (self.new ≡ with_file self.old path bytes) }
        ensures unchanged { OnErr result (self.new ≡ self.old) }
        ensures rising { IsRisingByPath self.new }
    {
        self.files.insert(path, bytes)?;
        Ok(())
    }

    /// The bytes of a path, if it has some.
    pub fn get(&self, path: &Text) -> Option<&Bytes>
        ensures bytes { option_map (λ bytes. bytes.now) result ≡ bytes_of self.now path.now }
        ensures rising { IsRisingByPath self.now }
    {
        self.files.get(path)
    }

    /// How many files the shelf has.
    pub fn len(&self) -> usize
        ensures count { result ≡ length self.now }
        ensures rising { IsRisingByPath self.now }
    {
        self.files.len()
    }
}

impl Shelf for CalmShelf {
    ghost files = { λ s. Some s };

    ghost faults = { λ _. 0 };

    fn read(&mut self, alloc: Global, path: &Text) -> Shelved
        ensures answer { result ≢ Shelved.NoMemory → result ≡ found (bytes_of self.old path.now) }
        ensures files_stay { self.new ≡ self.old }
        ensures rising { IsRisingByPath self.new }
    {
        match self.get(path) {
            None => Shelved::Absent,
            Some(bytes) => match bytes.copy(alloc) {
                Ok(bytes) => Shelved::Held(bytes),
                Err(NoMemory) => Shelved::NoMemory,
            },
        }
    }

    fn write(&mut self, alloc: Global, path: &Text, bytes: &[u8]) -> Stored
        ensures answer { result ≢ Stored.Failed }
        ensures files { self.new ≡ files_after result self.old path.now bytes.now }
        ensures rising { IsRisingByPath self.new }
    {
        match self.put_copy(alloc, path, bytes) {
            Ok(()) => Stored::Done,
            Err(NoMemory) => Stored::NoMemory,
        }
    }
}

impl CalmShelf {
    /// Sets a path to a copy of the bytes.
    fn put_copy(&mut self, alloc: Global, path: &Text, bytes: &[u8]) -> Result<(), NoMemory>
        ensures put { OnOk result (self.new ≡ with_file self.old path.now bytes.now) }
        ensures unchanged { OnErr result (self.new ≡ self.old) }
        ensures rising { IsRisingByPath self.new }
    {
        let _ = &self.files;
        let bytes = Vec::from_slice(alloc, bytes)?;
        self.put(path.copy(alloc)?, List::from_vec(bytes))
    }
}
