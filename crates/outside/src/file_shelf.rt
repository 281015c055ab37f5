ghost use Rattle.std.specs.Prelude.{◌≡◌, ℕ, ◌^◌, ◌<◌, ◌≤◌, None, IfSome};
ghost use Rattle.std.specs.Option.{option_map};
ghost use Rattle.outside.specs.Shelf.{IsRisingByPath, TellsOf, bytes_of, files_after, faults_after_read, faults_after_write};
ghost use Rattle.outside.specs.Faults.{Rose};

use crate::file_fault::FileFault;
use crate::reading::read_found;
use crate::saving::save;
use crate::shelf::{Shelf, Shelved, Stored};
use plain_text::{List, Text};
use std::alloc::Global;
use std::rt::Files;

/// A shelf over a file system, by a handle of it. It tells no files.
///
/// A path is the system's. What is no ordinary file is neither read nor replaced, so nothing waits on a pipe.
#[derive(Drop)]
pub struct FileShelf<R> {
    pub files: R,
    pub faults: u64,
}

impl<R> FileShelf<R> {
    pub fn new(files: R) -> Self
        ensures files { result.files ≡ files }
        ensures faults { result.faults ≡ 0 }
    {
        FileShelf { files, faults: 0 }
    }
}

impl<R: Files> Shelf for FileShelf<R> {
    ghost files = { λ _. None };

    ghost faults = { λ s. s.faults };

    /// A missing file is `Absent`, also where its folder is missing; all else that goes wrong is a fault.
    fn read(&mut self, alloc: Global, path: &Text) -> Shelved
        ensures faults { self.new.faults ≡ faults_after_read result self.old.faults }
        ensures faults_stay { self.old.faults ≤ self.new.faults }
        ensures faults_fit { self.new.faults < 2 ^ 64 }
    {
        let faults = self.faults;
        let path = path.as_str();
        let found = self.files.metadata(path);
        match read_found(&self.files, alloc, path, found) {
            Ok(Some(bytes)) => Shelved::Held(List::from_vec(bytes)),
            Ok(None) => Shelved::Absent,
            Err(FileFault::NoMemory) => Shelved::NoMemory,
            Err(FileFault::System) => {
                self.faults = faults.saturating_add(1);
                Shelved::Failed
            }
        }
    }

    /// The file stands whole, old or new, whatever fails: new only where nothing did but the last step, which syncs the folder.
    fn write(&mut self, alloc: Global, path: &Text, bytes: &[u8]) -> Stored
        ensures faults { self.new.faults ≡ faults_after_write result self.old.faults }
        ensures faults_stay { self.old.faults ≤ self.new.faults }
        ensures faults_fit { self.new.faults < 2 ^ 64 }
    {
        let faults = self.faults;
        match save(&self.files, alloc, path.as_str(), bytes) {
            Ok(()) => Stored::Done,
            Err(FileFault::NoMemory) => Stored::NoMemory,
            Err(FileFault::System) => {
                self.faults = faults.saturating_add(1);
                Stored::Failed
            }
        }
    }
}
