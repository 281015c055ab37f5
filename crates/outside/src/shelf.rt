ghost use Rattle.std.specs.Prelude.{◌≡◌, ℕ, ◌^◌, ◌<◌, ◌≤◌, List, Option, IfSome};
ghost use Rattle.std.specs.Option.{option_map};
ghost use Rattle.outside.specs.Shelf.{IsRisingByPath, TellsOf, bytes_of, files_after};
ghost use Rattle.outside.specs.Faults.{Rose};

use plain_text::{Bytes, Text};
use std::alloc::Global;

/// What a read of a shelf answers.
#[derive(PartialEq, Eq, Drop)]
pub enum Shelved {
    /// The bytes of the path.
    Held(Bytes),
    /// The path has no bytes.
    Absent,
    /// A fault, which the shelf counted.
    Failed,
    /// Memory ran out.
    NoMemory,
}

/// What a write of a shelf answers.
#[derive(Clone, Copy, Debug, PartialEq, Eq)]
pub enum Stored {
    /// The path has the bytes.
    Done,
    /// A fault, which the shelf counted. Every path has what it had.
    Failed,
    /// Memory ran out. Every path has what it had.
    NoMemory,
}

/// Where files are read from, each whole, and saved to, each whole or not at all.
pub trait Shelf {
    /// The files, where the shelf tells them: paths with their bytes, rising by the bytes of the paths.
    ghost files: { Self → Option (List (List ℕ × List ℕ)) };

    /// The faults so far. The count stands still at the end of `u64`.
    ghost faults: { Self → ℕ };

    /// The bytes of a path.
    fn read(&mut self, alloc: Global, path: &Text) -> Shelved
        ensures answer { IfSome (files self.old) (λ held. TellsOf result (bytes_of held path.now)) }
        ensures files_stay { files self.new ≡ files self.old }
        ensures rising { IfSome (files self.new) IsRisingByPath }
        ensures faults_stay { faults self.old ≤ faults self.new }
        ensures faults_fit { faults self.new < 2 ^ 64 }
        ensures failed { result ≡ Shelved.Failed → Rose (faults self.old) (faults self.new) }
        ensures no_memory { result ≡ Shelved.NoMemory → faults self.new ≡ faults self.old };

    /// Sets a path to the bytes, and leaves all other paths.
    fn write(&mut self, alloc: Global, path: &Text, bytes: &[u8]) -> Stored
        ensures files { files self.new
            ≡ option_map (λ held. files_after result held path.now bytes.now) (files self.old) }
        ensures rising { IfSome (files self.new) IsRisingByPath }
        ensures faults_stay { faults self.old ≤ faults self.new }
        ensures faults_fit { faults self.new < 2 ^ 64 }
        ensures failed { result ≡ Stored.Failed → Rose (faults self.old) (faults self.new) }
        ensures no_memory { result ≡ Stored.NoMemory → faults self.new ≡ faults self.old };
}
