ghost use Rattle.std.specs.Prelude.{◌≡◌, [], ◌∷◌, ◌++◌, IfOk};
ghost use Rattle.plain_edits.specs.Edits.{with_deletion};

use plain_text::{List, NoMemory, TryClone};
use std::alloc::Global;
use std::marker::Model;

/// A character with the revision that inserted it and the revisions that delete it, which rise.
#[derive(Drop)]
pub struct Tagged {
    character: char,
    inserted: u64,
    deleted: List<u64>,
}

impl Model for Tagged {
    ghost use Rattle.plain_edits.specs.History.{Tagged as TaggedCharacter};

    ghost Value = { TaggedCharacter };

    ghost view = { λ t. record { character = t.character; inserted = t.inserted; deleted = t.deleted } };
}

impl Tagged {
    /// A character that this revision inserts and no revision deletes.
    pub fn new(alloc: Global, character: char, inserted: u64) -> Tagged
        ensures { result ≡ record { character = character; inserted = inserted; deleted = [] } }
    {
        Tagged {
            character,
            inserted,
            deleted: List::new(alloc),
        }
    }

    pub fn character(&self) -> char
        ensures { result ≡ self.now.character }
    {
        self.character
    }

    pub fn inserted(&self) -> u64
        ensures { result ≡ self.now.inserted }
    {
        self.inserted
    }

    pub fn deleted(&self) -> &[u64]
        ensures { result.now ≡ self.now.deleted }
    {
        self.deleted.as_slice()
    }

    /// The character, deleted by one more revision.
    pub fn with_deletion(&self, alloc: Global, rev: u64) -> Result<Tagged, NoMemory>
        ensures { IfOk result (λ made. made ≡ with_deletion rev self.now) }
    {
        let mut deleted = self.deleted.copy(alloc)?;
        deleted.push(rev)?;
        Ok(Tagged {
            character: self.character,
            inserted: self.inserted,
            deleted,
        })
    }
}

impl TryClone for Tagged {
    fn copy(&self, alloc: Global) -> Result<Tagged, NoMemory> {
        Ok(Tagged {
            character: self.character,
            inserted: self.inserted,
            deleted: self.deleted.copy(alloc)?,
        })
    }
}
