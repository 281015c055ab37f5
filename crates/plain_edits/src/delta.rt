ghost use Rattle.std.specs.Prelude.{◌≡◌, ◌+◌, ◌^◌, ◌≤◌};
ghost use Rattle.plain_edits.specs.Delta.{inserted_len};

use plain_text::{List, NoMemory, Runs, Text, TryClone};
use std::alloc::Global;

/// An element of a delta on the wire, over a base text. Offsets are bytes of UTF-8.
#[derive(PartialEq, Eq, Drop)]
pub enum El {
    /// Keeps the characters from offset `a` up to offset `b`.
    Copy { a: u64, b: u64 },
    /// Adds a text at the gap where the last copy before it ends, or at the start.
    Insert { text: Text },
}

/// The elements of a delta on the wire, in order.
pub type Els = List<El>;

/// An edit as it stands on the wire: what is in no copy is deleted.
#[derive(PartialEq, Eq, Drop)]
pub struct Delta {
    pub els: Els,
    /// The length of the base text, in bytes.
    pub base_len: u64,
}

/// Why a delta does not fit a text.
///
/// | kind | where | `at` |
/// |---|---|---|
/// | 1 | the base length is not the length of the text | the base length |
/// | 2 | a copy ends before it starts, or starts before the copy before it ends | its start |
/// | 3 | a copy ends past the text | its end |
/// | 4 | an end of a copy is inside a character | the first such end |
#[derive(Clone, Copy, Debug, PartialEq, Eq)]
pub struct Misfit {
    pub kind: u8,
    pub at: u64,
}

/// A text that is added at a gap.
#[derive(PartialEq, Eq, Drop)]
pub struct Added {
    pub gap: u64,
    pub text: Text,
}

/// Texts that are added, in the order of their gaps.
pub type Adds = List<Added>;

/// An edit in characters: what is in no run of `kept` is deleted.
#[derive(PartialEq, Eq, Drop)]
pub struct UnitDelta {
    /// The length of the base text, in characters.
    pub base: u64,
    pub kept: Runs,
    pub added: Adds,
}

impl Delta {
    /// How many characters the edit inserts, in the time of its texts. They need not fit 64 bits.
    pub fn inserted_len(&self) -> u128
        ensures total { result ≡ inserted_len self.now.els }
        ensures room { result + 2 ^ 64 ≤ 2 ^ 128 }
    {
        inserted_len(self.els.as_slice())
    }
}

fn inserted_len(els: &[El]) -> u128
    ensures total { result ≡ inserted_len els.now }
    ensures room { result + 2 ^ 64 ≤ 2 ^ 128 }
{
    let mut total: u128 = 0;
    for el in els {
        if let El::Insert { text } = el {
            total += u128::from(text.char_count());
        }
    }
    total
}

impl TryClone for El {
    fn copy(&self, alloc: Global) -> Result<El, NoMemory> {
        match self {
            El::Copy { a, b } => Ok(El::Copy { a: *a, b: *b }),
            El::Insert { text } => Ok(El::Insert {
                text: text.copy(alloc)?,
            }),
        }
    }
}

impl TryClone for Delta {
    fn copy(&self, alloc: Global) -> Result<Delta, NoMemory> {
        Ok(Delta {
            els: self.els.copy(alloc)?,
            base_len: self.base_len,
        })
    }
}

impl TryClone for Added {
    fn copy(&self, alloc: Global) -> Result<Added, NoMemory> {
        Ok(Added {
            gap: self.gap,
            text: self.text.copy(alloc)?,
        })
    }
}

impl TryClone for UnitDelta {
    fn copy(&self, alloc: Global) -> Result<UnitDelta, NoMemory> {
        Ok(UnitDelta {
            base: self.base,
            kept: self.kept.copy(alloc)?,
            added: self.added.copy(alloc)?,
        })
    }
}
