ghost use Rattle.std.specs.Prelude.{◌≡◌};

use crate::delta::Misfit;
use plain_text::NoMemory;
use std::alloc::AllocError;
use std::error::Error;
use std::fmt;

/// Why an edit is not taken. They are looked for in this order. Each but want of memory is a refusal of the definitions.
#[derive(Clone, Copy, Debug, PartialEq, Eq, Drop)]
pub enum EditFault {
    /// The base is above this revision, the head.
    Unknown(u64),
    /// The base is below this revision, the floor.
    Collected(u64),
    /// The delta does not fit the text of its base: its first misfit.
    Misfit(Misfit),
    /// So many characters would have been inserted after loading, with those of this edit, which is more than the limit. A delta may
    /// name more of them than 64 bits count.
    Spent(u128),
    NoMemory,
}

impl fmt::Display for EditFault {
    ghost use Rattle.std.specs.Prelude.{Some};
    ghost use Rattle.plain_edits.specs.EditFault.{edit_fault_text};

    ghost output = { λ fault. Some (edit_fault_text fault) };

    fn fmt<W: fmt::Write>(&self, f: &mut fmt::Formatter<W>) -> fmt::Result {
        match self {
            EditFault::Unknown(head) => write!(f, "unknown base: the head is {head}"),
            EditFault::Collected(floor) => write!(f, "collected base: the floor is {floor}"),
            EditFault::Misfit(first) => {
                let kind = first.kind;
                let at = first.at;
                write!(f, "misfit of kind {kind} at {at}")
            }
            EditFault::Spent(total) => write!(f, "spent: {total} characters in all"),
            EditFault::NoMemory => f.write_str("out of memory"),
        }
    }
}

impl Error for EditFault {}

impl From<NoMemory> for EditFault {
    ghost use Rattle.plain_edits.specs.declared.fault.EditFault.TheVariants.{NoMemory};

    ghost from_gives = { λ _ fault. fault ≡ NoMemory };

    fn from(_error: NoMemory) -> EditFault {
        EditFault::NoMemory
    }
}

impl From<AllocError> for EditFault {
    ghost use Rattle.plain_edits.specs.declared.fault.EditFault.TheVariants.{NoMemory};

    ghost from_gives = { λ _ fault. fault ≡ NoMemory };

    fn from(_error: AllocError) -> EditFault {
        EditFault::NoMemory
    }
}
