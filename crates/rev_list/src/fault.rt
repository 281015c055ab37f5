ghost use Rattle.std.specs.Prelude.{◌≡◌};

use plain_edits::EditFault;
use plain_text::NoMemory;
use std::alloc::AllocError;
use std::error::Error;
use std::fmt;

/// Why a revision gives no answer.
#[derive(Clone, Copy, Debug, PartialEq, Eq)]
pub enum RevFault {
    /// The revision is above this one, the head.
    Unknown(u64),
    /// The revision is below this one, the floor.
    Collected(u64),
    NoMemory,
}

impl fmt::Display for RevFault {
    ghost use Rattle.std.specs.Prelude.{Some};
    ghost use Rattle.rev_list.specs.RevFault.{rev_fault_text};

    ghost output = { λ fault. Some (rev_fault_text fault) };

    fn fmt<W: fmt::Write>(&self, f: &mut fmt::Formatter<W>) -> fmt::Result {
        match self {
            RevFault::Unknown(head) => write!(f, "the head is revision {head}"),
            RevFault::Collected(floor) => write!(f, "the floor is revision {floor}"),
            RevFault::NoMemory => f.write_str("out of memory"),
        }
    }
}

impl Error for RevFault {}

impl From<AllocError> for RevFault {
    ghost use Rattle.rev_list.specs.declared.fault.RevFault.TheVariants.{NoMemory};

    ghost from_gives = { λ _ fault. fault ≡ NoMemory };

    fn from(_: AllocError) -> Self {
        RevFault::NoMemory
    }
}

impl From<NoMemory> for RevFault {
    ghost use Rattle.rev_list.specs.declared.fault.RevFault.TheVariants;

    ghost from_gives = { λ _ fault. fault ≡ TheVariants.NoMemory };

    fn from(_: NoMemory) -> Self {
        RevFault::NoMemory
    }
}

impl From<RevFault> for EditFault {
    ghost use Rattle.rev_list.specs.RevFault.{fault_of_base};

    ghost from_gives = { λ revision fault. fault ≡ fault_of_base revision };

    fn from(revision: RevFault) -> EditFault {
        match revision {
            RevFault::Unknown(head) => EditFault::Unknown(head),
            RevFault::Collected(floor) => EditFault::Collected(floor),
            RevFault::NoMemory => EditFault::NoMemory,
        }
    }
}
