ghost use Rattle.std.specs.Prelude.{◌≡◌};

use std::alloc::AllocError;
use std::error::Error;
use std::fmt;

/// Why ranges make no subset.
#[derive(Clone, Copy, Debug, PartialEq, Eq)]
pub enum SubsetFault {
    /// The range with this index is the first that has its start above its end, starts below the end of the range before, or
    /// ends past the length.
    Bad(usize),
    NoMemory,
}

impl fmt::Display for SubsetFault {
    ghost use Rattle.std.specs.Prelude.{Some};
    ghost use Rattle.subset_runs.specs.SubsetFault.{fault_text};

    ghost output = { λ fault. Some (fault_text fault) };

    fn fmt<W: fmt::Write>(&self, f: &mut fmt::Formatter<W>) -> fmt::Result {
        match self {
            SubsetFault::Bad(index) => write!(f, "range {index} is at fault"),
            SubsetFault::NoMemory => f.write_str("out of memory"),
        }
    }
}

impl Error for SubsetFault {}

impl From<AllocError> for SubsetFault {
    ghost use Rattle.subset_runs.specs.declared.fault.SubsetFault.TheVariants.{NoMemory};

    ghost from_gives = { λ _ fault. fault ≡ NoMemory };

    fn from(_: AllocError) -> Self {
        SubsetFault::NoMemory
    }
}
