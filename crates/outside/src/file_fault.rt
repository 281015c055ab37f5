ghost use Rattle.std.specs.Prelude.{◌≡◌};

use std::alloc::AllocError;
use std::io;

/// Why a file was not read, or not saved.
#[derive(Clone, Copy)]
pub(crate) enum FileFault {
    System,
    NoMemory,
}

impl From<io::Error> for FileFault {
    ghost use Rattle.outside.specs.declared.file_fault.FileFault.TheVariants.{System};

    ghost from_gives = { λ _ fault. fault ≡ System };

    fn from(_error: io::Error) -> FileFault {
        FileFault::System
    }
}

impl From<AllocError> for FileFault {
    ghost use Rattle.outside.specs.declared.file_fault.FileFault.TheVariants.{NoMemory};

    ghost from_gives = { λ _ fault. fault ≡ NoMemory };

    fn from(_error: AllocError) -> FileFault {
        FileFault::NoMemory
    }
}
