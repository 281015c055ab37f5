use plain_text::{NoMemory, Text};
use xi_plain::Misfit;

/// Why a book did not take a line. The book is as before.
#[derive(Debug, PartialEq, Eq, Drop)]
pub enum BookFault {
    /// The line is no notice, and no answer to an open ask that the book can use.
    Unread,
    /// An update or a closing names this view, which is not open.
    Unknown(Text),
    /// An update is of another revision than the next one. This is the last one taken.
    Gap(u64),
    /// A delta does not fit the text that it meets.
    Bad(Misfit),
    /// A text has this many bytes, and the line said another number.
    Length(u64),
    NoMemory,
}

impl From<NoMemory> for BookFault {
    ghost use Rattle.std.specs.Prelude.{◌≡◌};
    ghost use Rattle.plugin_mirror.specs.declared.fault.BookFault.TheVariants.{NoMemory};

    ghost from_gives = { λ _ fault. fault ≡ NoMemory };

    fn from(_error: NoMemory) -> BookFault {
        BookFault::NoMemory
    }
}
