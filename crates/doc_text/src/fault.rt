ghost use Rattle.std.specs.Prelude.{◌≡◌};
ghost use Rattle.doc_text.specs.Fault.{member_name};

use plain_edits::{EditFault, Misfit};
use plain_text::NoMemory;
use stale_spans::{Misplaced, SpansFault};
use std::error::Error;
use std::fmt;

/// Why an event is refused. They are looked for in this order.
#[derive(Clone, Copy, Debug, PartialEq, Eq, Drop)]
pub enum DocFault {
    /// The revision that an edit, spans, a reading or an acknowledgement names is above this one, the head.
    Unknown(u64),
    /// The revision that an edit, spans, a reading or an acknowledgement names is below this one, the floor.
    Collected(u64),
    /// The delta does not fit the text of its base: its first misfit.
    Misfit(Misfit),
    /// So many characters would have been inserted after loading, which is more than the limit.
    Spent(u128),
    /// The first of `start`, `len` and `spans` that is no place of the text that the spans are for, or `start` of a reading.
    BadParams(Misplaced),
    NoMemory,
}

impl fmt::Display for DocFault {
    ghost use Rattle.std.specs.Prelude.{Some};
    ghost use Rattle.doc_text.specs.Fault.{doc_fault_text};

    ghost output = { λ fault. Some (doc_fault_text fault) };

    fn fmt<W: fmt::Write>(&self, f: &mut fmt::Formatter<W>) -> fmt::Result {
        match self {
            DocFault::Unknown(head) => fmt::Display::fmt(&EditFault::Unknown(*head), f),
            DocFault::Collected(floor) => fmt::Display::fmt(&EditFault::Collected(*floor), f),
            DocFault::Misfit(first) => fmt::Display::fmt(&EditFault::Misfit(*first), f),
            DocFault::Spent(total) => fmt::Display::fmt(&EditFault::Spent(*total), f),
            DocFault::BadParams(member) => {
                let name = member_name(*member);
                write!(f, "no place of the text: {name}")
            }
            DocFault::NoMemory => fmt::Display::fmt(&EditFault::NoMemory, f),
        }
    }
}

impl Error for DocFault {}

impl From<NoMemory> for DocFault {
    ghost use Rattle.doc_text.specs.declared.fault.DocFault.TheVariants.{NoMemory};

    ghost from_gives = { λ _ fault. fault ≡ NoMemory };

    fn from(_error: NoMemory) -> DocFault {
        DocFault::NoMemory
    }
}

impl From<EditFault> for DocFault {
    ghost use Rattle.doc_text.specs.Fault.{of_edit_fault};

    ghost from_gives = { λ given fault. fault ≡ of_edit_fault given };

    fn from(given: EditFault) -> DocFault {
        match given {
            EditFault::Unknown(head) => DocFault::Unknown(head),
            EditFault::Collected(floor) => DocFault::Collected(floor),
            EditFault::Misfit(first) => DocFault::Misfit(first),
            EditFault::Spent(total) => DocFault::Spent(total),
            EditFault::NoMemory => DocFault::NoMemory,
        }
    }
}

impl From<SpansFault> for DocFault {
    ghost use Rattle.doc_text.specs.Fault.{of_spans_fault};

    ghost from_gives = { λ given fault. fault ≡ of_spans_fault given };

    fn from(given: SpansFault) -> DocFault {
        match given {
            SpansFault::Misplaced(member) => DocFault::BadParams(member),
            SpansFault::NoMemory => DocFault::NoMemory,
        }
    }
}

// As an event names it.
fn member_name(member: Misplaced) -> &'static str
    ensures { result.now ≡ member_name member }
{
    match member {
        Misplaced::Start => "start",
        Misplaced::Len => "len",
        Misplaced::Spans => "spans",
    }
}
