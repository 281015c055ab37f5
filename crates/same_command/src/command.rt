ghost use Rattle.std.specs.Prelude.{◌≡◌, ◌↔◌, IsTrue};

use crate::act::is_same_act;
use crate::part::{are_same_bytes, is_same_text};
use xi_plain::{Command, Entry, Id, ShelfNote};

/// Whether two commands are the same.
pub fn is_same_command(one: &Command, other: &Command) -> bool
    ensures { IsTrue result ↔ (one.now ≡ other.now) }
{
    is_same_id(&one.id, &other.id) && is_same_act(&one.act, &other.act)
}

fn is_same_id(one: &Id, other: &Id) -> bool
    ensures { IsTrue result ↔ (one.now ≡ other.now) }
{
    match one {
        Id::NoId => match other {
            Id::NoId => true,
            _ => false,
        },
        Id::Num(number) => match other {
            Id::Num(next) => number == next,
            _ => false,
        },
        Id::Word(word) => match other {
            Id::Word(next) => is_same_text(word, next),
            _ => false,
        },
    }
}

/// Whether two entries are the same.
pub fn is_same_entry(one: &Entry, other: &Entry) -> bool
    ensures { IsTrue result ↔ (one.now ≡ other.now) }
{
    one.caller == other.caller
        && one.sent == other.sent
        && is_same_note(&one.shelf, &other.shelf)
        && is_same_command(&one.command, &other.command)
}

/// Whether two notes of a shelf are the same.
pub fn is_same_note(one: &ShelfNote, other: &ShelfNote) -> bool
    ensures { IsTrue result ↔ (one.now ≡ other.now) }
{
    match one {
        ShelfNote::Held(bytes) => match other {
            ShelfNote::Held(next) => are_same_bytes(bytes, next),
            _ => false,
        },
        ShelfNote::NoCall => matches!(other, ShelfNote::NoCall),
        ShelfNote::Absent => matches!(other, ShelfNote::Absent),
        ShelfNote::Failed => matches!(other, ShelfNote::Failed),
        ShelfNote::Done => matches!(other, ShelfNote::Done),
    }
}
