ghost use Rattle.std.specs.Prelude.{◌≡◌};
ghost use Rattle.core_session.specs.Grown.{are_sent};
ghost use Rattle.xi_top.specs.Ending.{settled, status_of};

use crate::ending::Ending;
use xi_plain::Entry;

/// The status of a run that ended so, where its journal is this: that of a [`Report`](crate::Report).
pub fn status_for(outcome: Result<(), Ending>, journal: &[Entry]) -> u8
    ensures { result ≡ status_of (settled outcome (are_sent journal.now)) }
{
    status_of(settled(outcome, journal))
}

/// How a run ended that ended so, where its journal is this: an entry that was not sent ends it for that, and not with its input.
fn settled(outcome: Result<(), Ending>, journal: &[Entry]) -> Result<(), Ending>
    ensures { result ≡ settled outcome (are_sent journal.now) }
{
    if outcome.is_ok() && !are_sent(journal) {
        return Err(Ending::SinkFault);
    }
    outcome
}

/// Whether each of the entries was sent.
fn are_sent(journal: &[Entry]) -> bool
    ensures { result ≡ are_sent journal.now }
{
    for entry in journal {
        if !entry.sent {
            return false;
        }
    }
    true
}

fn status_of(outcome: Result<(), Ending>) -> u8
    ensures { result ≡ status_of outcome }
{
    match outcome {
        Ok(()) => 0,
        Err(Ending::NoMemory) => 3,
        Err(Ending::SourceFault) => 4,
        Err(Ending::SinkFault) => 5,
        Err(Ending::TooMany) => 6,
        Err(Ending::TooLong) => 7,
    }
}
