ghost use Rattle.std.specs.Prelude.{◌≡◌};
ghost use Rattle.plugin_crew.specs.declared.took.Took.{Took};
ghost use Rattle.xi_top.specs.Reads.{ReadsLines};
ghost use Rattle.xi_top.specs.InnerRun.{Enters, ended_by};

use crate::ending::Ending;
use plugin_crew::{LineTaker, Took};
use xi_plain::Bytes;

/// Enters a line. After an `Err` it was not taken, or its entry was not sent, and the run ends so.
pub fn enter<L: LineTaker>(taker: &mut L, line: Bytes) -> Result<(), Ending>
    requires ready { L.ready taker.old }
    requires reads { ReadsLines (L.serves taker.old) }
    ensures ready { L.ready taker.new }
    ensures later { L.later taker.old taker.new }
    ensures entered { Enters (L.seen taker.old) (L.seen taker.new) line result }
{
    ended_by(taker.take(line))
}

/// How a run ends by what came of a line, if it does.
fn ended_by(took: Took) -> Result<(), Ending>
    ensures { result ≡ ended_by took }
{
    match took {
        Took::Taken => Ok(()),
        Took::Fault | Took::Closed => Err(Ending::SinkFault),
        Took::NoMemory => Err(Ending::NoMemory),
    }
}
