ghost use Rattle.std.specs.Prelude.{◌≡◌};
ghost use Rattle.std.specs.Process.{exit_status};
ghost use Rattle.xi_core.specs.Words.{EndsReplay, replay_status};

use outside::{FileShelf, StdSink};
use plain_text::Text;
use run_folder::{Ending, replay_folder};
use std::process::ExitCode;

/// Writes again what the run wrote whose tape and journal are in this folder, up to the first entry that does not follow.
pub fn played(rt: &HostRuntime, folder: &Text) -> ExitCode
    ensures { EndsReplay (exit_status result) }
{
    let mut shelf = FileShelf::new(rt);
    let sink = StdSink::new(rt.stdout());
    let (ending, _sink) = replay_folder(rt.alloc(), &mut shelf, folder, sink);
    tell(rt, folder.as_str(), ending);
    ExitCode::from(replay_status(ending))
}

fn replay_status(ending: Ending) -> u8
    ensures { result ≡ replay_status ending }
{
    match ending {
        Ending::Whole => 0,
        Ending::Missing(_) | Ending::Unread(_) | Ending::NoEntry(_) | Ending::Differs(_) => 2,
        Ending::NoMemory => 3,
        Ending::SinkFault => 5,
    }
}

/// Tells on standard error what is wrong with the folder. Lines count from 1.
fn tell(rt: &HostRuntime, folder: &str, ending: Ending) {
    let _told = match ending {
        Ending::Whole | Ending::NoMemory | Ending::SinkFault => Ok(()),
        Ending::Missing(part) => eprintln!(rt; "xi_core: {folder}/{} is not there", part.name()),
        Ending::Unread(part) => eprintln!(rt; "xi_core: {folder}/{} can't be read", part.name()),
        Ending::NoEntry(at) => {
            let line = at.saturating_add(1);
            eprintln!(rt; "xi_core: {folder}/journal:{line}: this line is no entry")
        }
        Ending::Differs(at) => {
            let line = at.saturating_add(1);
            eprintln!(rt; "xi_core: {folder}/journal:{line}: this entry does not follow")
        }
    };
}
