ghost use Rattle.std.specs.Prelude.{◌≡◌, ◌↔◌};
ghost use Rattle.xi_core.specs.Words.{said_text};

use crate::words::Invocation;

const VERSION: &str = "xi_core 0.1.0";

const USAGE: &str = "usage: xi_core [alone | storm N SEED | replay FOLDER]";

const HELP: &str = "usage: xi_core [alone | storm N SEED | replay FOLDER]

Without words it serves one front end: reads its JSON lines from standard input, and answers on standard output.
The front end is served on the first thread, and each plugin on a thread of its own; the output is written by whichever entry comes.
With alone all are served on one thread: after each line each plugin has its turn, and then the next line is read.
Files are opened and saved under the paths that it names; a relative one counts from where the core was started.
A plugin marks each TODO in bold, in the first 1,048,576 bytes of a text.

storm N SEED types N lines of its own, at most 1,000,000, drawn by SEED, below 2^64, and tells what they came to.
All is in memory: nothing is read, and no file is opened. A plugin types a * beside them after each eighth update.

With --no-plugins before these words there is no plugin. With --record FOLDER before the words of a run, or before none,
what came in and what was made of it are saved in that folder when it ends, as the files tape and journal. Then
replay FOLDER writes what the run wrote, and opens and saves nothing. A storm is not recorded.
Ends with status 0 at the input's end; 2 for other words, and where a replay goes another way; 3 where memory runs out; 4 and 5 where
the input or the output failed; 6 after 2^40 lines; 7 for a line of 2^24 bytes without LF.

Asked --version it tells which one it is, asked --methods what lines may ask, and asked --help this.";

/// Where a text goes.
#[derive(Clone, Copy)]
pub enum Stream {
    Output,
    Error,
}

/// What the program says of itself.
pub fn said_text(invocation: Invocation) -> &'static str
    ensures { result.now ≡ said_text invocation }
{
    match invocation {
        Invocation::Help => HELP,
        Invocation::Version => VERSION,
        Invocation::Methods
        | Invocation::Run(_, _)
        | Invocation::Record(_, _)
        | Invocation::Replay => "",
        Invocation::Misused => USAGE,
    }
}

/// Where it says that: what was asked for goes to standard output, what was not to standard error.
pub fn stream_of(invocation: Invocation) -> Stream
    ensures { (result ≡ Stream.Error) ↔ (invocation ≡ Invocation.Misused) }
{
    match invocation {
        Invocation::Misused => Stream::Error,
        _ => Stream::Output,
    }
}
