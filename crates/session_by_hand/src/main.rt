//! A session driven by hand: a core in memory, one call a line of standard input, and what each call comes to on standard output.
//!
//! So one can try what a plugin would be told without writing one, and compare a model of the protocol with the core over many sessions.
//!
//! | line | does | is answered |
//! |---|---|---|
//! | `plugins 2` | the first line: how many plugins there are, at most 64 | |
//! | `file NAME HEX` | a file of the shelf, before the first call: its bytes are HEX, none where that is empty. Its name has no space, is UTF-8, and comes once | |
//! | `0 LINE`, `1 LINE` | a line of the front end, or of plugin 1 | `= taken ANSWER`, or `= taken` where nothing is answered; `= refused ANSWER`; `= sinkfault`; `= closed`; `= nomemory`; then `> ` before each line that was written |
//! | `1 !end` | plugin 1 is done | the same |
//! | `0 !close` | the closing | the same |
//! | `1 !look 3` | the notices from entry 3 on, the first of which is 0 | `= notices NEXT OVER`, then `< ` before each: NEXT is where to look next, OVER is `true` where no more will come, else `false`; or `= nothing LEN`, where there are only LEN entries |
//!
//! LINE does not begin with `!`. The notice `shutdown` is that of the closing entry. The sink of the session is in memory and fails nowhere. At
//! most 2^40 characters may be inserted into a document, as in the program.
//!
//! Status 0 where each line was a call; 2 at a line of another form, whose number standard error has; 1 where memory runs out, or input or
//! output fails.
#![tactic(auto)]

mod call;
mod files;
mod hand;
mod said;
mod stage;

use crate::stage::Stage;
use std::io;
use std::io::{BufRead, BufReader, Write};
use std::process::ExitCode;

fn main(rt: HostRuntime) -> anyhow::Result<ExitCode> {
    let alloc = rt.alloc();
    let mut output = io::writer(&rt);
    let mut stage = Stage::First;
    let mut number: u64 = 0;
    for line in BufReader::new(alloc, rt.reader())?.split(alloc, b'\n') {
        let line = line?;
        number = number.saturating_add(1);
        let Some(step) = stage.after(alloc, &line)? else {
            eprintln!(rt; "line {number} is of no form")?;
            return Ok(ExitCode::from(2));
        };
        output.write_all(step.said.as_slice())?;
        stage = step.stage;
    }
    output.flush()?;
    Ok(ExitCode::SUCCESS)
}
