//! Runs scripts of the front-end protocol, and prints for each one whether its run did what it says.
//!
//! A script is a file `NAME.script` of the folder that the program's one word names, or of the one that it runs in, or of a folder in
//! that one; the files are taken in the order of their paths. Each line begins with its mark:
//!
//! | line | says |
//! |---|---|
//! | `> {"method":"undo"}` | a line of the input, to which LF is added |
//! | `>| {"method"` | bytes of the input without LF |
//! | `>* 16777216` | so many bytes `a` of the input, without LF |
//! | `< {"id":0,"result":null}` | a line of the output, with its LF |
//! | `<| {"id":0` | bytes of the output without LF |
//! | `= 5` | the status that the run ends with; 0 where no line says it |
//! | `! read 1` | the first read of the input fails; so may several ones, each in a line |
//! | `! write 3` | the third write of the output fails |
//! | `! shelf 2` | the second call of the shelf fails, which reads a file or writes one |
//! | `! read piece 7` | a read gives at most 7 bytes |
//! | `! write piece 7` | a write takes at most 7 bytes |
//! | `@ notes.txt` | a file of the shelf: its bytes before the run are the lines below; its path ends where the line does |
//! | `@= notes.txt` | the file holds the lines below after the run |
//! | `@- notes.txt` | there is no such file after the run |
//! | `@> text` | a line of the file that was named last, with its LF |
//! | `@| text` | bytes of that file without LF |
//! | `1< {"method":"shutdown","params":{}}` | a line that plugin 1 is given in its turn |
//! | `1> {"id":1,"method":"edit"}` | a line that it then gives back |
//! | `1.` | the end of that turn; `1!` its end, and the plugin is done |
//! | `# remark` | nothing |
//!
//! The lines of input and output may stand in any order among one another: a script says all that is read, and all that is written, which
//! turns each plugin has, and which files there are after the run. A file that it gives, and of which it says nothing then, is to be as it was. A
//! plugin plays its turns in their order, and gives nothing once they are used up; each has to be given the lines of its turn, and a turn that
//! the script does not have fails the case. Plugins have the numbers 1, 2, .., at most 64, and that of a first turn is the next one at most.
//!
//! A case fails where another byte is written, a turn or a file is another one, there is a file of which nothing is said, or the run ends with
//! another status; what is told is the first of these, and its first line. It fails too at a line that is none of these, or may not stand there: that
//! names a file before the run, or after it, that was named so before; that has bytes of a file where none is named that holds some; that gives a
//! plugin a line in the turn of another one, or behind what it gave; that gives a line back before one was given; or that is not there, since a
//! turn is not ended.
//!
//! The program ends with status 0 where there is a script and each case passes, else with 1. A new case is a new file, and its line in
//! what has to be printed.
#![tactic(auto)]

mod case;
mod files;
mod player;
mod tally;
mod turn_fault;
mod verdict;

use anyhow::bail;
use std::env;
use std::process::ExitCode;

fn main(rt: HostRuntime) -> anyhow::Result<ExitCode> {
    let folder = folder(&rt)?;
    let mut verdicts = Vec::new(rt.alloc());
    for file in files::script_names(&rt, folder.as_str())?.as_slice() {
        let verdict = files::run_file(&rt, folder.as_str(), file.as_str())?;
        verdicts.push(verdict)?;
    }
    if verdicts.is_empty() {
        eprintln!(rt; "no script in {folder}")?;
    }
    Ok(ExitCode::from(tally::exit_status(&verdicts)))
}

/// The folder that the one word names, or the one that the program runs in.
fn folder(rt: &HostRuntime) -> anyhow::Result<String> {
    let mut words = env::args(rt)?.skip(1);
    let Some(folder) = words.next() else {
        return Ok(String::from_str(rt.alloc(), ".")?);
    };
    if words.next().is_some() {
        bail!("usage: protocol_cases [FOLDER]");
    }
    Ok(folder)
}
