//! Enters scripts of front-end lines into a session, in memory alone, and prints how many bytes each kind of line makes the core write.
//!
//! | words | the text, before the scripts |
//! |---|---|
//! | `lines N of M SCRIPT..` | N lines of M characters, each ended by LF |
//! | `line of N SCRIPT..` | one line of N characters, without LF |
//!
//! N and M are decimal, above 0 and below 2^64. Each script is a file of lines of the front end, and starts with a session of its own: a
//! view is opened, and the text is typed into it by one `insert`. What that writes is not counted.
//!
//! For each script a table is printed. A row has a method, or for a line that edits the method of `edit`, the number of its lines, how many of them
//! were refused, the bytes of their pieces, and the greatest piece; the last row is of all lines. A line that is no JSON, or names no method, is `unreadable`.
//!
//! Nothing stands on it. It says nothing of time, which is taken from outside; the bytes are the same at each run. Status 0; 2 where the
//! words are no form; 1 where a script cannot be read, memory runs out, or a session would write more than 2^40 bytes.
#![tactic(auto)]

ghost use Rattle.std.specs.Prelude.{◌≡◌, IfOk};
ghost use Rattle.std.specs.Process.{exit_status};
ghost use Rattle.session_load.specs.Words.{status_for, wish_in};

mod count;
mod count_sink;
mod kind;
mod load;
mod table;
mod text;
mod words;

use crate::count::Count;
use crate::load::run_script;
use crate::table::{Row, Table};
use crate::words::{Asked, asked_of, words};
use plain_text::Text;
use std::fs;
use std::process::ExitCode;

const USAGE: &str = "usage: session_load lines N of M SCRIPT.. | line of N SCRIPT..";

fn main(rt: HostRuntime) -> anyhow::Result<ExitCode> {
    let words = words(&rt)?;
    answered(&rt, words.as_slice())
}

/// Does what the words ask, or says what they may be.
fn answered(rt: &HostRuntime, words: &[Text]) -> anyhow::Result<ExitCode>
    ensures { IfOk result (λ status. exit_status status ≡ status_for (wish_in words.now)) }
{
    match asked_of(words) {
        Some(asked) => {
            run_all(rt, asked)?;
            Ok(ExitCode::SUCCESS)
        }
        None => {
            eprintln!(rt; "{USAGE}")?;
            Ok(ExitCode::from(2))
        }
    }
}

/// Runs each script on a session of its own, and prints its table.
fn run_all(rt: &HostRuntime, asked: Asked<'_>) -> anyhow::Result<()> {
    for script in asked.scripts {
        let lines = fs::read_to_string(rt, script.as_str())?;
        let table = run_script(rt.alloc(), asked.size, lines.as_str())?;
        println!(rt; "{script}")?;
        print_table(rt, &table)?;
    }
    Ok(())
}

fn print_table(rt: &HostRuntime, table: &Table) -> anyhow::Result<()> {
    println!(rt;
        "{:>8} {:>8} {:>10} {:>10} kind",
        "lines", "refused", "bytes", "greatest"
    )?;
    for row in table.rows.as_slice() {
        print_row(rt, row)?;
    }
    print_row(rt, &table.all)
}

fn print_row(rt: &HostRuntime, row: &Row) -> anyhow::Result<()> {
    let Row { kind, lines, count } = row;
    let Count {
        pieces: _,
        refusals: refused,
        bytes,
        greatest,
    } = *count;
    println!(rt; "{lines:>8} {refused:>8} {bytes:>10} {greatest:>10} {kind}")?;
    Ok(())
}
