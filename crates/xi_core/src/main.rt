//! The program: the core of the xi editor over standard input and output.
#![tactic(auto)]

mod methods;
mod program;
mod replaying;
mod taped;
mod texts;
mod words;

use std::process::ExitCode;

fn main(rt: HostRuntime) -> ExitCode {
    program::status(&rt, &rt)
}
