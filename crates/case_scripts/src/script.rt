ghost use Rattle.std.specs.Prelude.{◌≡◌, ◌≢◌, Ok, Err, IfOk, IfErr, option_map};
ghost use Rattle.case_scripts.specs.Inner.{IsProper, IsTakenAs, said_view};
ghost use Rattle.case_scripts.specs.Script.{blank, script_of, with_said, with_shelf, with_turns};
ghost use Rattle.case_scripts.specs.Shelf.{settled};

use crate::said::{Said, Way, said_of};
use crate::shelf::ShelfSaid;
use crate::side::Side;
use crate::turns::TurnsSaid;
use case_lines::{content_of, first_line};
use plain_text::NoMemory;
use std::alloc::Global;
use std::mem;

/// What a script says: the two ends of a run, the status that it ends with, its shelf, and the turns of its
/// plugins.
#[derive(Drop)]
pub struct Script {
    pub input: Side,
    pub output: Side,
    pub status: u8,
    pub shelf: ShelfSaid,
    pub turns: TurnsSaid,
}

/// Why a text is no script.
#[derive(Clone, Copy)]
pub enum ReadFault {
    /// The line with this number, from 1, says nothing that a script can say.
    BadLine(u64),
    /// No memory was left for the script.
    NoMemory,
}

/// The script that a text is.
pub fn read_script(alloc: Global, text: &[u8]) -> Result<Script, ReadFault>
    ensures says { IfOk result (λ script. script_of text.now ≡ Ok script) }
    ensures refused { IfErr result (λ fault. fault ≢ ReadFault.NoMemory → script_of text.now ≡ Err fault) }
{
    let mut script = Script::new(alloc);
    let mut rest = text;
    let mut number: u64 = 0;
    while !rest.is_empty() {
        let (line, later) = first_line(rest);
        number += 1;
        let Some(said) = said_of(content_of(line)) else {
            return Err(ReadFault::BadLine(number));
        };
        match script.take(alloc, said) {
            Ok(true) => rest = later,
            Ok(false) => return Err(ReadFault::BadLine(number)),
            Err(_) => return Err(ReadFault::NoMemory),
        }
    }
    if script.turns.begun.is_some() {
        return Err(ReadFault::BadLine(number + 1));
    }
    match script.settled() {
        Ok(script) => Ok(script),
        Err(_) => Err(ReadFault::NoMemory),
    }
}

impl Script {
    fn new(alloc: Global) -> Script
        ensures { result ≡ blank }
    {
        Script {
            input: Side::new(alloc),
            output: Side::new(alloc),
            status: 0,
            shelf: ShelfSaid::new(alloc),
            turns: TurnsSaid::new(alloc),
        }
    }

    /// With the last file put to the others.
    fn settled(self) -> Result<Script, NoMemory>
        ensures { IfOk result (λ script. script ≡ with_shelf self (settled self.shelf)) }
    {
        let Script {
            input,
            output,
            status,
            shelf,
            turns,
        } = self;
        Ok(Script {
            input,
            output,
            status,
            shelf: shelf.settled()?,
            turns,
        })
    }

    /// Takes what a line says; whether it may stand there.
    fn take(&mut self, alloc: Global, said: Said<'_>) -> Result<bool, NoMemory>
        requires { IsProper (said_view said) }
        ensures { IfOk result (IsTakenAs self.new (with_said self.old (said_view said.entry))) }
    {
        match said {
            Said::File(when, path) => {
                let shelf = mem::replace(&mut self.shelf, ShelfSaid::new(alloc));
                Ok(self.put_shelf(shelf.with_name(alloc, when, path)?))
            }
            Said::Held(text, end) => {
                let shelf = mem::replace(&mut self.shelf, ShelfSaid::new(alloc));
                Ok(self.put_shelf(shelf.with_text(text, end)?))
            }
            Said::ShelfFails(call) => {
                let shelf = mem::replace(&mut self.shelf, ShelfSaid::new(alloc));
                Ok(self.put_shelf(Some(shelf.with_failing(call)?)))
            }
            Said::Turn(caller, mark) => {
                let turns = mem::replace(&mut self.turns, TurnsSaid::new(alloc));
                Ok(self.put_turns(turns.with_mark(alloc, caller, mark)?))
            }
            Said::Remark => Ok(true),
            Said::Side(Way::Input, part) => {
                self.input.take(part)?;
                Ok(true)
            }
            Said::Side(Way::Output, part) => {
                self.output.take(part)?;
                Ok(true)
            }
            Said::Status(status) => {
                self.status = status;
                Ok(true)
            }
        }
    }

    /// Takes what is said of the shelf, if it may be said.
    fn put_shelf(&mut self, shelf: Option<ShelfSaid>) -> bool
        ensures { IsTakenAs self.new (option_map (with_shelf self.old) shelf) result }
    {
        match shelf {
            Some(shelf) => {
                self.shelf = shelf;
                true
            }
            None => false,
        }
    }

    /// Takes what is said of turns, if it may be said.
    fn put_turns(&mut self, turns: Option<TurnsSaid>) -> bool
        ensures { IsTakenAs self.new (option_map (with_turns self.old) turns) result }
    {
        match turns {
            Some(turns) => {
                self.turns = turns;
                true
            }
            None => false,
        }
    }
}
