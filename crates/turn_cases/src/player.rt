//! A plugin that plays a part, and keeps what it was given.

use plain_text::{NoMemory, Text, Texts};
use std::alloc::Global;
use xi_top::{Plugin, Turn};

// A plugin's part: turns, parted by bars, of lines, of which a full stop says that it is done; and then so often this line in each turn.
#[derive(Clone, Copy)]
pub(crate) struct Part {
    pub(crate) turns: &'static str,
    pub(crate) line: &'static str,
    pub(crate) count: u32,
}

#[derive(Drop)]
pub(crate) struct Player {
    // The last first.
    turns: Vec<Turn>,
    line: &'static str,
    count: u32,
    // Its turns, each line with an LF, and a bar behind each turn.
    pub(crate) given: Text,
    // How many lines each had.
    pub(crate) counts: Vec<usize>,
    alloc: Global,
}

fn turn_of(alloc: Global, lines: &str) -> Result<Turn, NoMemory> {
    let mut turn = Turn {
        lines: Texts::new(alloc),
        done: false,
    };
    for line in lines.split('\n') {
        match line {
            "" => {}
            "." => turn.done = true,
            _ => turn.lines.push(Text::from_str(alloc, line)?)?,
        }
    }
    Ok(turn)
}

impl Player {
    pub(crate) fn new(alloc: Global, part: Part) -> Result<Player, NoMemory> {
        let mut turns = Vec::new(alloc);
        if !part.turns.is_empty() {
            for lines in part.turns.split('|') {
                turns.push(turn_of(alloc, lines)?)?;
            }
        }
        turns.reverse();
        Ok(Player {
            turns,
            line: part.line,
            count: part.count,
            given: Text::new(alloc),
            counts: Vec::new(alloc),
            alloc,
        })
    }

    fn keep(&mut self, lines: &[Text]) -> Result<(), NoMemory> {
        self.counts.push(lines.len())?;
        for line in lines {
            self.given.push_str(line.as_str())?;
            self.given.push('\n')?;
        }
        self.given.push('|')
    }

    fn again(&self) -> Result<Texts, NoMemory> {
        let mut lines = Texts::new(self.alloc);
        for _ in 0..self.count {
            lines.push(Text::from_str(self.alloc, self.line)?)?;
        }
        Ok(lines)
    }
}

impl Plugin for Player {
    ghost use Rattle.std.specs.Prelude.{None};

    ghost told = { λ p. None };

    fn turn(&mut self, lines: &[Text]) -> Turn {
        let _kept = self.keep(lines);
        match self.turns.pop() {
            Some(turn) => turn,
            None => Turn {
                lines: self.again().unwrap_or(Texts::new(self.alloc)),
                done: false,
            },
        }
    }
}
