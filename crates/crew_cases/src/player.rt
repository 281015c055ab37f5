// A plugin that plays a list of turns, then the same turn again and again, and keeps what it was given.
use plugin_session::{NoMemory, Plugin, Text, Texts, Turn};
use std::alloc::Global;

#[derive(Drop)]
pub(crate) struct Player {
    // The last first.
    turns: Vec<Turn>,
    // What it gives once these are used up: so often this line.
    line: &'static str,
    count: u32,
    pub(crate) given: Text,
    alloc: Global,
}

// A plugin's part: turns, parted by slashes, of words, of which a full stop says that it is done; and then so often this line in each turn.
#[derive(Clone, Copy)]
pub(crate) struct Part {
    pub(crate) turns: &'static str,
    pub(crate) line: &'static str,
    pub(crate) count: u32,
}

fn turn_of(alloc: Global, words: &str) -> Result<Turn, NoMemory> {
    let mut turn = Turn {
        lines: Texts::new(alloc),
        done: false,
    };
    for word in words.split(' ') {
        match word {
            "" => {}
            "." => turn.done = true,
            _ => turn.lines.push(Text::from_str(alloc, word)?)?,
        }
    }
    Ok(turn)
}

impl Player {
    pub(crate) fn new(alloc: Global, part: Part) -> Result<Player, NoMemory> {
        let mut turns = Vec::new(alloc);
        for words in part.turns.split('/') {
            if !words.is_empty() {
                turns.push(turn_of(alloc, words)?)?;
            }
        }
        turns.reverse();
        Ok(Player {
            turns,
            line: part.line,
            count: part.count,
            given: Text::new(alloc),
            alloc,
        })
    }

    // A turn in brackets, the first line by a word.
    fn keep(&mut self, lines: &[Text]) -> Result<(), NoMemory> {
        self.given.push('(')?;
        for line in lines {
            let line = line.as_str();
            let short = if line.starts_with('{') { "start" } else { line };
            self.given.push_str(short)?;
            self.given.push(' ')?;
        }
        self.given.push(')')
    }

    fn again(&self) -> Result<Texts, NoMemory> {
        let mut lines = Texts::new(self.alloc);
        for _ in 0..self.count {
            lines.push(Text::from_str(self.alloc, self.line)?)?;
        }
        Ok(lines)
    }
}

impl Plugin for Player {
    ghost use Rattle.std.specs.Prelude.{None};

    ghost told = { λ p. None };

    fn turn(&mut self, lines: &[Text]) -> Turn {
        let _kept = self.keep(lines);
        match self.turns.pop() {
            Some(turn) => turn,
            None => Turn {
                lines: self.again().unwrap_or(Texts::new(self.alloc)),
                done: false,
            },
        }
    }
}
