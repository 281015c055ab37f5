// A plugin that plays a list of turns, and keeps what it was given.
use plugin_session::{Plugin, Text, Texts, Turn};
use std::alloc::Global;
use xi_plain::NoMemory;

const START: &str = r#"{"method":"initialize","params":{"plugin_id":1}}"#;

#[derive(Drop)]
pub(crate) struct Player {
    // The last first.
    turns: Vec<Turn>,
    given: Text,
    alloc: Global,
}

// The first line in one word.
fn short(line: &str) -> &str {
    if line == START { "start" } else { line }
}

// The lines of words, of which a full stop says that the plugin is done.
fn turn_of(alloc: Global, words: &str) -> Result<Turn, NoMemory> {
    let mut turn = Turn {
        lines: Texts::new(alloc),
        done: false,
    };
    for word in words.split(' ') {
        match word {
            "" => {}
            "." => turn.done = true,
            _ => turn.lines.push(Text::from_str(alloc, word)?)?,
        }
    }
    Ok(turn)
}

impl Player {
    // The turns are parted by slashes.
    pub(crate) fn new(alloc: Global, script: &str) -> Result<Player, NoMemory> {
        let mut turns = Vec::new(alloc);
        for words in script.split('/') {
            turns.push(turn_of(alloc, words)?)?;
        }
        turns.reverse();
        Ok(Player {
            turns,
            given: Text::new(alloc),
            alloc,
        })
    }

    // What it was given, a turn in brackets.
    pub(crate) fn given(&self) -> &str {
        self.given.as_str()
    }

    fn keep(&mut self, lines: &[Text]) -> Result<(), NoMemory> {
        self.given.push('(')?;
        for line in lines {
            self.given.push_str(short(line.as_str()))?;
            self.given.push(' ')?;
        }
        self.given.push(')')
    }
}

impl Plugin for Player {
    ghost use Rattle.std.specs.Prelude.{None};

    ghost told = { λ p. None };

    fn turn(&mut self, lines: &[Text]) -> Turn {
        let _kept = self.keep(lines);
        match self.turns.pop() {
            Some(turn) => turn,
            None => Turn {
                lines: Texts::new(self.alloc),
                done: false,
            },
        }
    }
}
