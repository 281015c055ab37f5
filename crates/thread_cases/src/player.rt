//! A plugin that answers some of the lines that it is given by lines of its own.
use plain_text::{NoMemory, Text, Texts};
use std::alloc::Global;
use xi_top::{Plugin, Turn};

// What a plugin does: where a line that it is given has the first of a pair in it, it gives the second.
pub(crate) type Part = &'static [(&'static str, &'static str)];

// It keeps what it was given.
#[derive(Drop)]
pub(crate) struct Player {
    part: Part,
    pub(crate) given: Text,
    alloc: Global,
}

impl Player {
    pub(crate) fn new(alloc: Global, part: Part) -> Player {
        Player {
            part,
            given: Text::new(alloc),
            alloc,
        }
    }

    // What it gives for this line.
    fn answer(&self, line: &str, answers: &mut Texts) -> Result<(), NoMemory> {
        for pair in self.part {
            if line.contains(pair.0) {
                answers.push(Text::from_str(self.alloc, pair.1)?)?;
            }
        }
        Ok(())
    }

    fn answer_all(&mut self, lines: &[Text]) -> Result<Texts, NoMemory> {
        let mut answers = Texts::new(self.alloc);
        for line in lines {
            self.given.push_str(line.as_str())?;
            self.given.push('\n')?;
            self.answer(line.as_str(), &mut answers)?;
        }
        Ok(answers)
    }
}

impl Plugin for Player {
    ghost use Rattle.std.specs.Prelude.{None};

    ghost told = { λ p. None };

    fn turn(&mut self, lines: &[Text]) -> Turn {
        Turn {
            lines: self.answer_all(lines).unwrap_or(Texts::new(self.alloc)),
            done: false,
        }
    }
}
