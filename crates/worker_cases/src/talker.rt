// A plugin that says one line a turn, so often, and keeps what it said and what it was given.
use plugin_session::{NoMemory, Plugin, Text, Texts, Turn};
use std::alloc::Global;
use xi_plain::TryClone;

#[derive(Drop)]
pub(crate) struct Talker {
    // How many lines it says yet.
    left: u32,
    // Whether it is done then.
    ends: bool,
    // What each line is.
    line: &'static str,
    pub(crate) said: Texts,
    pub(crate) given: Texts,
    // Whether memory was wanting to keep all.
    pub(crate) lost: bool,
    alloc: Global,
}

impl Talker {
    // It says the line so often, and is done then, or waits for what comes.
    pub(crate) fn new(alloc: Global, line: &'static str, left: u32, ends: bool) -> Talker {
        Talker {
            left,
            ends,
            line,
            said: Texts::new(alloc),
            given: Texts::new(alloc),
            lost: false,
            alloc,
        }
    }

    fn keep(&mut self, lines: &[Text]) -> Result<(), NoMemory> {
        for line in lines {
            self.given.push(line.copy(self.alloc)?)?;
        }
        Ok(())
    }

    // The next line, which tells how many come after it.
    fn say(&mut self) -> Result<Texts, NoMemory> {
        let mut lines = Texts::new(self.alloc);
        if self.left > 0 {
            self.left -= 1;
            let line = Text::from_string(format!(in self.alloc; "{}{}", self.line, self.left)?);
            self.said.push(line.copy(self.alloc)?)?;
            lines.push(line)?;
        }
        Ok(lines)
    }
}

impl Plugin for Talker {
    ghost use Rattle.std.specs.Prelude.{None};

    ghost told = { λ p. None };

    fn turn(&mut self, lines: &[Text]) -> Turn {
        let kept = self.keep(lines).is_ok();
        let said = self.say();
        self.lost = self.lost || !kept || said.is_err();
        let done = self.ends && self.left == 0;
        match said {
            Ok(lines) => Turn { lines, done },
            Err(_) => Turn {
                lines: Texts::new(self.alloc),
                done,
            },
        }
    }
}
