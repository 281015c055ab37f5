ghost use Rattle.std.specs.Prelude.{◌≡◌, None, false};
ghost use Rattle.shipped_plugins.specs.Todo.{todo_start, todo_step};
ghost use Rattle.shipped_plugins.specs.Turns.{TurnHeeds, utf8_of};

use crate::marking::Marking;
use plain_text::{Text, Texts};
use plugin_session::{Plugin, Turn};
use std::alloc::Global;
use std::marker::Model;

/// Marks each `TODO` of each text that it is told of, in its first 1,048,576 bytes, and then acknowledges the revision. It is never done,
/// and passes over all else that it is handed.
#[derive(Drop)]
pub struct TodoMarks {
    marking: Marking,
    short: bool,
    alloc: Global,
}

impl Model for TodoMarks {
    ghost use Rattle.shipped_plugins.specs.Todo.{TodoState};
    ghost use Rattle.shipped_plugins.specs.Turns.{AfterTurns};

    ghost Value = { AfterTurns TodoState };

    ghost view = { λ p. record { state = p.marking; short = p.short } };
}

impl TodoMarks {
    /// It takes no memory before its first turn.
    pub fn new(alloc: Global) -> TodoMarks
        ensures state { result.state ≡ todo_start }
        ensures short { result.short ≡ false }
    {
        TodoMarks {
            marking: Marking::new(alloc),
            short: false,
            alloc,
        }
    }

    /// Whether its last turn was short of memory: it then heeded the first of its lines alone, and of what they ask it gave the first.
    pub fn is_short(&self) -> bool
        ensures { result ≡ self.now.short }
    {
        self.short
    }
}

impl Plugin for TodoMarks {
    ghost told = { λ _. None };

    /// Reads each text that the lines tell of, and marks each that they have. Short of memory it gives what was made by then, and the lines behind that are not heard.
    fn turn(&mut self, lines: &[Text]) -> Turn
        ensures heeds { TurnHeeds todo_step self.old self.new (utf8_of lines.now) (utf8_of result.lines) }
        ensures goes_on { result.done ≡ false }
    {
        let mut given = Texts::new(self.alloc);
        self.short = self.marking.heed(lines, &mut given).is_err();
        Turn {
            lines: given,
            done: false,
        }
    }
}
