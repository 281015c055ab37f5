ghost use Rattle.std.specs.Prelude.{◌≡◌, None, false};
ghost use Rattle.shipped_plugins.specs.Storm.{storm_start, storm_step};
ghost use Rattle.shipped_plugins.specs.Turns.{TurnHeeds, utf8_of};

use crate::counting::Counting;
use plain_text::{Text, Texts};
use plugin_session::{Plugin, Turn};
use std::alloc::Global;
use std::marker::Model;

/// Edits, at each eighth notice of a change, the text that the first of the eight told of, and then acknowledges the eighth. It is never
/// done, and passes over all else that it is handed.
#[derive(Drop)]
pub struct StormPlugin {
    counting: Counting,
    short: bool,
    alloc: Global,
}

impl Model for StormPlugin {
    ghost use Rattle.shipped_plugins.specs.Storm.{StormState};
    ghost use Rattle.shipped_plugins.specs.Turns.{AfterTurns};

    ghost Value = { AfterTurns StormState };

    ghost view = { λ p. record { state = p.counting; short = p.short } };
}

impl StormPlugin {
    /// It takes no memory before its first turn.
    pub fn new(alloc: Global) -> StormPlugin
        ensures state { result.state ≡ storm_start }
        ensures short { result.short ≡ false }
    {
        StormPlugin {
            counting: Counting::new(alloc),
            short: false,
            alloc,
        }
    }

    /// Whether its last turn was short of memory: it then heeded the first of its lines alone, and of what they ask it gave the first.
    pub fn is_short(&self) -> bool
        ensures { result ≡ self.now.short }
    {
        self.short
    }
}

impl Plugin for StormPlugin {
    ghost told = { λ _. None };

    /// Counts the changes that the lines tell of, and edits at each eighth. Short of memory it gives what was made by then, and the lines behind that are not heard.
    fn turn(&mut self, lines: &[Text]) -> Turn
        ensures heeds { TurnHeeds storm_step self.old self.new (utf8_of lines.now) (utf8_of result.lines) }
        ensures goes_on { result.done ≡ false }
    {
        let mut given = Texts::new(self.alloc);
        self.short = self.counting.heed(lines, &mut given).is_err();
        Turn {
            lines: given,
            done: false,
        }
    }
}
