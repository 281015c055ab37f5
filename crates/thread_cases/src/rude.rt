//! Plugins that nobody should hand in.
use crate::typist::Typist;
use plain_text::{NoMemory, Text, Texts};
use std::alloc::Global;
use xi_top::{Plugin, Turn};

// What a plugin does that a run has to bear.
#[derive(Clone, Copy, PartialEq, Eq)]
pub(crate) enum Manner {
    // It is done at its first turn.
    Leaves,
    // It asks nothing, and never says that it has a revision.
    KeepsSilent,
    // In each turn it gives a thousand lines that are refused.
    Floods,
    // In each turn it counts the lines of a view that is not there.
    Counts,
    // In each turn it asks for 2^20 bytes of the text.
    Reads,
    // It edits once where the front end has, and then at each notice of its own edit.
    EditsOn,
}

// Lines that are none, calls that there are not, and edits and readings of what is not there.
const REFUSED: [&str; 8] = [
    "{",
    "[]",
    r#"{"id":1,"method":"insert","params":{"chars":"a","view_id":"view-id-1"}}"#,
    r#"{"id":1,"method":"edit","params":{}}"#,
    r#"{"id":1,"method":"edit","params":{"after_cursor":false,"author":"p","delta":{"base_len":0,"els":[]},"priority":1,"rev":999999,"view_id":"view-id-1"}}"#,
    r#"{"id":1,"method":"edit","params":{"after_cursor":false,"author":"p","delta":{"base_len":0,"els":[]},"priority":1,"rev":0,"view_id":"view-id-9"}}"#,
    r#"{"method":"get_data","params":{"max_size":8,"rev":0,"start":9999999,"view_id":"view-id-1"}}"#,
    r#"{"id":1,"method":"update_spans","params":{"len":9999999,"rev":0,"spans":[],"start":0,"view_id":"view-id-1"}}"#,
];

#[derive(Drop)]
pub(crate) struct Rude {
    manner: Manner,
    pub(crate) caller: u64,
    typist: Typist,
    // Whether it has edited.
    begun: bool,
    pub(crate) turns: u64,
    alloc: Global,
}

impl Rude {
    pub(crate) fn new(alloc: Global, manner: Manner, caller: u64, letter: char) -> Rude {
        Rude {
            manner,
            caller,
            typist: Typist::new(alloc, letter),
            begun: false,
            turns: 0,
            alloc,
        }
    }

    // Hears what happened. How often it edits for that.
    fn hear(&mut self, lines: &[Text]) -> u32 {
        let mut edits: u32 = 0;
        for line in lines {
            let author = self.typist.read(line.as_str());
            if author == Some(self.caller) || (author == Some(0) && !self.begun) {
                self.begun = true;
                edits = edits.saturating_add(1);
            }
        }
        edits
    }

    fn flood(&self) -> Result<Texts, NoMemory> {
        let mut lines = Texts::new(self.alloc);
        for at in 0..1000 {
            lines.push(Text::from_str(self.alloc, REFUSED[at % 8])?)?;
        }
        Ok(lines)
    }

    fn ask(&mut self, lines: &[Text]) -> Result<Texts, NoMemory> {
        let edits = self.hear(lines);
        let mut answers = Texts::new(self.alloc);
        match self.manner {
            Manner::Leaves | Manner::KeepsSilent => {}
            Manner::Floods => return self.flood(),
            Manner::Counts => answers.push(Text::from_str(
                self.alloc,
                r#"{"id":7,"method":"line_count","params":{"view_id":"view-id-9"}}"#,
            )?)?,
            Manner::Reads => answers.push(self.typist.reading()?)?,
            Manner::EditsOn => {
                for _ in 0..edits {
                    answers.push(self.typist.edit()?)?;
                }
            }
        }
        Ok(answers)
    }
}

impl Plugin for Rude {
    ghost use Rattle.std.specs.Prelude.{None};

    ghost told = { λ p. None };

    fn turn(&mut self, lines: &[Text]) -> Turn {
        self.turns = self.turns.saturating_add(1);
        Turn {
            lines: self.ask(lines).unwrap_or(Texts::new(self.alloc)),
            done: self.manner == Manner::Leaves,
        }
    }
}
