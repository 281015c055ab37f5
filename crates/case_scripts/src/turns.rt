ghost use Rattle.std.specs.Prelude.{◌≡◌, IfOk};
ghost use Rattle.case_scripts.specs.Inner.{mark_view};
ghost use Rattle.case_scripts.specs.Turns.{first_of_turn, may_begin, no_turns, with_end, with_given, with_gives, with_mark};

use crate::said::Mark;
use crate::shelf::text_of;
use plain_text::{List, NoMemory, Text, Texts, TryClone};
use std::alloc::Global;

/// The most plugins that a run has.
pub const MOST_PLUGINS: u64 = 64;

/// What a script says of one turn of a plugin.
#[derive(Drop)]
pub struct TurnSaid {
    pub caller: u64,
    /// What it is given.
    pub given: Texts,
    /// What it then gives back.
    pub gives: Texts,
    /// Whether it is done then.
    pub done: bool,
}

/// What a script says of the turns of plugins.
#[derive(Drop)]
pub struct TurnsSaid {
    /// How many plugins there are.
    pub count: u64,
    /// The turns, in the order of their ends.
    pub turns: List<TurnSaid>,
    /// The one that is not ended yet.
    pub begun: Option<TurnSaid>,
}

impl TurnsSaid {
    pub fn new(alloc: Global) -> TurnsSaid
        ensures { result ≡ no_turns }
    {
        TurnsSaid {
            count: 0,
            turns: List::new(alloc),
            begun: None,
        }
    }

    /// With a line of a turn of this plugin; `None` where it may not stand there.
    pub fn with_mark(
        self,
        alloc: Global,
        caller: u64,
        mark: Mark<'_>,
    ) -> Result<Option<TurnsSaid>, NoMemory>
        ensures { IfOk result (λ after. after ≡ with_mark self caller (mark_view mark.entry)) }
    {
        match mark {
            Mark::Ends => self.with_end(caller, false),
            Mark::Done => self.with_end(caller, true),
            Mark::Given(text) => match text_of(alloc, text)? {
                Some(line) => self.with_given(alloc, caller, line),
                None => Ok(None),
            },
            Mark::Gives(text) => match text_of(alloc, text)? {
                Some(line) => self.with_gives(caller, line),
                None => Ok(None),
            },
        }
    }

    /// With a line that the plugin is given.
    fn with_given(
        self,
        alloc: Global,
        caller: u64,
        line: Text,
    ) -> Result<Option<TurnsSaid>, NoMemory>
        ensures { IfOk result (λ after. after ≡ with_given self self.begun caller line) }
    {
        let TurnsSaid {
            count,
            turns,
            begun,
        } = self;
        match begun {
            None if may_begin(count, caller) => Ok(Some(TurnsSaid {
                count: count.max(caller),
                turns,
                begun: Some(TurnSaid::first(alloc, caller, line)?),
            })),
            Some(turn) if turn.caller == caller && turn.gives.is_empty() => {
                let mut turn = turn;
                turn.given.push(line)?;
                Ok(Some(TurnsSaid {
                    count,
                    turns,
                    begun: Some(turn),
                }))
            }
            _ => Ok(None),
        }
    }

    /// With a line that it gives back.
    fn with_gives(self, caller: u64, line: Text) -> Result<Option<TurnsSaid>, NoMemory>
        ensures { IfOk result (λ after. after ≡ with_gives self self.begun caller line) }
    {
        let TurnsSaid {
            count,
            turns,
            begun,
        } = self;
        match begun {
            Some(turn) if turn.caller == caller => {
                let mut turn = turn;
                turn.gives.push(line)?;
                Ok(Some(TurnsSaid {
                    count,
                    turns,
                    begun: Some(turn),
                }))
            }
            _ => Ok(None),
        }
    }

    /// With the end of the turn.
    fn with_end(self, caller: u64, done: bool) -> Result<Option<TurnsSaid>, NoMemory>
        ensures { IfOk result (λ after. after ≡ with_end self self.begun caller done) }
    {
        let TurnsSaid {
            count,
            turns,
            begun,
        } = self;
        match begun {
            Some(turn) if turn.caller == caller => {
                let mut turn = turn;
                turn.done = done;
                let mut turns = turns;
                turns.push(turn)?;
                Ok(Some(TurnsSaid {
                    count,
                    turns,
                    begun: None,
                }))
            }
            _ => Ok(None),
        }
    }
}

impl TryClone for TurnSaid {
    fn copy(&self, alloc: Global) -> Result<TurnSaid, NoMemory> {
        Ok(TurnSaid {
            caller: self.caller,
            given: self.given.copy(alloc)?,
            gives: self.gives.copy(alloc)?,
            done: self.done,
        })
    }
}

impl TurnSaid {
    fn first(alloc: Global, caller: u64, line: Text) -> Result<TurnSaid, NoMemory>
        ensures { IfOk result (λ turn. turn ≡ first_of_turn caller line) }
    {
        let mut given = Texts::new(alloc);
        given.push(line)?;
        Ok(TurnSaid {
            caller,
            given,
            gives: Texts::new(alloc),
            done: false,
        })
    }
}

/// Whether a turn of this plugin may begin where there are so many.
fn may_begin(count: u64, caller: u64) -> bool
    ensures { result ≡ may_begin count caller }
{
    1 <= caller && caller <= count.saturating_add(1) && caller <= MOST_PLUGINS
}
