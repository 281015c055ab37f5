ghost use Rattle.std.specs.Prelude.{◌≡◌, ◌++◌, ◌∷◌, [], None, Some, IfOk, false, if◌then◌else◌, map, option_map, vec_len};
ghost use Rattle.plugin_session.specs.Turn.{TellsMore, turn_had};
ghost use Rattle.protocol_cases.specs.Player.{next_reply, players_of, reply_of};
ghost use Rattle.case_scripts.specs.Turns.{turns_of};
ghost use Rattle.protocol_cases.specs.Turns.{turned_of};

use case_scripts::TurnSaid;
use plain_text::{List, NoMemory, Text, Texts, TryClone};
use plugin_session::{Plugin, Turn};
use std::alloc::Global;
use std::marker::Model;

/// A plugin that plays the turns that a script says of it, and gives nothing once these are used up. It keeps each turn that it had.
#[derive(Drop)]
pub struct Player {
    caller: u64,
    turns: List<TurnSaid>,
    had: List<TurnSaid>,
    lost: bool,
    alloc: Global,
}

impl Model for Player {
    ghost use Rattle.protocol_cases.specs.Played.{Played};

    ghost Value = { Played };

    ghost view = { λ p. record { caller = p.caller; turns = p.turns; had = p.had; lost = p.lost } };
}

impl Player {
    /// The plugin of this number, before its first turn.
    pub fn new(alloc: Global, caller: u64, turns: List<TurnSaid>) -> Player
        ensures { result ≡ record { caller = caller; turns = turns; had = []; lost = false } }
    {
        Player {
            caller,
            turns,
            had: List::new(alloc),
            lost: false,
            alloc,
        }
    }

    /// The turns that it had, unless it lacked memory to keep one.
    pub fn had(&self) -> Option<&[TurnSaid]>
        ensures { option_map (λ had. had.now) result ≡ (if self.now.lost then None else Some self.now.had) }
    {
        if self.lost {
            None
        } else {
            Some(self.had.as_slice())
        }
    }

    /// Has its next turn.
    fn play(&mut self, lines: &[Text]) -> Result<Turn, NoMemory>
        ensures gives { IfOk result (λ turn. turn ≡ next_reply self.old) }
        ensures turns { self.new.turns ≡ self.old.turns }
        ensures had { IfOk result (λ turn. self.new.had ≡ self.old.had ++
            record { caller = self.old.caller; given = lines.now; gives = turn.lines; done = turn.done } ∷ []) }
        ensures kept { self.new.lost ≡ self.old.lost }
    {
        let turn = reply_of(self.alloc, self.turns.get(self.had.len()))?;
        let had = TurnSaid {
            caller: self.caller,
            given: copied(self.alloc, lines)?,
            gives: turn.lines.copy(self.alloc)?,
            done: turn.done,
        };
        self.had.push(had)?;
        Ok(turn)
    }
}

impl Plugin for Player {
    ghost told = { λ p. if p.lost then None else Some (map turned_of p.had) };

    /// Gives what the script says of this turn, and nothing where it says none.
    fn turn(&mut self, lines: &[Text]) -> Turn
        ensures tells { TellsMore (if self.old.lost then None else Some (map turned_of self.old.had))
            (if self.new.lost then None else Some (map turned_of self.new.had)) (turn_had lines.now result ∷ []) }
        ensures gives { self.new.lost ≡ false → result ≡ next_reply self.old }
        ensures turns { self.new.turns ≡ self.old.turns }
    {
        match self.play(lines) {
            Ok(turn) => turn,
            Err(NoMemory) => {
                self.lost = true;
                Turn {
                    lines: Texts::new(self.alloc),
                    done: true,
                }
            }
        }
    }
}

/// What is given in a turn of which this is said.
fn reply_of(alloc: Global, said: Option<&TurnSaid>) -> Result<Turn, NoMemory>
    ensures { IfOk result (λ turn. turn ≡ reply_of (option_map (λ turn. turn.now) said.entry)) }
{
    match said {
        Some(turn) => Ok(Turn {
            lines: turn.gives.copy(alloc)?,
            done: turn.done,
        }),
        None => Ok(Turn {
            lines: Texts::new(alloc),
            done: false,
        }),
    }
}

fn copied(alloc: Global, lines: &[Text]) -> Result<Texts, NoMemory>
    ensures { IfOk result (λ made. made ≡ lines.now) }
{
    let mut made = Texts::new(alloc);
    for line in lines {
        made.push(line.copy(alloc)?)?;
    }
    Ok(made)
}

/// So many plugins, in order: each has the turns that are said of it.
pub fn players_of(alloc: Global, turns: &[TurnSaid], count: u64) -> Result<Vec<Player>, NoMemory>
    ensures players { IfOk result (λ players. players.items ≡ players_of turns.now 1 count) }
    ensures count { IfOk result (λ players. vec_len players ≡ count) }
{
    let mut players = Vec::new(alloc);
    for at in 0..count {
        let said = turns_of(alloc, turns, at + 1)?;
        players.push(Player::new(alloc, at + 1, said))?;
    }
    Ok(players)
}

/// The turns of one plugin.
pub fn turns_of(alloc: Global, turns: &[TurnSaid], caller: u64) -> Result<List<TurnSaid>, NoMemory>
    ensures { IfOk result (λ made. made ≡ turns_of turns.now caller) }
{
    let mut made = List::new(alloc);
    for turn in turns {
        if turn.caller == caller {
            made.push(turn.copy(alloc)?)?;
        }
    }
    Ok(made)
}
