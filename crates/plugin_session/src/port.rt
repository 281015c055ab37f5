ghost use Rattle.std.specs.Prelude.{ℕ, ◌≡◌, ◌≢◌, ◌≤◌, [], ◌∷◌, ◌++◌, length, List, not, false, IfOk, IfErr};
ghost use Rattle.std.specs.Bool.{MatchBool};
ghost use Rattle.plugin_session.specs.Start.{IsStart};
ghost use Rattle.plugin_session.specs.Turn.{Turned, TellsMore};
ghost use Rattle.plugin_session.specs.Call.{Call, Used, answers_of};
ghost use Rattle.plugin_session.specs.Visit.{Visit, IsFirst, IsLater, WasGiven, HasTurn, answers_after, place_after, goes_on, new_port};
ghost use Rattle.plugin_session.specs.Port.{Visited};

use crate::after::After;
use crate::asking::{ask_all, end_short, look};
use crate::door::Door;
use crate::plugin::Plugin;
use crate::start::start_line;
use std::alloc::Global;
use std::marker::Model;
use std::mem;
use xi_plain::{Answer, NoMemory, Texts};

/// A plugin's session, seen from its side: what it was told already, and what it is to be told. To a contract it is its caller, the length of
/// the journal at its last look, the answers to the last turn, and whether the session has begun and ended.
#[derive(Drop)]
pub struct Port {
    caller: u32,
    place: u64,
    answers: Texts,
    begun: bool,
    ended: bool,
}

impl Model for Port {
    ghost use Rattle.plugin_session.specs.Visit.{PortState};

    ghost Value = { PortState };

    ghost view = { λ p. record { caller = p.caller; place = p.place; answers = p.answers; begun = p.begun; ended = p.ended } };
}

// The lines of the first turn.
fn first_lines(alloc: Global, caller: u32) -> Result<Texts, NoMemory>
    ensures { IfOk result (λ lines. (start : List ℕ) × IsStart caller start × (lines ≡ start ∷ [])) }
{
    let mut lines = Texts::new(alloc);
    lines.push(start_line(alloc, caller)?)?;
    Ok(lines)
}

// The answers and then what was found; `Err` gives the answers back. Where there is no answer, this takes no memory.
fn joined(answers: Texts, found: Texts) -> Result<Texts, Texts>
    ensures joined { IfOk result (λ lines. lines ≡ answers ++ found) }
    ensures back { IfErr result (λ left. left ≡ answers) }
    ensures some { IfErr result (λ left. left ≢ []) }
{
    if answers.is_empty() {
        return Ok(found);
    }
    let mut lines = answers.into_vec();
    let mut found = found.into_vec();
    match lines.append(&mut found) {
        Ok(()) => Ok(Texts::from_vec(lines)),
        Err(_) => Err(Texts::from_vec(lines)),
    }
}

// Gives the plugin a turn with these lines, and asks what it gives, unless it was told that all is over. The answers are left.
fn give<D: Door, P: Plugin>(
    alloc: Global,
    door: &mut D,
    plugin: &mut P,
    lines: Texts,
    over: bool,
) -> (Texts, After)
    requires ready { D.ready door.old }
    ensures given { (calls : List Call) × (turns : List Turned)
        × Used D.caller D.journal D.serves D.answers D.later D.ready D.told door.old door.new calls
        × TellsMore (P.told plugin.old) (P.told plugin.new) turns × HasTurn lines over calls turns result.1
        × (result.0 ≡ answers_of calls) }
{
    let turn = plugin.turn(lines.as_slice());
    if over {
        (Texts::new(alloc), After::Over)
    } else {
        ask_all(alloc, door, turn)
    }
}

// What follows a look: the answers and what was found are given, where there is anything. The answers to this turn take their place.
fn give_found<D: Door, P: Plugin>(
    alloc: Global,
    door: &mut D,
    plugin: &mut P,
    answers: &mut Texts,
    found: Texts,
    over: bool,
) -> After
    requires ready { D.ready door.old }
    ensures given { (calls : List Call) × (turns : List Turned)
        × Used D.caller D.journal D.serves D.answers D.later D.ready D.told door.old door.new calls
        × TellsMore (P.told plugin.old) (P.told plugin.new) turns
        × WasGiven (answers.old ++ found) over calls turns result
        × (answers.new ≡ answers_after answers.old turns calls) }
{
    match joined(mem::replace(answers, Texts::new(alloc)), found) {
        Ok(lines) => {
            if lines.is_empty() {
                return After::Idle;
            }
            let (given, after) = give(alloc, door, plugin, lines, over);
            *answers = given;
            after
        }
        Err(left) => {
            *answers = left;
            end_short(door)
        }
    }
}

// The first visit, without a look.
fn visit_first<D: Door, P: Plugin>(
    alloc: Global,
    door: &mut D,
    plugin: &mut P,
    caller: u32,
    answers: &mut Texts,
) -> After
    requires ready { D.ready door.old }
    ensures visited { (calls : List Call) × (turns : List Turned)
        × Used D.caller D.journal D.serves D.answers D.later D.ready D.told door.old door.new calls
        × TellsMore (P.told plugin.old) (P.told plugin.new) turns × IsFirst caller calls turns result
        × (answers.new ≡ answers_after answers.old turns calls)
        × ((place : ℕ) → place_after place calls ≡ place) }
{
    match first_lines(alloc, caller) {
        Ok(lines) => {
            let (given, after) = give(alloc, door, plugin, lines, false);
            *answers = given;
            after
        }
        Err(_) => end_short(door),
    }
}

// Every other visit, which begins with a look from the place.
fn visit_later<D: Door, P: Plugin>(
    alloc: Global,
    door: &mut D,
    plugin: &mut P,
    place: &mut u64,
    answers: &mut Texts,
) -> After
    requires ready { D.ready door.old }
    requires place { place.old ≤ length (D.journal door.old) }
    ensures visited { (calls : List Call) × (turns : List Turned)
        × Used D.caller D.journal D.serves D.answers D.later D.ready D.told door.old door.new calls
        × TellsMore (P.told plugin.old) (P.told plugin.new) turns
        × IsLater place.old answers.old calls turns result
        × (answers.new ≡ answers_after answers.old turns calls) × (place.new ≡ place_after place.old calls) }
    ensures place { place.new ≤ length (D.journal door.new) }
{
    match look(door, *place) {
        Answer::Notices { lines, next, over } => {
            *place = next;
            give_found(alloc, door, plugin, answers, lines, over)
        }
        Answer::Nothing { len } => {
            *place = len;
            give_found(alloc, door, plugin, answers, Texts::new(alloc), false)
        }
        Answer::NoMemory => end_short(door),
    }
}

// Whether the session is over.
pub(crate) fn is_last(after: After) -> bool
    ensures { result ≡ not (goes_on after) }
{
    matches!(after, After::Over | After::NoMemory)
}

impl Port {
    /// The port of a caller, before the first turn.
    pub fn start(alloc: Global, caller: u32) -> Port
        ensures { result ≡ new_port caller }
    {
        Port {
            caller,
            place: 0,
            answers: Texts::new(alloc),
            begun: false,
            ended: false,
        }
    }

    /// One visit: a look at the door, a turn of the plugin where there is a line for it, and the asks of what it gave. It may wait where the
    /// door does. An idle one takes no memory.
    pub fn turn_once<D: Door, P: Plugin>(
        &mut self,
        alloc: Global,
        door: &mut D,
        plugin: &mut P,
    ) -> After
        requires open { self.old.ended ≡ false }
        requires caller { D.caller door.old ≡ self.old.caller }
        requires place { self.old.place ≤ length (D.journal door.old) }
        requires ready { D.ready door.old }
        ensures visited { (visit : Visit)
            × Visited D.caller D.journal D.serves D.answers D.later D.ready D.told self.old self.new door.old door.new
            (P.told plugin.old) (P.told plugin.new) visit
            × (visit.after ≡ result) }
        ensures place { self.new.place ≤ length (D.journal door.new) }
    {
        let after = self.visit(alloc, door, plugin);
        self.begun = true;
        self.ended = is_last(after);
        after
    }

    // The first visit, or another.
    fn visit<D: Door, P: Plugin>(&mut self, alloc: Global, door: &mut D, plugin: &mut P) -> After
        requires place { self.old.place ≤ length (D.journal door.old) }
        requires ready { D.ready door.old }
        ensures visited { (calls : List Call) × (turns : List Turned)
            × Used D.caller D.journal D.serves D.answers D.later D.ready D.told door.old door.new calls
            × TellsMore (P.told plugin.old) (P.told plugin.new) turns
            × MatchBool self.old.begun (IsLater self.old.place self.old.answers calls turns result)
            (IsFirst self.old.caller calls turns result)
            × (self.new.answers ≡ answers_after self.old.answers turns calls)
            × (self.new.place ≡ place_after self.old.place calls) }
        ensures place { self.new.place ≤ length (D.journal door.new) }
        ensures same { (self.new.caller ≡ self.old.caller) × (self.new.begun ≡ self.old.begun)
            × (self.new.ended ≡ self.old.ended) }
    {
        if self.begun {
            visit_later(alloc, door, plugin, &mut self.place, &mut self.answers)
        } else {
            visit_first(alloc, door, plugin, self.caller, &mut self.answers)
        }
    }
}
