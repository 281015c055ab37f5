// Calls of a door, noted for contracts: one ask, one look, and all lines of a turn.
ghost use Rattle.std.specs.Prelude.{ℕ, ◌≡◌, [], ◌∷◌, ◌+◌, ◌≤◌, ◌<◌, ◌++◌, length, take, drop, vec_len, List, true};
ghost use Rattle.xi_plain.specs.declared.ask.Query.TheVariants.{Notices};
ghost use Rattle.xi_plain.specs.declared.reply.Reply.{Reply};
ghost use Rattle.xi_plain.specs.Reply.{SaysLength};
ghost use Rattle.plugin_session.specs.declared.noted.Noted.TheVariants.{Asked, Looked};
ghost use Rattle.plugin_session.specs.Call.{Call, IsPluginAsk, Used, answer_in, answer_of, answers_of, line_ask};
ghost use Rattle.plugin_session.specs.Visit.{AreAsked, EndsShort, after_end};
ghost use Rattle.plugin_session.specs.declared.asking.Met.TheVariants.{All};
ghost use Rattle.plugin_session.specs.declared.after.After.TheVariants as after;
ghost use Rattle.plugin_session.specs.Asking.{MetsEnd, WereAsked, step_after};

use crate::after::After;
use crate::door::Door;
use crate::plugin::Turn;
use std::alloc::Global;
use std::mem;
use xi_plain::{Answer, Ask, Bytes, Query, Reply, Text, Texts};

// What came of the lines of a turn.
#[derive(Clone, Copy)]
pub(crate) enum Met {
    // All were asked.
    All,
    // One was answered that the journal is closed.
    Closed,
    // Memory was wanting for one.
    NoMemory,
}

// What came of one line.
#[derive(Clone, Copy)]
pub(crate) enum Step {
    // The next may be asked; so many answers were kept.
    Goes(usize),
    Stops(Met),
}

// Asks at the door.
pub(crate) fn ask<D: Door>(door: &mut D, ask: Ask) -> Reply
    requires ready { D.ready door.old }
    requires of_plugin { IsPluginAsk ask }
    ensures used { (at : ℕ)
        × Used D.caller D.journal D.serves D.answers D.later D.ready D.told door.old door.new
        (record { at = at; noted = Asked ask result } ∷ []) }
{
    door.enter(ask)
}

// Looks at the journal from this place on.
pub(crate) fn look<D: Door>(door: &mut D, place: u64) -> Answer
    requires ready { D.ready door.old }
    requires place { place ≤ length (D.journal door.old) }
    ensures used { Used D.caller D.journal D.serves D.answers D.later D.ready D.told door.old door.new
        (record { at = length (D.journal door.new); noted = Looked (Notices place) result } ∷ []) }
    ensures length { SaysLength (length (D.journal door.new)) result }
{
    door.look(Query::Notices { from: place })
}

// Puts a text, where it is an answer, at the end of those so far, in the place of a line that was asked. So many are kept then.
fn put_text(text: Text, lines: &mut Vec<Text>, kept: usize) -> usize
    requires { kept < vec_len lines.old }
    ensures count { result ≡ kept + length (answer_in text) }
    ensures kept { take (kept + length (answer_in text)) lines.new.items ≡ take kept lines.old.items ++ answer_in text }
    ensures rest { (at : ℕ) → kept < at → drop at lines.new.items ≡ drop at lines.old.items }
    ensures length { vec_len lines.new ≡ vec_len lines.old }
{
    if text.is_empty() {
        return kept;
    }
    lines[kept] = text;
    kept + 1
}

// Puts an answer, where there is one, at the end of those so far, in the place of a line that was asked.
fn put(reply: Reply, lines: &mut Vec<Text>, kept: usize) -> Step
    requires { kept < vec_len lines.old }
    ensures step { result ≡ step_after kept reply }
    ensures kept { (line : List ℕ) → take (kept + length (answer_of (Asked (line_ask line) reply))) lines.new.items
        ≡ take kept lines.old.items ++ answer_of (Asked (line_ask line) reply) }
    ensures rest { (at : ℕ) → kept < at → drop at lines.new.items ≡ drop at lines.old.items }
    ensures length { vec_len lines.new ≡ vec_len lines.old }
{
    match reply {
        Reply::Taken(text) | Reply::Refused(text) => Step::Goes(put_text(text, lines, kept)),
        Reply::SinkFault => Step::Goes(kept),
        Reply::Closed => Step::Stops(Met::Closed),
        Reply::NoMemory => Step::Stops(Met::NoMemory),
    }
}

// Asks the line at this index.
fn ask_at<D: Door>(alloc: Global, door: &mut D, lines: &mut Vec<Text>, at: usize) -> Reply
    requires ready { D.ready door.old }
    requires inside { at < vec_len lines.old }
    ensures used { (line : List ℕ) × (n : ℕ)
        × (drop at lines.old.items ≡ line ∷ drop (at + 1) lines.old.items)
        × Used D.caller D.journal D.serves D.answers D.later D.ready D.told door.old door.new
        (record { at = n; noted = Asked (line_ask line) result } ∷ []) }
    ensures kept { take at lines.new.items ≡ take at lines.old.items }
    ensures rest { drop (at + 1) lines.new.items ≡ drop (at + 1) lines.old.items }
    ensures length { vec_len lines.new ≡ vec_len lines.old }
{
    let line = mem::replace(&mut lines[at], Text::new(alloc));
    ask(door, Ask::PluginLine(Bytes::from_vec(line.into_bytes())))
}

// Asks the lines one after the other, up to and with the first that stops this. The answers are put in front, so many.
fn ask_each<D: Door>(alloc: Global, door: &mut D, lines: &mut Vec<Text>) -> (usize, Met)
    requires ready { D.ready door.old }
    ensures asked { (calls : List Call)
        × Used D.caller D.journal D.serves D.answers D.later D.ready D.told door.old door.new calls
        × WereAsked lines.old.items result.1 calls × (take result.0 lines.new.items ≡ answers_of calls) }
    ensures inside { result.0 ≤ vec_len lines.new }
{
    let mut kept = 0;
    for at in 0..lines.len() {
        let reply = ask_at(alloc, door, lines, at);
        match put(reply, lines, kept) {
            Step::Goes(next) => kept = next,
            Step::Stops(met) => return (kept, met),
        }
    }
    (kept, Met::All)
}

// Asks the lines of a turn, and leaves the answers in their place.
fn ask_lines<D: Door>(alloc: Global, door: &mut D, lines: &mut Vec<Text>) -> Met
    requires ready { D.ready door.old }
    ensures asked { (calls : List Call)
        × Used D.caller D.journal D.serves D.answers D.later D.ready D.told door.old door.new calls
        × WereAsked lines.old.items result calls × (lines.new.items ≡ answers_of calls) }
{
    let (kept, met) = ask_each(alloc, door, lines);
    lines.truncate(kept);
    met
}

// How a session ends whose end was answered so.
fn after_end(reply: &Reply) -> After
    ensures { result ≡ after_end reply.now }
{
    match reply {
        Reply::NoMemory => After::NoMemory,
        _ => After::Over,
    }
}

// Asks the end of a session whose plugin is done.
fn end_done<D: Door>(door: &mut D) -> After
    requires ready { D.ready door.old }
    ensures ended { (calls : List Call)
        × Used D.caller D.journal D.serves D.answers D.later D.ready D.told door.old door.new calls
        × MetsEnd All true calls result × (answers_of calls ≡ []) }
{
    let reply = ask(door, Ask::PluginEnd);
    after_end(&reply)
}

// Asks the end of a session for which memory was wanting.
pub(crate) fn end_short<D: Door>(door: &mut D) -> After
    requires ready { D.ready door.old }
    ensures ended { (calls : List Call)
        × Used D.caller D.journal D.serves D.answers D.later D.ready D.told door.old door.new calls
        × EndsShort calls result × (answers_of calls ≡ []) × (result ≡ after.NoMemory) }
{
    ask(door, Ask::PluginEnd);
    After::NoMemory
}

// Asks the end of the session, where the plugin is done or memory was wanting.
fn end<D: Door>(door: &mut D, met: Met, done: bool) -> After
    requires ready { D.ready door.old }
    ensures ended { (calls : List Call)
        × Used D.caller D.journal D.serves D.answers D.later D.ready D.told door.old door.new calls
        × MetsEnd met done calls result × (answers_of calls ≡ []) }
{
    match met {
        Met::All => {
            if done {
                return end_done(door);
            }
            After::Turned
        }
        Met::Closed => After::Over,
        Met::NoMemory => end_short(door),
    }
}

// Asks what a turn gave, and leaves the answers.
pub(crate) fn ask_all<D: Door>(alloc: Global, door: &mut D, turn: Turn) -> (Texts, After)
    requires ready { D.ready door.old }
    ensures asked { (calls : List Call)
        × Used D.caller D.journal D.serves D.answers D.later D.ready D.told door.old door.new calls
        × AreAsked turn.lines turn.done calls result.1 × (result.0 ≡ answers_of calls) }
{
    let Turn { lines, done } = turn;
    let mut lines = lines.into_vec();
    let met = ask_lines(alloc, door, &mut lines);
    let after = end(door, met, done);
    (Texts::from_vec(lines), after)
}
