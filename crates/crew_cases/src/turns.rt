//! Runs in turns: the journal, entry for entry, and what each plugin was given.
ghost use Rattle.std.specs.Prelude.{◌≤◌, vec_len};

use crate::desk::{Desk, said_by};
use crate::player::{Part, Player};
use plugin_crew::{AloneFront, Crew, LineTaker, Took};
use plugin_session::{NoMemory, Text};
use std::alloc::Global;
use xi_plain::{Bytes, Entry};

// What a run came to: what its lines came to, by letters; its journal; and its plugins.
#[derive(Drop)]
pub(crate) struct Outcome {
    pub(crate) tooks: Text,
    pub(crate) journal: Text,
    pub(crate) players: Vec<Player>,
    pub(crate) served: bool,
}

fn line_of(alloc: Global, text: &str) -> Result<Bytes, NoMemory> {
    let mut line = Vec::with_capacity(alloc, text.len())?;
    line.extend_from_slice(text.as_bytes())?;
    Ok(Bytes::from_vec(line))
}

fn letter_of(took: Took) -> char {
    match took {
        Took::Taken => 't',
        Took::Fault => 'f',
        Took::Closed => 'c',
        Took::NoMemory => 'm',
    }
}

// The taker takes these lines. What they came to.
pub(crate) fn say_all<T: LineTaker>(
    alloc: Global,
    taker: &mut T,
    lines: &[&str],
) -> Result<Text, NoMemory>
    requires { T.ready taker.old }
    ensures ready { T.ready taker.new }
    ensures later { T.later taker.old taker.new }
{
    let mut tooks = Text::new(alloc);
    for line in lines {
        let line = line_of(alloc, line)?;
        tooks.push(letter_of(taker.take(line)))?;
    }
    Ok(tooks)
}

// The entries, each as it is told, with a mark where it was not sent.
pub(crate) fn drawn(alloc: Global, entries: &[Entry]) -> Option<Text> {
    let mut journal = Text::new(alloc);
    for entry in entries {
        journal.push_str(said_by(alloc, entry)?.as_str()).ok()?;
        if !entry.sent {
            journal.push('!').ok()?;
        }
        journal.push(' ').ok()?;
    }
    Some(journal)
}

pub(crate) fn players_of(alloc: Global, parts: &[Part]) -> Result<Vec<Player>, NoMemory> {
    let mut players = Vec::new(alloc);
    for part in parts {
        players.push(Player::new(alloc, *part)?)?;
    }
    Ok(players)
}

// A run in turns, which is closed after these lines.
fn play(alloc: Global, parts: &[Part], lines: &[&str]) -> Option<Outcome> {
    let players = players_of(alloc, parts).ok()?;
    if players.len() > 64 {
        return None;
    }
    let Ok(crew) = Crew::of(alloc, players) else {
        return None;
    };
    let mut front = AloneFront::start(alloc, Desk::new(alloc), crew);
    let tooks = say_all(alloc, &mut front, lines).ok()?;
    front.close();
    let (desk, crew) = front.into_parts();
    Some(Outcome {
        tooks,
        journal: drawn(alloc, desk.entries.as_slice())?,
        served: crew.all_served(),
        players: crew.into_plugins(),
    })
}

// Whether the run came to this, and its plugins were given that.
pub(crate) fn comes_to(
    outcome: Option<Outcome>,
    tooks: &str,
    journal: &str,
    given: &[&str],
) -> bool {
    let Some(outcome) = outcome else {
        return false;
    };
    let mut same = outcome.players.len() == given.len();
    for (player, given) in outcome.players.iter().zip(given) {
        same = same && player.given.as_str() == *given;
    }
    same && outcome.served && outcome.tooks.as_str() == tooks && outcome.journal.as_str() == journal
}

// A plugin that gives this line in each turn.
pub(crate) const fn says(line: &'static str) -> Part {
    Part {
        turns: "",
        line,
        count: 1,
    }
}

// A plugin that has these turns, and gives nothing after them.
pub(crate) const fn has(turns: &'static str) -> Part {
    Part {
        turns,
        line: "",
        count: 0,
    }
}

#[test]
fn without_plugins_lines_follow_lines(rt: HostRuntime) {
    let outcome = play(rt.alloc(), &[], &["x", "y"]);
    assert!(rt; comes_to(outcome, "tt", "0x 0y 0# ", &[]));
}

#[test]
fn plugins_have_their_turns_in_their_order(rt: HostRuntime) {
    let alloc = rt.alloc();
    let outcome = play(alloc, &[says("a"), says("b"), says("d")], &["x"]);
    let given = [
        "(start )(ok 2b 3d 0x )(ok 2b 3d 0# )",
        "(start )(ok 1a 3d 0x 1a )(ok 3d 0# )",
        "(start )(ok 1a 2b 0x 1a 2b )(ok 0# )",
    ];
    assert!(rt; comes_to(outcome, "t", "1a 2b 3d 0x 1a 2b 3d 0# ", &given));
    let outcome = play(alloc, &[says("d"), says("b"), says("a")], &["x"]);
    let given = [
        "(start )(ok 2b 3a 0x )(ok 2b 3a 0# )",
        "(start )(ok 1d 3a 0x 1d )(ok 3a 0# )",
        "(start )(ok 1d 2b 0x 1d 2b )(ok 0# )",
    ];
    assert!(rt; comes_to(outcome, "t", "1d 2b 3a 0x 1d 2b 3a 0# ", &given));
}

#[test]
fn a_plugin_that_is_done_has_no_second_turn(rt: HostRuntime) {
    let outcome = play(rt.alloc(), &[has("a ."), says("b")], &["x"]);
    let given = ["(start )", "(start )(ok 1a 1. 0x )(ok 0# )"];
    assert!(rt; comes_to(outcome, "t", "1a 1. 2b 0x 2b 0# ", &given));
}

#[test]
fn refused_lines_are_answered_and_leave_no_entry(rt: HostRuntime) {
    let refused = Part {
        turns: "",
        line: "no",
        count: 1000,
    };
    match play(rt.alloc(), &[refused], &["x"]) {
        Some(outcome) => {
            assert!(rt; outcome.journal.as_str() == "0x 0# ");
            // 8 for the first line, then twice 3 for each answer, and 5 for the rest.
            assert!(rt;
                matches!(outcome.players.as_slice(), [player] if player.given.as_str().len() == 6018)
            );
        }
        None => panic!(rt; "out of memory"),
    }
}

#[test]
fn a_plugin_that_met_the_end_has_no_further_turn(rt: HostRuntime) {
    let outcome = play(rt.alloc(), &[has("a c b")], &["x"]);
    assert!(rt; comes_to(outcome, "t", "1a 0x 0# ", &["(start )"]));
}

#[test]
fn a_plugin_that_lacks_memory_ends_alone(rt: HostRuntime) {
    match play(rt.alloc(), &[has("a m b"), says("d")], &["x"]) {
        Some(outcome) => {
            assert!(rt; !outcome.served);
            assert!(rt; outcome.journal.as_str() == "1a 1. 2d 0x 2d 0# ");
        }
        None => panic!(rt; "out of memory"),
    }
}

#[test]
fn an_entry_that_was_not_sent_ends_the_run(rt: HostRuntime) {
    let outcome = play(rt.alloc(), &[says("a"), has("b/u"), says("d")], &["x", "y"]);
    let given = [
        "(start )(ok 2b 3d 0x )(ok 2u 0# )",
        "(start )(ok 1a 3d 0x 1a )(0# )",
        "(start )(ok 1a 2b 0x 1a 2u )",
    ];
    assert!(rt; comes_to(outcome, "tc", "1a 2b 3d 0x 1a 2u! 0# ", &given));
}

#[test]
fn no_round_follows_a_line_that_was_not_sent(rt: HostRuntime) {
    let outcome = play(rt.alloc(), &[says("a")], &["u"]);
    assert!(rt; comes_to(outcome, "f", "1a 0u! 0# ", &["(start )(ok 0u 0# )"]));
}

#[test]
fn many_plugins_hear_every_line(rt: HostRuntime) {
    match play(rt.alloc(), &[has(""); 64], &["x"; 100]) {
        Some(outcome) => {
            assert!(rt; outcome.journal.as_str().len() == 303);
            // 8 for the first line, and 5 for each other turn.
            assert!(rt;
                outcome.players.len() == 64
                    && outcome
                        .players
                        .iter()
                        .all(|player| player.given.as_str().len() == 513)
            );
        }
        None => panic!(rt; "out of memory"),
    }
}
