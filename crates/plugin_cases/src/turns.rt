//! Rows of turns: events at a small object, the turns that a plugin plays, what it was given, and what went through its door.

ghost use Rattle.std.specs.Prelude.{◌≡◌};
ghost use Rattle.plugin_session.specs.Visit.{goes_on};

use crate::board::Board;
use crate::player::Player;
use plugin_session::{After, AloneDoor, Ask, Door, Noted, NotedDoor, Plugin, Port, Query, Reply};
use std::alloc::Global;
use xi_plain::{List, NoMemory, Text};

// One letter for what came of a visit.
fn letter(after: After) -> char {
    match after {
        After::Turned => 'T',
        After::Idle => 'I',
        After::Over => 'O',
        After::NoMemory => 'M',
    }
}

// From where a look was.
fn digit(from: u64) -> char {
    match from {
        0 => '0',
        1 => '1',
        2 => '2',
        _ => '9',
    }
}

// One sign for what went through the door.
fn sign(noted: &Noted) -> char {
    match noted {
        Noted::Looked(Query::Notices { from }, _) => digit(*from),
        Noted::Asked(Ask::PluginEnd, _) => '.',
        Noted::Asked(_, Reply::Taken(_)) => '+',
        Noted::Asked(_, Reply::Refused(_)) => '-',
        Noted::Asked(_, Reply::SinkFault) => '!',
        Noted::Asked(_, Reply::Closed) => '#',
        Noted::Asked(_, Reply::NoMemory) => '?',
    }
}

fn signs(told: &mut Text, noted: Option<List<Noted>>) -> Result<(), NoMemory> {
    let Some(noted) = noted else {
        return told.push('?');
    };
    for one in noted.as_slice() {
        told.push(sign(one))?;
    }
    Ok(())
}

// Whether the session goes on.
fn goes(after: After) -> bool
    ensures { result ≡ goes_on after }
{
    matches!(after, After::Turned | After::Idle)
}

// What came of so many visits, or of those up to the last.
fn visits<D: Door, P: Plugin>(
    alloc: Global,
    door: &mut D,
    plugin: &mut P,
    most: usize,
) -> Result<Text, NoMemory>
    requires ready { D.ready door.old }
    requires caller { D.caller door.old ≡ 1 }
{
    let mut port = Port::start(alloc, 1);
    let mut told = Text::new(alloc);
    for _ in 0..most {
        let after = port.turn_once(alloc, door, plugin);
        told.push(letter(after))?;
        if !goes(after) {
            break;
        }
    }
    Ok(told)
}

// What came of the visits, and what went through the door.
pub(crate) fn played<P: Plugin>(
    alloc: Global,
    looks: &str,
    most: usize,
    plugin: &mut P,
) -> Result<Text, NoMemory> {
    let mut board = Board::new(alloc, looks)?;
    let mut door = NotedDoor::new(alloc, AloneDoor::new(&mut board, 1));
    let told = visits(alloc, &mut door, plugin, most);
    let (_alone, noted) = door.into_door();
    let mut told = told?;
    signs(&mut told, noted)?;
    Ok(told)
}

pub(crate) fn is(made: Result<Text, NoMemory>, expected: &str) -> bool {
    match made {
        Ok(text) => text.as_str() == expected,
        Err(_) => false,
    }
}

// Whether a plugin that plays these turns is given this, and this comes of it.
fn shows_openly(alloc: Global, looks: &str, script: &str, given: &str, told: &str) -> bool {
    match Player::new(alloc, script) {
        Ok(mut player) => {
            is(played(alloc, looks, looks.len() + 1, &mut player), told) && player.given() == given
        }
        Err(_) => false,
    }
}

// Whether this comes of it where it stands behind a box.
fn shows_boxed(alloc: Global, looks: &str, script: &str, told: &str) -> bool {
    let Ok(player) = Player::new(alloc, script) else {
        return false;
    };
    let Ok(boxed) = Box::new(alloc, player) else {
        return false;
    };
    let mut boxed: Box<dyn Plugin + Send> = boxed;
    is(played(alloc, looks, looks.len() + 1, &mut boxed), told)
}

fn shows(alloc: Global, looks: &str, script: &str, given: &str, told: &str) -> bool {
    shows_openly(alloc, looks, script, given, told) && shows_boxed(alloc, looks, script, told)
}

#[test]
fn a_plugin_is_given_answers_and_what_was_found(rt: HostRuntime) {
    let alloc = rt.alloc();
    assert!(rt; shows(alloc, "", "", "(start )", "T"));
    assert!(rt; shows(alloc, "-", "hi no", "(start )(hi no )", "TT+-0"));
    assert!(rt; shows(alloc, "f-f", "", "(start )(front )(front )", "TTIT000"));
    assert!(rt;
        shows(
            alloc,
            "f-",
            "hi/yes",
            "(start )(hi front )(yes )",
            "TTT+0+1"
        )
    );
    assert!(rt; shows(alloc, "-", "unsent hi", "(start )(hi )", "TT!+0"));
}

#[test]
fn a_line_without_an_answer_opens_no_turn(rt: HostRuntime) {
    let alloc = rt.alloc();
    assert!(rt; shows(alloc, "-", "-ack", "(start )", "TI+0"));
    assert!(rt; shows(alloc, "-f", "-ack hi", "(start )(hi )(front )", "TTT++02"));
}

#[test]
fn a_session_ends_once(rt: HostRuntime) {
    let alloc = rt.alloc();
    assert!(rt; shows(alloc, "-", ".", "(start )", "O."));
    assert!(rt; shows(alloc, "-", "no .", "(start )", "O-."));
    assert!(rt; shows(alloc, "-", "hi close more .", "(start )", "O+#"));
    assert!(rt; shows(alloc, "x-", "/hi", "(start )(shutdown )", "TO0"));
}
