//! A session as the object that it is: in a room, at a door, with a sink that fails and with a shelf that does.
ghost use Rattle.std.specs.Prelude.{◌≡◌, ◌≤◌, ◌∷◌, [], IfSome, vec_capacity};
ghost use Rattle.core_session.specs.Core.{journal_of, terms_of};
ghost use Rattle.core_session.specs.Serves.{FitsCaller};
ghost use Rattle.room_lock.specs.Room.{AreAll, IsSamePass};

use core_session::{Core, Entry, Reply, ShelfNote};
use outside::{CalmShelf, MemShelf, MemSink};
use plain_text::{Bytes, List, NoMemory};
use plugin_session::{AloneDoor, Door};
use room_lock::{Ask, Object, Pass, Room};
use std::alloc::Global;
use std::sync::Wait;
use std::thread;
use std::thread::Threads;

type Session = Core<MemSink, MemShelf>;

const OPENING: &str = r#"{"id":0,"method":"new_view","params":{}}"#;

const OPENING_PIECE: &str = r#"{"id":0,"result":"view-id-1"}
{"method":"update","params":{"update":{"ops":[{"lines":[{"cursor":[0],"ln":1,"styles":[],"text":""}],"n":1,"op":"ins"}],"pristine":true},"view_id":"view-id-1"}}
"#;

const ALERT: &str = r#"{"method":"alert","params":{"msg":"hi"}}"#;

const ALERT_PIECE: &str = r#"{"method":"alert","params":{"msg":"hi"}}
"#;

const COUNT: &str = r#"{"id":"x","method":"line_count","params":{"view_id":"view-id-1"}}"#;

const SAVING: &str = r#"{"id":1,"method":"save","params":{"file_path":"f","view_id":"view-id-1"}}"#;

// A session with a plugin, of which these writes and these calls of the shelf fail.
fn session(alloc: Global, writes: &[u64], calls: &[u64]) -> Option<Session>
    ensures plugins { IfSome result (λ core. (terms_of core).plugins ≡ 1) }
    ensures empty { IfSome result (λ core. journal_of core ≡ []) }
{
    let sink = MemSink::new(alloc, 4096, Vec::from_slice(alloc, writes).ok()?);
    let shelf = MemShelf::new(CalmShelf::new(alloc), Vec::from_slice(alloc, calls).ok()?);
    Core::make(alloc, sink, shelf, 1, 100).ok()
}

fn line_of(alloc: Global, line: &str) -> Option<Bytes> {
    let bytes = Vec::from_slice(alloc, line.as_bytes()).ok()?;
    Some(List::from_vec(bytes))
}

// One ask of a caller.
fn ask_once<O: Object, R: Wait>(rt: &R, room: &Room<O>, mut pass: Pass, ask: Ask) -> Pass
    requires room { pass.room ≡ room.now.table.shared.table_id }
    requires fits { O.fits room.now.table.shared.key.first.value pass.caller ask }
    ensures { IsSamePass pass result }
{
    room.enter(rt, &mut pass, ask);
    pass
}

// Two callers ask once each, on two threads.
fn both_ask<O: Object + Send, R: Threads + Wait + Sync>(
    rt: &R,
    room: &Room<O>,
    front: (Pass, Ask),
    plugin: (Pass, Ask),
) -> (Pass, Pass)
    requires room { (front.0.room ≡ room.now.table.shared.table_id) × (plugin.0.room ≡ room.now.table.shared.table_id) }
    requires front { O.fits room.now.table.shared.key.first.value front.0.caller front.1 }
    requires plugin { O.fits room.now.table.shared.key.first.value plugin.0.caller plugin.1 }
    ensures { IsSamePass front.0 result.0 × IsSamePass plugin.0 result.1 }
{
    let (first, line) = front;
    let (second, other) = plugin;
    thread::join(
        rt,
        move || -> Pass
            requires { (first.room ≡ room.now.table.shared.table_id) × O.fits room.now.table.shared.key.first.value first.caller line }
            ensures { IsSamePass first result }
        { ask_once(rt, room, first, line) },
        move || -> Pass
            requires { (second.room ≡ room.now.table.shared.table_id) × O.fits room.now.table.shared.key.first.value second.caller other }
            ensures { IsSamePass second result }
        { ask_once(rt, room, second, other) },
    )
}

// Places for two passes.
fn places(alloc: Global) -> Option<Vec<Pass>>
    ensures { IfSome result (λ made. (made.items ≡ []) × (2 ≤ vec_capacity made)) }
{
    Vec::with_capacity(alloc, 2).ok()
}

// What the session comes to in a room that these two passes close.
fn close_by(room: Room<Session>, mut passes: Vec<Pass>, front: Pass, plugin: Pass) -> Session
    requires places { (passes.items ≡ []) × (2 ≤ vec_capacity passes) }
    requires all { AreAll room.table.shared.table_id (front ∷ plugin ∷ []) }
{
    passes.push_reserved(front);
    passes.push_reserved(plugin);
    room.close(passes)
}

// What a session comes to in a room where the front end opens a view and a plugin alerts meanwhile; then the journal and the room are closed.
fn in_a_room<R: Threads + Wait + Sync>(rt: &R, alloc: Global) -> Option<Session> {
    let passes = places(alloc)?;
    let opening = line_of(alloc, OPENING)?;
    let alert = line_of(alloc, ALERT)?;
    let Ok((room, mut front)) = Room::make(alloc, session(alloc, &[], &[])?, 2) else {
        return None;
    };
    let plugin = room.split(&mut front);
    let asks = (Ask::FrontLine(opening), Ask::PluginLine(alert));
    let (front, plugin) = both_ask(rt, &room, (front, asks.0), (plugin, asks.1));
    let front = ask_once(rt, &room, front, Ask::CloseDown);
    Some(close_by(room, passes, front, plugin))
}

// Whether the bytes are these pieces, one after the other.
fn holds(bytes: Option<&[u8]>, first: &str, then: &str) -> bool {
    match bytes.and_then(|all| all.strip_prefix(first.as_bytes())) {
        Some(rest) => rest == then.as_bytes(),
        None => false,
    }
}

// Whether the sink holds the pieces of the two lines in the order of their entries.
fn in_order(journal: &[Entry], sink: &MemSink) -> bool {
    match journal.first() {
        Some(entry) if entry.caller == 0 => holds(sink.bytes(), OPENING_PIECE, ALERT_PIECE),
        Some(_) => holds(sink.bytes(), ALERT_PIECE, OPENING_PIECE),
        None => false,
    }
}

// Whether the session has both lines and the closing entry, in the order in which it wrote.
fn has_both(core: Session) -> bool {
    let (journal, sink, _shelf) = core.into_parts();
    let plugins = journal.iter().filter(|entry| entry.caller == 1).count();
    journal.len() == 3 && plugins == 1 && in_order(&journal, &sink)
}

#[test]
fn a_room_has_the_lines_of_two_threads(rt: HostRuntime) {
    match in_a_room(&rt, rt.alloc()) {
        Some(core) => assert!(rt; has_both(core)),
        None => panic!(rt; "out of memory"),
    }
}

// What the door of a plugin answers a line after the opening.
fn at_a_door(alloc: Global) -> Option<Reply> {
    let mut core = session(alloc, &[], &[])?;
    core.front_line(OPENING.as_bytes());
    let line = line_of(alloc, COUNT)?;
    let mut door = AloneDoor::new(&mut core, 1);
    Some(door.enter(Ask::PluginLine(line)))
}

// Whether the reply has this text.
fn says(reply: &Option<Reply>, text: &str) -> bool {
    match reply {
        Some(Reply::Taken(answer)) => answer.as_str() == text,
        _ => false,
    }
}

#[test]
fn a_door_answers_a_line(rt: HostRuntime) {
    let reply = at_a_door(rt.alloc());
    assert!(rt; says(&reply, r#"{"id":"x","result":1}"#));
}

// What came of an ask.
#[derive(Clone, Copy, PartialEq, Eq)]
enum Came {
    Taken,
    SinkFault,
    Closed,
    Other,
}

// What comes of an ask of the session.
fn ask_of(core: &mut Session, caller: u32, ask: Ask) -> Came
    requires fits { FitsCaller (terms_of core.old).plugins caller ask }
    ensures terms { terms_of core.new ≡ terms_of core.old }
{
    match core.serve(caller, ask) {
        Reply::Taken(_) => Came::Taken,
        Reply::SinkFault => Came::SinkFault,
        Reply::Closed => Came::Closed,
        Reply::Refused(_) | Reply::NoMemory => Came::Other,
    }
}

// What comes of the asks of a front end and a plugin where the write of the plugin's first line fails.
fn with_a_fault(alloc: Global) -> Option<[Came; 6]> {
    let mut core = session(alloc, &[2], &[])?;
    let opening = line_of(alloc, OPENING)?;
    let again = line_of(alloc, OPENING)?;
    let alert = line_of(alloc, ALERT)?;
    let other = line_of(alloc, ALERT)?;
    Some([
        ask_of(&mut core, 0, Ask::FrontLine(opening)),
        ask_of(&mut core, 1, Ask::PluginLine(alert)),
        ask_of(&mut core, 0, Ask::FrontLine(again)),
        ask_of(&mut core, 1, Ask::PluginLine(other)),
        ask_of(&mut core, 1, Ask::PluginEnd),
        ask_of(&mut core, 0, Ask::CloseDown),
    ])
}

#[test]
fn a_fault_in_a_plugins_entry_shuts_all_but_the_closing(rt: HostRuntime) {
    let wanted = [
        Came::Taken,
        Came::SinkFault,
        Came::Closed,
        Came::Closed,
        Came::Closed,
        Came::Taken,
    ];
    assert!(rt; with_a_fault(rt.alloc()) == Some(wanted));
}

// How many notes say that the shelf failed, and its count, where each of two savings fails.
fn with_a_failing_shelf(alloc: Global) -> Option<(usize, u64)> {
    let mut core = session(alloc, &[], &[1, 2])?;
    for line in [OPENING, SAVING, SAVING] {
        let line = line_of(alloc, line)?;
        ask_of(&mut core, 0, Ask::FrontLine(line));
    }
    let (journal, _sink, shelf) = core.into_parts();
    let failed = journal
        .iter()
        .filter(|entry| entry.shelf == ShelfNote::Failed)
        .count();
    Some((failed, shelf.faults()))
}

#[test]
fn each_failed_saving_is_noted_and_counted(rt: HostRuntime) {
    assert!(rt; with_a_failing_shelf(rt.alloc()) == Some((2, 2)));
}
