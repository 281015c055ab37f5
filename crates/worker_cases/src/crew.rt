//! Two workers of a room beside its front: what their plugins were given, and what the journal of the closed room has of them.

ghost use Rattle.std.specs.Prelude.{◌≡◌};
ghost use Rattle.room_lock.specs.Room.{IsSamePass, first_pass};
ghost use Rattle.worker_cases.specs.Crew.{MayPost};

use crate::post::Post;
use crate::talker::Talker;
use outside::{FreeGate, Gate, Point};
use plugin_session::{
    Ask, Errand, Hired, Plugin, Text, Texts, Turn, Worked, finish, hire, turned_away,
};
use room_lock::{Pass, Room};
use std::alloc::Global;
use std::sync::atomic::{AtomicU64, Ordering};
use std::sync::{OnceLock, Wait};
use std::test::Fail;
use std::thread;
use std::thread::{Scope, Threads};
use std::time::{Clock, CpuClock, Duration};
use xi_plain::{Act, Bytes, Entry, TryClone};

// What the front does while two workers have their turns.
#[derive(Clone, Copy)]
enum Work<'a> {
    // Nothing: the plugins end by themselves.
    Nothing,
    // It closes the room.
    Closes,
    // It closes the room after so many milliseconds.
    ClosesAfter(u64),
    // It closes the room once so many were counted.
    ClosesAt(&'a AtomicU64, u64),
    // It has an entry that is not sent, and closes the room.
    Fails,
    // It asks so often, and counts itself then.
    Asks(u32, &'a AtomicU64),
}

// Waits until so many were counted.
fn await_count<R: Wait>(rt: &R, counted: &AtomicU64, count: u64) {
    for _ in rt.forever() {
        if counted.load(Ordering::SeqCst) >= count {
            return;
        }
        thread::yield_now();
    }
}

// What became of a worker.
#[derive(Drop)]
struct Ended<P> {
    pass: Pass,
    plugin: P,
    over: bool,
}

// The passes of both workers, and their plugins.
#[derive(Drop)]
struct Pair<P> {
    a: Pass,
    first: P,
    b: Pass,
    second: P,
}

// A line of the front end.
fn front_line(alloc: Global, text: &str) -> Option<Ask> {
    let mut line = Vec::with_capacity(alloc, text.len()).ok()?;
    line.extend_from_slice(text.as_bytes()).ok()?;
    Some(Ask::FrontLine(Bytes::from_vec(line)))
}

// The front says this, where there is memory.
fn say<R: Wait>(rt: &R, alloc: Global, room: &Room<Post>, mut pass: Pass, text: &str) -> Pass
    requires { pass.room ≡ room.now.table.shared.table_id }
    ensures { IsSamePass pass result }
{
    match front_line(alloc, text) {
        Some(ask) => {
            room.enter(rt, &mut pass, ask);
            pass
        }
        None => pass,
    }
}

fn close<R: Wait>(rt: &R, room: &Room<Post>, mut pass: Pass) -> Pass
    requires { pass.room ≡ room.now.table.shared.table_id }
    ensures { IsSamePass pass result }
{
    room.enter(rt, &mut pass, Ask::CloseDown);
    pass
}

fn say_often<R: Wait>(rt: &R, alloc: Global, room: &Room<Post>, mut pass: Pass, count: u32) -> Pass
    requires { pass.room ≡ room.now.table.shared.table_id }
    ensures { IsSamePass pass result }
{
    for _ in 0..count {
        pass = say(rt, alloc, room, pass, "front");
    }
    pass
}

fn front_works<R: Wait + Clock>(
    rt: &R,
    alloc: Global,
    room: &Room<Post>,
    pass: Pass,
    work: Work<'_>,
) -> Pass
    requires { pass.room ≡ room.now.table.shared.table_id }
    ensures { IsSamePass pass result }
{
    match work {
        Work::Nothing => pass,
        Work::Closes => close(rt, room, pass),
        Work::ClosesAfter(millis) => {
            thread::sleep(rt, Duration::from_millis(millis));
            close(rt, room, pass)
        }
        Work::ClosesAt(counted, count) => {
            await_count(rt, counted, count);
            close(rt, room, pass)
        }
        Work::Fails => {
            let pass = say(rt, alloc, room, pass, "unsent");
            close(rt, room, pass)
        }
        Work::Asks(count, counted) => {
            let pass = say_often(rt, alloc, room, pass, count);
            counted.fetch_add(1, Ordering::SeqCst);
            pass
        }
    }
}

// What became of a worker, whose thread has ended or was never started.
fn finished<P: Plugin, R: Threads>(rt: &R, hired: Hired<'_, Post, P>) -> Ended<P>
    ensures { IsSamePass hired.entry.pass result.pass }
{
    match finish(rt, hired) {
        Ok(worked) => {
            let Worked { pass, plugin, over } = worked;
            Ended { pass, plugin, over }
        }
        Err((pass, plugin)) => Ended {
            pass,
            plugin,
            over: false,
        },
    }
}

// Both workers and the front, in the scope of the threads.
fn in_scope<'s, E, P: Plugin + Send + 's, G: Gate + Sync, R: Threads + Wait + Clock + Sync>(
    scope: &Scope<'s, E>,
    rt: &'s R,
    alloc: Global,
    room: &'s Room<Post>,
    said: (&'s OnceLock<Errand>, &'s OnceLock<Errand>),
    gate: &'s G,
    front: Pass,
    pair: Pair<P>,
    work: Work<'_>,
) -> (Pass, Ended<P>, Ended<P>)
    requires front { front.room ≡ room.now.table.shared.table_id }
    requires a { MayPost room.now.table.shared.table_id room.now.table.shared.key.first.value pair.a }
    requires b { MayPost room.now.table.shared.table_id room.now.table.shared.key.first.value pair.b }
    ensures front { IsSamePass front result.0 }
    ensures a { IsSamePass pair.a result.1.pass }
    ensures b { IsSamePass pair.b result.2.pass }
{
    let Pair {
        a,
        first,
        b,
        second,
    } = pair;
    let one = hire(scope, rt, alloc, said.0, room, a, first, gate);
    let two = hire(scope, rt, alloc, said.1, room, b, second, gate);
    let front = front_works(rt, alloc, room, front, work);
    let one = finished(rt, one);
    let two = finished(rt, two);
    (front, one, two)
}

fn both_work<P: Plugin + Send, G: Gate + Sync, R: Threads + Wait + Clock + Sync>(
    rt: &R,
    alloc: Global,
    room: &Room<Post>,
    gate: &G,
    front: Pass,
    pair: Pair<P>,
    work: Work<'_>,
) -> (Pass, Ended<P>, Ended<P>)
    requires front { front.room ≡ room.now.table.shared.table_id }
    requires a { MayPost room.now.table.shared.table_id room.now.table.shared.key.first.value pair.a }
    requires b { MayPost room.now.table.shared.table_id room.now.table.shared.key.first.value pair.b }
    ensures front { IsSamePass front result.0 }
    ensures a { IsSamePass pair.a result.1.pass }
    ensures b { IsSamePass pair.b result.2.pass }
{
    let one = OnceLock::new();
    let two = OnceLock::new();
    let said = (&one, &two);
    thread::scope(
        thread::scope_env(),
        rt,
        move |scope| -> (Pass, Ended<P>, Ended<P>)
            requires front { front.room ≡ room.now.table.shared.table_id }
            requires a { MayPost room.now.table.shared.table_id room.now.table.shared.key.first.value pair.a }
            requires b { MayPost room.now.table.shared.table_id room.now.table.shared.key.first.value pair.b }
            ensures front { IsSamePass front result.0 }
            ensures a { IsSamePass pair.a result.1.pass }
            ensures b { IsSamePass pair.b result.2.pass }
        { in_scope(scope, rt, alloc, room, said, gate, front, pair, work) },
    )
}

// What two workers came to, and the object of the closed room.
#[derive(Drop)]
struct Outcome<P> {
    first: P,
    second: P,
    over: (bool, bool),
    post: Post,
}

fn run_both<P: Plugin + Send, G: Gate + Sync, R: Threads + Wait + Clock + Sync>(
    rt: &R,
    alloc: Global,
    gate: &G,
    first: P,
    second: P,
    work: Work<'_>,
) -> Option<Outcome<P>> {
    let mut passes = Vec::with_capacity(alloc, 3).ok()?;
    let Ok((room, mut front)) = Room::make(alloc, Post::new(alloc), 3) else {
        return None;
    };
    let a = room.split(&mut front);
    let b = room.split(&mut front);
    let pair = Pair {
        a,
        first,
        b,
        second,
    };
    let (front, one, two) = both_work(rt, alloc, &room, gate, front, pair, work);
    let Ended {
        pass: a,
        plugin: first,
        over: first_over,
    } = one;
    let Ended {
        pass: b,
        plugin: second,
        over: second_over,
    } = two;
    passes.push_reserved(front);
    passes.push_reserved(a);
    passes.push_reserved(b);
    let post = room.close(passes);
    Some(Outcome {
        first,
        second,
        over: (first_over, second_over),
        post,
    })
}

// What the caller said by the journal, or all others, in order.
fn said_of(alloc: Global, entries: &[Entry], caller: u32, own: bool) -> Option<Texts> {
    let mut said = Texts::new(alloc);
    for entry in entries {
        if let Act::Alert { msg } = &entry.command.act {
            if (entry.caller == caller) == own {
                said.push(msg.copy(alloc).ok()?).ok()?;
            }
        }
    }
    Some(said)
}

// Whether these are all or the first of those.
fn begins(first: &Texts, all: &Texts) -> bool {
    let mut at = 0;
    for text in first.as_slice() {
        match all.as_slice().get(at) {
            Some(one) if one.as_str() == text.as_str() => {}
            _ => return false,
        }
        at = at.saturating_add(1);
    }
    true
}

// What a plugin was told of others: its lines but the first, the answers and the last.
fn heard(alloc: Global, given: &Texts) -> Option<Texts> {
    let mut heard = Texts::new(alloc);
    for line in given.as_slice().iter().skip(1) {
        if line.as_str() != "ok" && line.as_str() != "shutdown" {
            heard.push(line.copy(alloc).ok()?).ok()?;
        }
    }
    Some(heard)
}

// Whether the journal has what the talker said, and told it what the others said, entry for entry.
fn agrees(alloc: Global, talker: &Talker, caller: u32, entries: &[Entry]) -> bool {
    let Some(own) = said_of(alloc, entries, caller, true) else {
        return false;
    };
    let Some(others) = said_of(alloc, entries, caller, false) else {
        return false;
    };
    let Some(heard) = heard(alloc, &talker.given) else {
        return false;
    };
    !talker.lost && begins(&own, &talker.said) && begins(&heard, &others)
}

// Whether two talkers came to an end, and the journal of the closed room has what they said and heard.
fn agree(alloc: Global, outcome: Option<Outcome<Talker>>) -> bool {
    match outcome {
        Some(outcome) => {
            let entries = outcome.post.entries.as_slice();
            outcome.over.0
                && outcome.over.1
                && agrees(alloc, &outcome.first, 1, entries)
                && agrees(alloc, &outcome.second, 2, entries)
        }
        None => false,
    }
}

// Two talkers, of whom the first says this line so often.
fn talk<R: Threads + Wait + Clock + Sync>(
    rt: &R,
    alloc: Global,
    line: &'static str,
    count: u32,
    ends: bool,
    work: Work<'_>,
) -> Option<Outcome<Talker>> {
    let first = Talker::new(alloc, line, count, ends);
    let second = Talker::new(alloc, "second ", count, ends);
    run_both(rt, alloc, &FreeGate, first, second, work)
}

// How many lines the first talker was given, and how many entries it made that say something.
fn counts(alloc: Global, outcome: &Outcome<Talker>) -> (usize, usize) {
    match said_of(alloc, outcome.post.entries.as_slice(), 1, true) {
        Some(own) => (outcome.first.given.len(), own.len()),
        None => (0, 0),
    }
}

fn are_counts(alloc: Global, outcome: &Option<Outcome<Talker>>, given: usize, own: usize) -> bool {
    match outcome {
        Some(outcome) => counts(alloc, outcome) == (given, own),
        None => false,
    }
}

// How many entries the first talker made that say something.
fn own_count(alloc: Global, outcome: &Option<Outcome<Talker>>) -> usize {
    match outcome {
        Some(outcome) => counts(alloc, outcome).1,
        None => 0,
    }
}

#[test]
fn two_workers_side_by_side(rt: HostRuntime) {
    let alloc = rt.alloc();
    let outcome = talk(&rt, alloc, "first ", 200, true, Work::Nothing);
    assert!(rt; own_count(alloc, &outcome) == 200);
    assert!(rt; agree(alloc, outcome));
}

#[test]
fn a_plugin_that_never_is_done_ends_with_the_room(rt: HostRuntime) {
    let alloc = rt.alloc();
    let gate = Counter::new();
    let first = Talker::new(alloc, "first ", 3, false);
    let second = Talker::new(alloc, "second ", 3, false);
    let work = Work::ClosesAt(&gate.leaves, 6);
    let outcome = run_both(&rt, alloc, &gate, first, second, work);
    assert!(rt; own_count(alloc, &outcome) == 3);
    assert!(rt; agree(alloc, outcome));
    assert!(rt;
        agree(
            alloc,
            talk(&rt, alloc, "first ", 1000000, false, Work::Closes)
        )
    );
}

#[test]
fn a_plugin_may_be_done_at_once(rt: HostRuntime) {
    let alloc = rt.alloc();
    let outcome = talk(&rt, alloc, "first ", 0, true, Work::Nothing);
    assert!(rt; are_counts(alloc, &outcome, 1, 0));
    assert!(rt; agree(alloc, outcome));
}

#[test]
fn refused_lines_are_answered(rt: HostRuntime) {
    let alloc = rt.alloc();
    let outcome = talk(&rt, alloc, "no ", 5, true, Work::Nothing);
    assert!(rt; own_count(alloc, &outcome) == 0);
    assert!(rt;
        matches!(
            outcome,
            Some(Outcome {
                over: (true, true),
                ..
            })
        )
    );
}

#[test]
fn a_room_is_closed_after_an_entry_that_was_not_sent(rt: HostRuntime) {
    let alloc = rt.alloc();
    let outcome = talk(&rt, alloc, "first ", 1000000, false, Work::Fails);
    assert!(rt; agree(alloc, outcome));
}

// A plugin whose turn lasts until the front is counted, and that is done then.
#[derive(Drop)]
struct Awaiter<'a, R> {
    rt: &'a R,
    counted: &'a AtomicU64,
    alloc: Global,
}

impl<R: Wait> Plugin for Awaiter<'_, R> {
    ghost use Rattle.std.specs.Prelude.{None};

    ghost told = { λ p. None };

    fn turn(&mut self, _lines: &[Text]) -> Turn {
        await_count(self.rt, self.counted, 1);
        Turn {
            lines: Texts::new(self.alloc),
            done: true,
        }
    }
}

// Whether the first so many entries are the front's, and then come the ends of both plugins.
fn is_front_first(entries: &[Entry], count: usize) -> bool {
    let mut at: usize = 0;
    for entry in entries {
        if (entry.caller == 0) != (at < count) {
            return false;
        }
        at = at.saturating_add(1);
    }
    at == count.saturating_add(2)
}

#[test]
fn no_worker_holds_the_room_in_its_turn(rt: HostRuntime) {
    let alloc = rt.alloc();
    let counted = AtomicU64::new(0);
    let first = Awaiter {
        rt: &rt,
        counted: &counted,
        alloc,
    };
    let second = Awaiter {
        rt: &rt,
        counted: &counted,
        alloc,
    };
    let work = Work::Asks(1000, &counted);
    match run_both(&rt, alloc, &FreeGate, first, second, work) {
        Some(outcome) => {
            assert!(rt; is_front_first(outcome.post.entries.as_slice(), 1000));
        }
        None => panic!(rt; "out of memory"),
    }
}

#[test]
fn idle_workers_sleep(rt: HostRuntime) -> Result<(), Fail> {
    let before = rt.process_cpu_time()?;
    let alloc = rt.alloc();
    let outcome = talk(&rt, alloc, "first ", 0, false, Work::ClosesAfter(1000));
    let spent = rt.process_cpu_time()?.saturating_sub(before);
    assert!(rt; are_counts(alloc, &outcome, 2, 0));
    assert!(rt; agree(alloc, outcome));
    assert!(rt; spent < Duration::from_millis(100));
    Ok(())
}

// A gate that counts who passes: before turns, before asks, after asks.
#[derive(Drop)]
struct Counter {
    turns: AtomicU64,
    enters: AtomicU64,
    leaves: AtomicU64,
}

impl Counter {
    fn new() -> Counter {
        Counter {
            turns: AtomicU64::new(0),
            enters: AtomicU64::new(0),
            leaves: AtomicU64::new(0),
        }
    }
}

impl Gate for Counter {
    fn pass(&self, _caller: u32, point: Point) {
        let count = match point {
            Point::BeforeTurn => &self.turns,
            Point::BeforeEnter => &self.enters,
            Point::AfterEnter => &self.leaves,
        };
        count.fetch_add(1, Ordering::SeqCst);
    }
}

#[test]
fn a_gate_is_passed_around_each_ask(rt: HostRuntime) {
    let alloc = rt.alloc();
    let gate = Counter::new();
    let first = Talker::new(alloc, "first ", 7, true);
    let second = Talker::new(alloc, "second ", 7, true);
    let outcome = run_both(&rt, alloc, &gate, first, second, Work::Nothing);
    assert!(rt; agree(alloc, outcome));
    assert!(rt; gate.turns.load(Ordering::SeqCst) == 14);
    assert!(rt; gate.enters.load(Ordering::SeqCst) == 16);
    assert!(rt; gate.leaves.load(Ordering::SeqCst) == 16);
}

// A worker that gets no thread: whether it is to leave, whether its session is over, and how many lines its plugin was given.
fn without_thread<R: Threads>(rt: &R, alloc: Global) -> Option<(bool, bool, usize)> {
    let mut passes = Vec::with_capacity(alloc, 2).ok()?;
    let Ok((room, mut front)) = Room::make(alloc, Post::new(alloc), 2) else {
        return None;
    };
    let pass = room.split(&mut front);
    let talker = Talker::new(alloc, "first ", 7, true);
    let hired = turned_away(&room, pass, talker);
    let leaves = hired.errand() == Errand::Leave;
    let Ended { pass, plugin, over } = finished(rt, hired);
    passes.push_reserved(front);
    passes.push_reserved(pass);
    let _post = room.close(passes);
    Some((leaves, over, plugin.given.len()))
}

#[test]
fn a_worker_without_a_thread_comes_back_at_once(rt: HostRuntime) {
    assert!(rt; without_thread(&rt, rt.alloc()) == Some((true, false, 0)));
}

// A plugin that says one line a turn, so often, and is done then. It holds nothing that a box could not drop.
#[derive(Drop)]
struct Speaker {
    left: u32,
    alloc: Global,
}

impl Plugin for Speaker {
    ghost use Rattle.std.specs.Prelude.{None};

    ghost told = { λ p. None };

    fn turn(&mut self, _lines: &[Text]) -> Turn {
        let mut lines = Texts::new(self.alloc);
        if let Ok(line) = Text::from_str(self.alloc, "boxed") {
            if lines.push(line).is_ok() {
                self.left = self.left.saturating_sub(1);
            }
        }
        Turn {
            lines,
            done: self.left == 0,
        }
    }
}

// How many entries two boxed plugins made.
fn boxed_entries<R: Threads + Wait + Clock + Sync>(rt: &R, alloc: Global) -> Option<usize> {
    let Ok(first) = Box::new(alloc, Speaker { left: 9, alloc }) else {
        return None;
    };
    let Ok(second) = Box::new(alloc, Speaker { left: 9, alloc }) else {
        return None;
    };
    let first: Box<dyn Plugin + Send> = first;
    let second: Box<dyn Plugin + Send> = second;
    match run_both(rt, alloc, &FreeGate, first, second, Work::Nothing) {
        Some(outcome) => Some(outcome.post.entries.len()),
        None => None,
    }
}

#[test]
fn boxed_plugins_have_their_turns(rt: HostRuntime) {
    assert!(rt; boxed_entries(&rt, rt.alloc()) == Some(20));
}
