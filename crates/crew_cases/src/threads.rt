//! Runs on threads: the journal of the closed room, and what each plugin was given.
ghost use Rattle.std.specs.Prelude.{◌≡◌, ◌≤◌, ◌<◌, [], length, vec_len, vec_capacity};
ghost use Rattle.room_lock.specs.Room.{first_pass};
ghost use Rattle.plugin_crew.specs.Place.{givens_of};
ghost use Rattle.plugin_crew.specs.Threads.{IsStaffed};
ghost use Rattle.crew_cases.specs.Crowd.{IsAllBack};

use crate::desk::Desk;
use crate::player::{Part, Player};
use crate::turns::{Outcome, comes_to, drawn, has, players_of, say_all, says};
use outside::{Gate, Point};
use plugin_crew::{Back, Post, RoomFront, hire_all};
use plugin_session::{Errand, Text, hire, turned_away};
use room_lock::{Pass, Room};
use std::alloc::Global;
use std::sync::atomic::{AtomicU64, Ordering};
use std::sync::{OnceLock, Wait};
use std::thread;
use std::thread::{Scope, Threads};

// A gate that counts the asks that were served, and holds plugin 1 before its first ask until so many of them were.
#[derive(Drop)]
struct Keeper<'a, R> {
    rt: &'a R,
    served: AtomicU64,
    holds: u64,
}

impl<R: Wait> Keeper<'_, R> {
    // Waits until so many asks of plugins were served.
    fn await_served(&self, count: u64) {
        for _ in self.rt.forever() {
            if self.served.load(Ordering::SeqCst) >= count {
                return;
            }
            thread::yield_now();
        }
    }
}

impl<R: Wait> Gate for Keeper<'_, R> {
    fn pass(&self, caller: u32, point: Point) {
        match point {
            Point::BeforeTurn => {}
            Point::BeforeEnter => {
                if caller == 1 {
                    self.await_served(self.holds);
                }
            }
            Point::AfterEnter => {
                self.served.fetch_add(1, Ordering::SeqCst);
            }
        }
    }
}

// What the front does: it waits until so many asks of plugins were served, takes these lines, and may close the room.
#[derive(Clone, Copy)]
struct Work<'a> {
    awaits: u64,
    lines: &'a [&'a str],
    closes: bool,
}

// The same without plugins: no ask of theirs is awaited.
fn without_asks(work: Work<'_>) -> Work<'_> {
    Work {
        awaits: 0,
        lines: work.lines,
        closes: work.closes,
    }
}

// The front closes the room, where this is so.
fn close_where<R: Threads + Wait>(taker: &mut RoomFront<'_, Desk, R, Player>, closes: bool)
    requires { IsStaffed taker.old.room.now.table.shared.table_id taker.old.room.now.table.shared.key.first.value
        taker.old.pass (givens_of taker.old.posts.items) }
    ensures same { (taker.new.room.now ≡ taker.old.room.now) × (givens_of taker.new.posts.items ≡ givens_of taker.old.posts.items) }
    ensures staffed { IsStaffed taker.new.room.now.table.shared.table_id taker.new.room.now.table.shared.key.first.value
        taker.new.pass (givens_of taker.new.posts.items) }
{
    if closes {
        taker.close();
    }
}

// The front works, and gathers all.
fn front_works<R: Threads + Wait>(
    alloc: Global,
    keeper: &Keeper<'_, R>,
    taker: RoomFront<'_, Desk, R, Player>,
    back: Back<Player>,
    work: Work<'_>,
) -> (Option<Text>, Back<Player>)
    requires staffed { IsStaffed taker.room.now.table.shared.table_id taker.room.now.table.shared.key.first.value
        taker.pass (givens_of taker.posts.items) }
    requires empty { (back.passes.items ≡ []) × (back.plugins.items ≡ []) }
    requires reserved { (length taker.posts.items < vec_capacity back.passes) × (length taker.posts.items ≤ vec_capacity back.plugins) }
    ensures { IsAllBack taker.entry.room.now.table.shared.table_id taker.entry.room.now.table.shared.key.first.value
        result.1.passes.items result.1.plugins.items result.1.all_served }
{
    let mut taker = taker;
    keeper.await_served(work.awaits);
    let tooks = say_all(alloc, &mut taker, work.lines).ok();
    close_where(&mut taker, work.closes);
    (tooks, taker.gather_all(back))
}

// Each plugin on a thread, in the scope of the threads.
fn all_in_scope<'s, E, R: Threads + Wait + Sync>(
    scope: &Scope<'s, E>,
    rt: &'s R,
    alloc: Global,
    keeper: &'s Keeper<'s, R>,
    room: &'s Room<Desk>,
    front: Pass,
    players: Vec<Player>,
    said: &'s [OnceLock<Errand>],
    posts: Vec<Post<'s, Desk, R, Player>>,
    back: Back<Player>,
    work: Work<'_>,
) -> (Option<Text>, Back<Player>)
    requires front { front ≡ first_pass room.now.table.shared.table_id }
    requires few { (vec_len players ≤ 64) × (vec_len players < room.now.table.shared.key.most) }
    requires vectors { (vec_len players ≤ length said.now) × (posts.items ≡ []) × (vec_len players ≤ vec_capacity posts) }
    requires empty { (back.passes.items ≡ []) × (back.plugins.items ≡ []) }
    requires reserved { (vec_len players < vec_capacity back.passes) × (vec_len players ≤ vec_capacity back.plugins) }
    ensures { IsAllBack room.now.table.shared.table_id room.now.table.shared.key.first.value
        result.1.passes.items result.1.plugins.items result.1.all_served }
{
    let taker = hire_all(scope, rt, alloc, room, front, players, said, posts, keeper);
    front_works(alloc, keeper, taker, back, work)
}

// The same, with a scope. Where there is no memory for the posts no plugin comes.
fn all_on_threads<R: Threads + Wait + Sync>(
    rt: &R,
    alloc: Global,
    keeper: &Keeper<'_, R>,
    room: &Room<Desk>,
    front: Pass,
    players: Vec<Player>,
    said: &[OnceLock<Errand>],
    back: Back<Player>,
    work: Work<'_>,
) -> (Option<Text>, Back<Player>)
    requires front { front ≡ first_pass room.now.table.shared.table_id }
    requires few { (vec_len players ≤ 64) × (vec_len players < room.now.table.shared.key.most) }
    requires words { vec_len players ≤ length said.now }
    requires empty { (back.passes.items ≡ []) × (back.plugins.items ≡ []) }
    requires reserved { (vec_len players < vec_capacity back.passes) × (vec_len players ≤ vec_capacity back.plugins) }
    ensures { IsAllBack room.now.table.shared.table_id room.now.table.shared.key.first.value
        result.1.passes.items result.1.plugins.items result.1.all_served }
{
    thread::scope(
        thread::scope_env(),
        rt,
        move |scope| -> (Option<Text>, Back<Player>)
            requires front { front ≡ first_pass room.now.table.shared.table_id }
            requires few { (vec_len players ≤ 64) × (vec_len players < room.now.table.shared.key.most) }
            requires words { vec_len players ≤ length said.now }
            requires empty { (back.passes.items ≡ []) × (back.plugins.items ≡ []) }
            requires reserved { (vec_len players < vec_capacity back.passes) × (vec_len players ≤ vec_capacity back.plugins) }
            ensures { IsAllBack room.entry.now.table.shared.table_id room.entry.now.table.shared.key.first.value
                result.1.passes.items result.1.plugins.items result.1.all_served }
        {
            match Vec::with_capacity(alloc, players.len()) {
                Ok(posts) => all_in_scope(
                    scope, rt, alloc, keeper, room, front, players, said, posts, back, work,
                ),
                Err(_) => all_in_scope(
                    scope,
                    rt,
                    alloc,
                    keeper,
                    room,
                    front,
                    Vec::new(alloc),
                    said,
                    Vec::new(alloc),
                    back,
                    without_asks(work),
                ),
            }
        },
    )
}

// The first plugin on a thread, and the second without one.
fn first_on_a_thread<'s, E, R: Threads + Wait + Sync>(
    scope: &Scope<'s, E>,
    rt: &'s R,
    alloc: Global,
    keeper: &'s Keeper<'s, R>,
    room: &'s Room<Desk>,
    front: Pass,
    pair: (Player, Player),
    said: &'s OnceLock<Errand>,
    posts: Vec<Post<'s, Desk, R, Player>>,
) -> RoomFront<'s, Desk, R, Player>
    requires front { front ≡ first_pass room.now.table.shared.table_id }
    requires few { 2 < room.now.table.shared.key.most }
    requires posts { (posts.items ≡ []) × (2 ≤ vec_capacity posts) }
    ensures room { result.room.now ≡ room.now }
    ensures staffed { IsStaffed room.now.table.shared.table_id room.now.table.shared.key.first.value
        result.pass (givens_of result.posts.items) }
    ensures count { length result.posts.items ≡ 2 }
{
    let mut front = front;
    let mut posts = posts;
    let (first, second) = pair;
    let a = room.split(&mut front);
    let b = room.split(&mut front);
    let one = hire(scope, rt, alloc, said, room, a, first, keeper);
    let two = turned_away(room, b, second);
    posts.push_reserved(Post::of(alloc, rt, room, one));
    posts.push_reserved(Post::of(alloc, rt, room, two));
    RoomFront::new(alloc, rt, room, front, posts)
}

// The same, in the scope of the threads.
fn two_in_scope<'s, E, R: Threads + Wait + Sync>(
    scope: &Scope<'s, E>,
    rt: &'s R,
    alloc: Global,
    keeper: &'s Keeper<'s, R>,
    room: &'s Room<Desk>,
    front: Pass,
    pair: (Player, Player),
    said: &'s OnceLock<Errand>,
    posts: Vec<Post<'s, Desk, R, Player>>,
    back: Back<Player>,
    work: Work<'_>,
) -> (Option<Text>, Back<Player>)
    requires front { front ≡ first_pass room.now.table.shared.table_id }
    requires few { 2 < room.now.table.shared.key.most }
    requires posts { (posts.items ≡ []) × (2 ≤ vec_capacity posts) }
    requires empty { (back.passes.items ≡ []) × (back.plugins.items ≡ []) }
    requires reserved { (2 < vec_capacity back.passes) × (2 ≤ vec_capacity back.plugins) }
    ensures { IsAllBack room.now.table.shared.table_id room.now.table.shared.key.first.value
        result.1.passes.items result.1.plugins.items result.1.all_served }
{
    let taker = first_on_a_thread(scope, rt, alloc, keeper, room, front, pair, said, posts);
    front_works(alloc, keeper, taker, back, work)
}

// The same, with a scope. Where there is no memory for the posts no plugin comes.
fn two_on_threads<R: Threads + Wait + Sync>(
    rt: &R,
    alloc: Global,
    keeper: &Keeper<'_, R>,
    room: &Room<Desk>,
    front: Pass,
    pair: (Player, Player),
    said: &[OnceLock<Errand>],
    back: Back<Player>,
    work: Work<'_>,
) -> (Option<Text>, Back<Player>)
    requires front { front ≡ first_pass room.now.table.shared.table_id }
    requires few { 2 < room.now.table.shared.key.most }
    requires words { 1 ≤ length said.now }
    requires empty { (back.passes.items ≡ []) × (back.plugins.items ≡ []) }
    requires reserved { (2 < vec_capacity back.passes) × (2 ≤ vec_capacity back.plugins) }
    ensures { IsAllBack room.now.table.shared.table_id room.now.table.shared.key.first.value
        result.1.passes.items result.1.plugins.items result.1.all_served }
{
    thread::scope(
        thread::scope_env(),
        rt,
        move |scope| -> (Option<Text>, Back<Player>)
            requires front { front ≡ first_pass room.now.table.shared.table_id }
            requires few { 2 < room.now.table.shared.key.most }
            requires words { 1 ≤ length said.now }
            requires empty { (back.passes.items ≡ []) × (back.plugins.items ≡ []) }
            requires reserved { (2 < vec_capacity back.passes) × (2 ≤ vec_capacity back.plugins) }
            ensures { IsAllBack room.entry.now.table.shared.table_id room.entry.now.table.shared.key.first.value
                result.1.passes.items result.1.plugins.items result.1.all_served }
        {
            match Vec::with_capacity(alloc, 2) {
                Ok(posts) => two_in_scope(
                    scope, rt, alloc, keeper, room, front, pair, &said[0], posts, back, work,
                ),
                Err(_) => all_in_scope(
                    scope,
                    rt,
                    alloc,
                    keeper,
                    room,
                    front,
                    Vec::new(alloc),
                    said,
                    Vec::new(alloc),
                    back,
                    without_asks(work),
                ),
            }
        },
    )
}

// The run, once all threads have ended.
fn ended(
    alloc: Global,
    room: Room<Desk>,
    tooks: Option<Text>,
    back: Back<Player>,
) -> Option<Outcome>
    requires { IsAllBack room.table.shared.table_id room.table.shared.key.first.value back.passes.items back.plugins.items back.all_served }
{
    let done = back.finish(room);
    Some(Outcome {
        tooks: tooks?,
        journal: drawn(alloc, done.object.entries.as_slice())?,
        players: done.plugins,
        served: done.all_served,
    })
}

// A run on threads.
fn play_on_threads<R: Threads + Wait + Sync>(
    rt: &R,
    alloc: Global,
    parts: &[Part],
    holds: u64,
    work: Work<'_>,
) -> Option<Outcome> {
    let players = players_of(alloc, parts).ok()?;
    let count = players.len();
    if count > 64 {
        return None;
    }
    let mut said = Vec::with_capacity(alloc, count).ok()?;
    for _ in 0..count {
        said.push_reserved(OnceLock::new());
    }
    let back = Back::with_room(alloc, count).ok()?;
    let Ok((room, front)) = Room::make(alloc, Desk::new(alloc), count as u32 + 1) else {
        return None;
    };
    let keeper = Keeper {
        rt,
        served: AtomicU64::new(0),
        holds,
    };
    let (tooks, back) = all_on_threads(
        rt, alloc, &keeper, &room, front, players, &said, back, work,
    );
    ended(alloc, room, tooks, back)
}

// The same of two plugins, of which the second has no thread.
fn play_beside<R: Threads + Wait + Sync>(
    rt: &R,
    alloc: Global,
    first: Part,
    second: Part,
    work: Work<'_>,
) -> Option<Outcome> {
    let pair = (
        Player::new(alloc, first).ok()?,
        Player::new(alloc, second).ok()?,
    );
    let back = Back::with_room(alloc, 2).ok()?;
    let Ok((room, front)) = Room::make(alloc, Desk::new(alloc), 3) else {
        return None;
    };
    let said = [OnceLock::new()];
    let keeper = Keeper {
        rt,
        served: AtomicU64::new(0),
        holds: 0,
    };
    let (tooks, back) = two_on_threads(rt, alloc, &keeper, &room, front, pair, &said, back, work);
    ended(alloc, room, tooks, back)
}

#[test]
fn plugins_on_threads_are_served(rt: HostRuntime) {
    let work = Work {
        awaits: 2,
        lines: &["x", "y"],
        closes: true,
    };
    let outcome = play_on_threads(&rt, rt.alloc(), &[has("a .")], 0, work);
    assert!(rt; comes_to(outcome, "tt", "1a 1. 0x 0y 0# ", &["(start )"]));
    let alone = Work {
        awaits: 0,
        lines: &["x", "y"],
        closes: true,
    };
    let outcome = play_on_threads(&rt, rt.alloc(), &[], 0, alone);
    assert!(rt; comes_to(outcome, "tt", "0x 0y 0# ", &[]));
}

#[test]
fn a_plugin_without_a_thread_is_served_beside_one_with(rt: HostRuntime) {
    let work = Work {
        awaits: 2,
        lines: &["x", "y"],
        closes: true,
    };
    let outcome = play_beside(&rt, rt.alloc(), has("a ."), says("b"), work);
    let given = ["(start )", "(start )(ok 1a 1. 0x 0y )(ok 0# )"];
    assert!(rt; comes_to(outcome, "tt", "1a 1. 0x 2b 0y 2b 0# ", &given));
}

#[test]
fn a_plugin_that_is_held_enters_after_the_other(rt: HostRuntime) {
    let work = Work {
        awaits: 4,
        lines: &[],
        closes: false,
    };
    let parts = [has("a ."), has("b .")];
    match play_on_threads(&rt, rt.alloc(), &parts, 1, work) {
        Some(outcome) => {
            assert!(rt; outcome.served && outcome.players.len() == 2);
            assert!(rt; outcome.journal.as_str().starts_with("2b "));
            assert!(rt; outcome.journal.as_str().len() == 12);
        }
        None => panic!(rt; "out of memory"),
    }
}

#[test]
fn many_plugins_on_threads_come_back(rt: HostRuntime) {
    let work = Work {
        awaits: 128,
        lines: &["x"],
        closes: true,
    };
    match play_on_threads(&rt, rt.alloc(), &[has("a ."); 64], 0, work) {
        Some(outcome) => {
            assert!(rt; outcome.served && outcome.players.len() == 64);
            // For each of the first nine plugins two entries of three characters, for the others of four; and two of the front's.
            assert!(rt; outcome.journal.as_str().len() == 9 * 6 + 55 * 8 + 6);
        }
        None => panic!(rt; "out of memory"),
    }
}

#[test]
fn a_plugin_on_a_thread_that_lacks_memory_ends_alone(rt: HostRuntime) {
    let work = Work {
        awaits: 5,
        lines: &["x"],
        closes: true,
    };
    let parts = [has("a m b"), has("d .")];
    match play_on_threads(&rt, rt.alloc(), &parts, 0, work) {
        Some(outcome) => {
            assert!(rt; !outcome.served && outcome.players.len() == 2);
            let journal = outcome.journal.as_str();
            assert!(rt; journal.contains("1a ") && journal.contains("1. "));
            assert!(rt; journal.contains("2d ") && journal.contains("2. "));
            assert!(rt; journal.len() == 18 && journal.ends_with("0x 0# "));
        }
        None => panic!(rt; "out of memory"),
    }
}

#[test]
fn an_entry_of_a_thread_that_was_not_sent_ends_the_run(rt: HostRuntime) {
    let work = Work {
        awaits: 2,
        lines: &["x"],
        closes: true,
    };
    match play_on_threads(&rt, rt.alloc(), &[has("a u")], 0, work) {
        Some(outcome) => {
            assert!(rt; outcome.served && outcome.tooks.as_str() == "c");
            assert!(rt; outcome.journal.as_str() == "1a 1u! 0# ");
            assert!(rt;
                matches!(outcome.players.as_slice(), [player] if player.given.as_str().ends_with("0# )"))
            );
        }
        None => panic!(rt; "out of memory"),
    }
}
