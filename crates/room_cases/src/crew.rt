//! Workers of a room: as many as one likes, beside the front, each of whom hands its pass back by a promise.

ghost use Rattle.std.specs.Prelude.{◌≡◌, List, ◌<◌, ◌≤◌, ◌+◌, ◌^◌, ◌++◌, [], IfOk, IfErr, vec_len, vec_capacity};
ghost use Rattle.room_lock.specs.Room.{AreAll, AreAllFrom, IsSamePass, Known, first_pass};
ghost use Rattle.room_cases.specs.Crew.{AreSame};

use crate::tally::Tally;
use room_lock::{Ask, Pass, Query, Room};
use std::alloc::Global;
use std::marker::Model;
use std::snapshot::Snapshot;
use std::sync::Wait;
use std::test::Fail;
use std::thread;
use std::thread::{Promise, PromisedHandle, Scope, SpawnError, Threads};
use std::time::{Clock, CpuClock, Duration};

// What a caller does.
#[derive(Clone, Copy)]
enum Work {
    // It asks and looks so often.
    Asks(u32),
    // It waits for an entry, and looks.
    Hears,
    // It sleeps for so many milliseconds, and asks.
    Tells(u64),
}

// Asks and looks so often.
fn asks<R: Wait>(rt: &R, room: &Room<Tally>, mut pass: Pass, count: u32) -> Pass
    requires { pass.room ≡ room.now.table.shared.table_id }
    ensures { IsSamePass pass result }
{
    for _ in 0..count {
        room.enter(rt, &mut pass, Ask::CloseDown);
        room.look(rt, &mut pass, Query::Notices { from: 0 });
    }
    pass
}

// Does the caller's work.
fn worked<R: Wait + Clock>(rt: &R, room: &Room<Tally>, mut pass: Pass, work: Work) -> Pass
    requires { pass.room ≡ room.now.table.shared.table_id }
    ensures { IsSamePass pass result }
{
    match work {
        Work::Asks(count) => asks(rt, room, pass, count),
        Work::Hears => {
            room.wait(rt, &mut pass);
            room.look(rt, &mut pass, Query::Notices { from: 0 });
            pass
        }
        Work::Tells(millis) => {
            thread::sleep(rt, Duration::from_millis(millis));
            asks(rt, room, pass, 1)
        }
    }
}

// The pass that a worker began with.
#[derive(Drop)]
struct Began {
    pass: Snapshot<Pass>,
}

impl Promise<Pass> for Began {
    ghost use Rattle.room_lock.specs.Room.{IsSamePass};

    ghost kept_by = { λ began pass. IsSamePass began.pass.value pass };
}

// A worker's thread, or its pass where no thread was started. To a contract it is the pass that it began with.
#[derive(Drop)]
struct Worker {
    began: Snapshot<Pass>,
    thread: Result<PromisedHandle<Pass, Began>, Pass>,
}

impl Model for Worker {
    ghost use Rattle.std.specs.Prelude.{◌≡◌, MatchResult};
    ghost use Rattle.room_lock.specs.Room.{Known, IsSamePass};

    ghost Value = { Known };

    ghost view = { λ w. w.began.value };

    ghost invariant = { λ w. MatchResult w.thread (λ handle. handle.promise.pass.value ≡ w.began.value) (λ pass. IsSamePass w.began.value pass) };
}

// What became of the attempt to start a thread. The closure that was handed back runs here.
fn settled<F: FnOnce() -> Pass>(
    began: Snapshot<Pass>,
    attempt: Result<PromisedHandle<Pass, Began>, SpawnError<F>>,
) -> Worker
    requires started { IfOk attempt (λ handle. handle.promise.pass.value ≡ began.value) }
    requires runs { IfErr attempt (λ refused. F.pre refused.value) }
    requires keeps { IfErr attempt (λ refused. (pass : Known) → F.post refused.value pass → IsSamePass began.value pass) }
    ensures { result ≡ began.value }
{
    match attempt {
        Ok(handle) => Worker {
            began,
            thread: Ok(handle),
        },
        Err(refused) => Worker {
            began,
            thread: Err((refused.value)()),
        },
    }
}

// Hires a worker.
fn hire<'s, E, R: Threads + Wait + Clock + Sync>(
    scope: &Scope<'s, E>,
    rt: &'s R,
    room: &'s Room<Tally>,
    pass: Pass,
    work: Work,
) -> Worker
    requires { pass.room ≡ room.now.table.shared.table_id }
    ensures { result ≡ pass }
{
    let began = Snapshot::of(&pass);
    let promise = Began {
        pass: Snapshot::of(&pass),
    };
    let attempt = scope.spawn_with(
        promise,
        move || -> Pass
            requires { pass.room ≡ room.now.table.shared.table_id }
            ensures { IsSamePass pass result }
        { worked(rt, room, pass, work) },
    );
    settled(began, attempt)
}

// A worker for whom no thread was started.
fn turned_away<R: Wait + Clock>(rt: &R, room: &Room<Tally>, pass: Pass, work: Work) -> Worker
    requires { pass.room ≡ room.now.table.shared.table_id }
    ensures { result ≡ pass }
{
    let began = Snapshot::of(&pass);
    let value = move || -> Pass
        requires { pass.room ≡ room.now.table.shared.table_id }
        ensures { IsSamePass pass result }
    { worked(rt, room, pass, work) };
    settled(began, Err(SpawnError { value }))
}

// The pass of a worker, which has ended.
fn gathered<R: Threads>(rt: &R, worker: Worker) -> Pass
    ensures { IsSamePass worker result }
{
    let Worker { began: _, thread } = worker;
    match thread {
        Ok(handle) => handle.join(rt),
        Err(pass) => pass,
    }
}

// What the front does, and what each of the workers does, of whom there are so many.
#[derive(Clone, Copy)]
struct Plan {
    front: Work,
    workers: u32,
    each: Work,
}

// The front's pass, and the workers, who have the passes that follow it.
fn hire_all<'s, E, R: Threads + Wait + Clock + Sync>(
    scope: &Scope<'s, E>,
    rt: &'s R,
    room: &'s Room<Tally>,
    mut front: Pass,
    mut workers: Vec<Worker>,
    plan: Plan,
) -> (Pass, Vec<Worker>)
    requires front { front ≡ first_pass room.now.table.shared.table_id }
    requires few { plan.workers < room.now.table.shared.key.most }
    requires empty { workers.items ≡ [] }
    requires reserved { plan.workers ≤ vec_capacity workers }
    ensures front { (result.0.room ≡ room.now.table.shared.table_id) × (result.0.caller ≡ 0) }
    ensures made { result.0.made ≡ plan.workers + 1 }
    ensures count { vec_len result.1 ≡ plan.workers }
    ensures workers { AreAllFrom 1 room.now.table.shared.table_id result.1.items }
{
    for _hired in 0..plan.workers {
        let pass = room.split(&mut front);
        workers.push_reserved(hire(scope, rt, room, pass, plan.each));
    }
    (front, workers)
}

// Puts the passes of all workers behind those that are there.
fn gather_all<R: Threads>(rt: &R, workers: Vec<Worker>, passes: &mut Vec<Pass>)
    requires reserved { vec_len passes.old + vec_len workers ≤ vec_capacity passes.old }
    ensures gathered { (more : List Known) × (passes.new.items ≡ passes.old.items ++ more) × AreSame workers.items more }
{
    for worker in workers {
        passes.push_reserved(gathered(rt, worker));
    }
}

// As `all_work`, in the scope of the threads.
fn in_scope<'s, E, R: Threads + Wait + Clock + Sync>(
    scope: &Scope<'s, E>,
    rt: &'s R,
    room: &'s Room<Tally>,
    front: Pass,
    workers: Vec<Worker>,
    mut passes: Vec<Pass>,
    plan: Plan,
) -> Vec<Pass>
    requires front { front ≡ first_pass room.now.table.shared.table_id }
    requires few { plan.workers < room.now.table.shared.key.most }
    requires empty { (workers.items ≡ []) × (passes.items ≡ []) }
    requires reserved { (plan.workers ≤ vec_capacity workers) × (plan.workers + 1 ≤ vec_capacity passes) }
    ensures { AreAll room.now.table.shared.table_id result.items }
{
    let (front, workers) = hire_all(scope, rt, room, front, workers, plan);
    passes.push_reserved(worked(rt, room, front, plan.front));
    gather_all(rt, workers, &mut passes);
    passes
}

// The front's pass and then the workers', after the front worked here and each of them on its thread.
fn all_work<R: Threads + Wait + Clock + Sync>(
    rt: &R,
    room: &Room<Tally>,
    front: Pass,
    workers: Vec<Worker>,
    passes: Vec<Pass>,
    plan: Plan,
) -> Vec<Pass>
    requires front { front ≡ first_pass room.now.table.shared.table_id }
    requires few { plan.workers < room.now.table.shared.key.most }
    requires empty { (workers.items ≡ []) × (passes.items ≡ []) }
    requires reserved { (plan.workers ≤ vec_capacity workers) × (plan.workers + 1 ≤ vec_capacity passes) }
    ensures { AreAll room.now.table.shared.table_id result.items }
{
    thread::scope(
        thread::scope_env(),
        rt,
        move |scope| -> Vec<Pass>
            requires front { front ≡ first_pass room.now.table.shared.table_id }
            requires few { plan.workers < room.now.table.shared.key.most }
            requires empty { (workers.items ≡ []) × (passes.items ≡ []) }
            requires reserved { (plan.workers ≤ vec_capacity workers) × (plan.workers + 1 ≤ vec_capacity passes) }
            ensures { AreAll room.entry.now.table.shared.table_id result.items }
        { in_scope(scope, rt, room, front, workers, passes, plan) },
    )
}

// How long the journal is in the end of a room in which all worked, and how many entries the last of them had seen.
fn after_all<R: Threads + Wait + Clock + Sync>(
    rt: &R,
    alloc: Global,
    plan: Plan,
) -> Option<(usize, u64)>
    requires { plan.workers < 2 ^ 31 }
{
    let workers = Vec::with_capacity(alloc, plan.workers as usize).ok()?;
    let passes = Vec::with_capacity(alloc, plan.workers as usize + 1).ok()?;
    let entries = Vec::new(alloc);
    let Ok((room, front)) = Room::make(alloc, Tally { entries }, plan.workers + 1) else {
        return None;
    };
    let passes = all_work(rt, &room, front, workers, passes, plan);
    let seen = last_seen(&passes);
    let Tally { entries } = room.close(passes);
    Some((entries.len(), seen))
}

// How many entries the last of these passes has seen.
fn last_seen(passes: &Vec<Pass>) -> u64 {
    match passes.last() {
        Some(pass) => pass.seen_len(),
        None => 0,
    }
}

// How long the journal is in the end of a room whose worker got no thread.
fn after_none<R: Threads + Wait + Clock>(rt: &R, alloc: Global, count: u32) -> Option<usize> {
    let mut passes = Vec::with_capacity(alloc, 2).ok()?;
    let entries = Vec::new(alloc);
    let Ok((room, mut front)) = Room::make(alloc, Tally { entries }, 2) else {
        return None;
    };
    let pass = room.split(&mut front);
    let worker = turned_away(rt, &room, pass, Work::Asks(count));
    passes.push_reserved(front);
    passes.push_reserved(gathered(rt, worker));
    let Tally { entries } = room.close(passes);
    Some(entries.len())
}

#[test]
fn five_threads_end_by_themselves(rt: HostRuntime) -> Result<(), Fail> {
    let work = Work::Asks(200);
    let plan = Plan {
        front: work,
        workers: 4,
        each: work,
    };
    let ended = after_all(&rt, rt.alloc(), plan);
    assert!(rt; matches!(ended, Some((1000, _))));
    Ok(())
}

#[test]
fn four_sleep_until_the_fifth_asks(rt: HostRuntime) -> Result<(), Fail> {
    let before = rt.process_cpu_time()?;
    let plan = Plan {
        front: Work::Tells(1000),
        workers: 4,
        each: Work::Hears,
    };
    let ended = after_all(&rt, rt.alloc(), plan);
    let spent = rt.process_cpu_time()?.saturating_sub(before);
    assert!(rt; ended == Some((1, 1)));
    assert!(rt; spent < Duration::from_millis(100));
    Ok(())
}

#[test]
fn closure_without_a_thread_runs_here(rt: HostRuntime) -> Result<(), Fail> {
    assert!(rt; after_none(&rt, rt.alloc(), 3) == Some(3));
    Ok(())
}
