// A plugin of a run on threads.
ghost use Rattle.std.specs.Prelude.{◌≡◌, false, Some, IsSomeAnd};
ghost use Rattle.plugin_session.specs.declared.errand.Errand.TheVariants.{Serve, Leave};
ghost use Rattle.plugin_session.specs.Hired.{Hiring};
ghost use Rattle.plugin_session.specs.Worker.{HasWorked, MayWork};
ghost use Rattle.plugin_crew.specs.declared.standing.Standing.TheVariants.{Going};
ghost use Rattle.plugin_crew.specs.Place.{HasTurnAt, HasTurnHere, IsPlaced, IsVisited, first_place, place_at, place_by, place_for, place_in};
ghost use Rattle.plugin_crew.specs.Post.{HasServed, IsStay, IsWork, gathered_of, standing_of};
ghost use Rattle.plugin_crew.specs.Standing.{is_going};

use crate::member::Member;
use crate::standing::{Standing, standing_after};
use plugin_session::{Errand, Hired, Plugin, RoomDoor, Worked, finish};
use room_lock::{Pass, Room};
use std::alloc::Global;
use std::marker::Model;
use std::mem;
use std::snapshot::Snapshot;
use std::sync::Wait;
use std::thread::Threads;
use xi_plain::Object;

// Where a plugin has its turns.
#[derive(Drop)]
pub(crate) enum Work<'a, O: Object, R, P: Plugin> {
    // On a thread.
    Runs(Hired<'a, O, P>),
    // On the calling thread, at a door of its own.
    Stays(Member<P>, RoomDoor<'a, O, R>),
}

/// A plugin of a run on threads. To a contract it is what it was given (the object that the room was made with, the pass and the plugin), and
/// its place, if it has its turns on the calling thread.
#[derive(Drop)]
pub struct Post<'a, O: Object, R, P: Plugin> {
    given: Snapshot<Hired<'a, O, P>>,
    work: Option<Work<'a, O, R, P>>,
}

impl<'a, O: Object, R, P: Plugin> Model for Post<'a, O, R, P> {
    ghost use Rattle.std.specs.Prelude.{IsSomeAnd};
    ghost use Rattle.plugin_crew.specs.Place.{Posted, place_in};
    ghost use Rattle.plugin_crew.specs.Post.{IsWork};

    ghost Value = { Posted O P };

    ghost view = { λ p. record { given = p.given.value; here = place_in p.work } };

    ghost invariant = { λ p. IsSomeAnd p.work (λ work. IsWork O.fits O.legal O.serves O.answers P.told p.given.value work) };
}

/// What became of a plugin of a run on threads.
#[derive(Drop)]
pub struct Gathered<P> {
    /// The pass that it was given, which may have seen more.
    pub pass: Pass,
    pub plugin: P,
    /// How its session stands.
    pub standing: Standing,
}

// How a session stands that a worker brought to its end.
fn standing_of(over: bool) -> Standing
    ensures { result ≡ standing_of over }
{
    if over {
        Standing::Over
    } else {
        Standing::Short
    }
}

// What a worker came to.
fn gathered_of<P>(worked: Worked<P>) -> Gathered<P>
    ensures { result ≡ gathered_of worked }
{
    let Worked { pass, plugin, over } = worked;
    Gathered {
        pass,
        plugin,
        standing: standing_of(over),
    }
}

// What a worker's thread came to, once it has ended.
fn served_by<O: Object, R: Threads, P: Plugin>(rt: &R, hired: Hired<'_, O, P>) -> Worked<P>
    requires { hired.errand ≡ Serve }
    ensures { HasWorked (O.serves hired.entry.first) (O.answers hired.entry.first) hired.entry.pass result.pass
        (P.told hired.entry.plugin) (P.told result.plugin) result.over }
{
    match finish(rt, hired) {
        Ok(worked) => worked,
        Err(_) => unreachable!(),
    }
}

// What a worker hands back that is to leave.
fn came_back<O: Object, R: Threads, P: Plugin>(rt: &R, hired: Hired<'_, O, P>) -> (Pass, P)
    requires { hired.errand ≡ Leave }
    ensures { (result.0 ≡ hired.entry.pass) × (result.1 ≡ hired.entry.plugin) }
{
    match finish(rt, hired) {
        Ok(_) => unreachable!(),
        Err(back) => back,
    }
}

// What a plugin came to that had its turns here.
fn left<O: Object, R: Wait, P>(member: Member<P>, door: RoomDoor<'_, O, R>) -> Gathered<P>
    ensures { result ≡ record { pass = door.entry.pass; plugin = member.plugin; standing = member.standing } }
{
    let Member {
        caller: _,
        port: _,
        plugin,
        began: _,
        standing,
    } = member;
    Gathered {
        pass: door.into_pass(),
        plugin,
        standing,
    }
}

// A plugin that has no thread stays here.
fn stay<'a, O: Object, R: Threads + Wait, P: Plugin>(
    alloc: Global,
    rt: &'a R,
    room: &'a Room<O>,
    hired: Hired<'_, O, P>,
) -> Work<'a, O, R, P>
    requires leaves { hired.errand ≡ Leave }
    requires may { MayWork O.fits O.legal room.now.table.shared.table_id room.now.table.shared.key.first.value hired.pass }
    requires first { hired.first ≡ room.now.table.shared.key.first.value }
    ensures work { IsWork O.fits O.legal O.serves O.answers P.told hired.entry result }
    ensures place { place_by result ≡ Some (first_place hired.entry.pass) }
{
    let (pass, plugin) = came_back(rt, hired);
    let member = Member::new(alloc, pass.caller(), plugin);
    Work::Stays(member, RoomDoor::new(rt, room, pass))
}

// Where the plugin of a worker has its turns.
fn work_of<'a, O: Object, R: Threads + Wait, P: Plugin>(
    alloc: Global,
    rt: &'a R,
    room: &'a Room<O>,
    hired: Hired<'a, O, P>,
) -> Work<'a, O, R, P>
    requires may { MayWork O.fits O.legal room.now.table.shared.table_id room.now.table.shared.key.first.value hired.pass }
    requires first { hired.first ≡ room.now.table.shared.key.first.value }
    ensures work { IsWork O.fits O.legal O.serves O.answers P.told hired.entry result }
    ensures place { place_by result ≡ place_for hired.entry.errand hired.entry.pass }
{
    match hired.errand() {
        Errand::Serve => Work::Runs(hired),
        Errand::Leave => stay(alloc, rt, room, hired),
    }
}

// One visit at its door.
fn stay_once<'a, O: Object, R: Wait, P: Plugin>(
    alloc: Global,
    member: Member<P>,
    door: RoomDoor<'a, O, R>,
) -> (Member<P>, RoomDoor<'a, O, R>)
    requires going { member.standing ≡ Going }
    requires stays { (given : Hiring O P) × IsStay O.fits O.legal O.serves O.answers P.told given member door }
    ensures stays { (given : Hiring O P) → IsStay O.fits O.legal O.serves O.answers P.told given member door.entry
        → IsStay O.fits O.legal O.serves O.answers P.told given result.0 result.1 }
    ensures turn { (given : Hiring O P) → IsStay O.fits O.legal O.serves O.answers P.told given member door.entry
        → HasTurnHere (O.serves given.first) (O.answers given.first) (place_at member door.entry) (place_at result.0 result.1) }
{
    let mut member = member;
    let mut door = door;
    let after = member.port.turn_once(alloc, &mut door, &mut member.plugin);
    member.standing = standing_after(after);
    (member, door)
}

// The same, where the session goes on.
fn stayed<'a, O: Object, R: Wait, P: Plugin>(
    alloc: Global,
    member: Member<P>,
    door: RoomDoor<'a, O, R>,
) -> (Member<P>, RoomDoor<'a, O, R>)
    requires { (given : Hiring O P) × IsStay O.fits O.legal O.serves O.answers P.told given member door }
    ensures stays { (given : Hiring O P) → IsStay O.fits O.legal O.serves O.answers P.told given member door.entry
        → IsStay O.fits O.legal O.serves O.answers P.told given result.0 result.1 }
    ensures turn { (given : Hiring O P) → IsStay O.fits O.legal O.serves O.answers P.told given member door.entry
        → HasTurnHere (O.serves given.first) (O.answers given.first) (place_at member door.entry) (place_at result.0 result.1) }
{
    if member.standing.is_going() {
        stay_once(alloc, member, door)
    } else {
        (member, door)
    }
}

// Visits until the session goes on no more. It may wait: where the journal is not closed, for what comes.
fn stayed_to_end<'a, O: Object, R: Wait, P: Plugin>(
    alloc: Global,
    rt: &R,
    member: Member<P>,
    door: RoomDoor<'a, O, R>,
) -> (Member<P>, RoomDoor<'a, O, R>)
    requires { (given : Hiring O P) × IsStay O.fits O.legal O.serves O.answers P.told given member door }
    ensures stays { (given : Hiring O P) → IsStay O.fits O.legal O.serves O.answers P.told given member door.entry
        → IsStay O.fits O.legal O.serves O.answers P.told given result.0 result.1 }
    ensures over { is_going result.0.standing ≡ false }
{
    let mut member = member;
    let mut door = door;
    for _ in rt.forever() {
        if !member.standing.is_going() {
            return (member, door);
        }
        (member, door) = stay_once(alloc, member, door);
    }
    unreachable!()
}

// One visit of a plugin that has its turns here.
fn visited<'a, O: Object, R: Wait, P: Plugin>(
    alloc: Global,
    work: Work<'a, O, R, P>,
) -> Work<'a, O, R, P>
    requires { (given : Hiring O P) × IsWork O.fits O.legal O.serves O.answers P.told given work }
    ensures work { (given : Hiring O P) → IsWork O.fits O.legal O.serves O.answers P.told given work.entry
        → IsWork O.fits O.legal O.serves O.answers P.told given result }
    ensures turn { (given : Hiring O P) → IsWork O.fits O.legal O.serves O.answers P.told given work.entry
        → HasTurnAt (O.serves given.first) (O.answers given.first) (place_by work.entry) (place_by result) }
{
    match work {
        Work::Stays(member, door) => {
            let (member, door) = stayed(alloc, member, door);
            Work::Stays(member, door)
        }
        Work::Runs(hired) => Work::Runs(hired),
    }
}

// The same, where there is one.
fn visited_in<'a, O: Object, R: Wait, P: Plugin>(
    alloc: Global,
    work: Option<Work<'a, O, R, P>>,
) -> Option<Work<'a, O, R, P>>
    requires { (given : Hiring O P) × IsSomeAnd work (λ one. IsWork O.fits O.legal O.serves O.answers P.told given one) }
    ensures work { (given : Hiring O P) → IsSomeAnd work.entry (λ one. IsWork O.fits O.legal O.serves O.answers P.told given one)
        → IsSomeAnd result (λ one. IsWork O.fits O.legal O.serves O.answers P.told given one) }
    ensures turn { (given : Hiring O P) → IsSomeAnd work.entry (λ one. IsWork O.fits O.legal O.serves O.answers P.told given one)
        → HasTurnAt (O.serves given.first) (O.answers given.first) (place_in work.entry) (place_in result) }
{
    match work {
        Some(work) => Some(visited(alloc, work)),
        None => None,
    }
}

// What the work came to, once the session is over. Where it is on a thread, that has ended then.
fn work_gathered<O: Object, R: Threads + Wait, P: Plugin>(
    alloc: Global,
    rt: &R,
    work: Work<'_, O, R, P>,
) -> Gathered<P>
    requires { (given : Hiring O P) × IsWork O.fits O.legal O.serves O.answers P.told given work }
    ensures { (given : Hiring O P) → IsWork O.fits O.legal O.serves O.answers P.told given work.entry
        → HasServed O.serves O.answers P.told given result }
{
    match work {
        Work::Runs(hired) => gathered_of(served_by(rt, hired)),
        Work::Stays(member, door) => {
            let (member, door) = stayed_to_end(alloc, rt, member, door);
            left(member, door)
        }
    }
}

impl<'a, O: Object, R: Threads + Wait, P: Plugin> Post<'a, O, R, P> {
    /// A worker that was hired at the room. Where it has no thread, the plugin has its turns on the calling thread.
    pub fn of(
        alloc: Global,
        rt: &'a R,
        room: &'a Room<O>,
        hired: Hired<'a, O, P>,
    ) -> Post<'a, O, R, P>
        requires may { MayWork O.fits O.legal room.now.table.shared.table_id room.now.table.shared.key.first.value hired.pass }
        requires first { hired.first ≡ room.now.table.shared.key.first.value }
        ensures given { result.given ≡ hired.entry }
        ensures placed { IsPlaced result }
    {
        let given = Snapshot::of(&hired);
        let work = work_of(alloc, rt, room, hired);
        Post {
            given,
            work: Some(work),
        }
    }

    // One visit, where the plugin has its turns here.
    pub(crate) fn visit(&mut self, alloc: Global)
        ensures { IsVisited O.serves O.answers self.old self.new }
    {
        let work = mem::replace(&mut self.work, None);
        self.work = visited_in(alloc, work);
    }

    // What became of the plugin, once its session is over. Where it has a thread, that has ended then.
    pub(crate) fn gathered(self, alloc: Global, rt: &R) -> Gathered<P>
        ensures { HasServed O.serves O.answers P.told self.entry.given result }
    {
        let Post { given: _, work } = self;
        match work {
            Some(work) => work_gathered(alloc, rt, work),
            None => unreachable!(),
        }
    }
}
