// A run on threads: who is hired, who takes lines, and who is gathered.
ghost use Rattle.std.specs.Prelude.{◌≡◌, ◌≤◌, ◌<◌, ◌+◌, [], length, vec_len, vec_capacity};
ghost use Rattle.std.specs.List.{All};
ghost use Rattle.xi_plain.specs.declared.ask.Ask.TheVariants.{CloseDown};
ghost use Rattle.xi_plain.specs.Journal.{front_entries};
ghost use Rattle.xi_plain.specs.Room.{Begins};
ghost use Rattle.room_lock.specs.Room.{IsSamePass, after_split, first_pass, next_pass};
ghost use Rattle.plugin_session.specs.Worker.{MayWork};
ghost use Rattle.plugin_session.specs.Alone.{IsReady};
ghost use Rattle.plugin_crew.specs.Alone.{MayServe};
ghost use Rattle.plugin_crew.specs.Taker.{HasTaken, IsEnteredBy, IsTakenBy, TellsFaults, adds_entry, is_sent};
ghost use Rattle.plugin_crew.specs.Place.{AreVisited, AreVisitedIf, IsPlaced, givens_of};
ghost use Rattle.plugin_crew.specs.Threads.{AreBack, IsGiven, IsStaffed, MayTake, begun_in};

use crate::back::{Back, gather};
use crate::post::Post;
use crate::taker::LineTaker;
use crate::took::{Took, took_of};
use outside::Gate;
use plugin_session::{Errand, Plugin, hire};
use room_lock::{Pass, Room};
use std::alloc::Global;
use std::sync::{OnceLock, Wait};
use std::thread::{Scope, Threads};
use xi_plain::{Ask, Bytes, Object};

/// A room with the pass of caller 0, and the plugins of a run on threads. It gives those their turns that have no thread. To a contract it is
/// the room, the pass, and its posts.
#[derive(Drop)]
pub struct RoomFront<'a, O: Object, R, P: Plugin> {
    rt: &'a R,
    pub(crate) room: &'a Room<O>,
    pub(crate) pass: Pass,
    pub(crate) posts: Vec<Post<'a, O, R, P>>,
    alloc: Global,
}

// The next pass, which is one of a plugin that may work.
fn split_pass<O: Object>(room: &Room<O>, front: &mut Pass) -> Pass
    requires room { front.old.room ≡ room.now.table.shared.table_id }
    requires front { front.old.caller ≡ 0 }
    requires few { front.old.made < room.now.table.shared.key.most }
    requires ready { IsReady O.fits front.old.made room.now.table.shared.key.first.value }
    requires lawful { O.legal room.now.table.shared.key.first.value front.old.seen }
    ensures front { front.new ≡ after_split front.old }
    ensures next { result ≡ next_pass front.old }
    ensures may { MayWork O.fits O.legal room.now.table.shared.table_id room.now.table.shared.key.first.value result }
{
    room.split(front)
}

// Hires a worker by the next pass.
fn hire_next<
    's,
    E,
    O: Object + Send + 's,
    P: Plugin + Send + 's,
    G: Gate + Sync,
    R: Threads + Wait + Sync,
>(
    scope: &Scope<'s, E>,
    rt: &'s R,
    alloc: Global,
    said: &'s OnceLock<Errand>,
    room: &'s Room<O>,
    front: &mut Pass,
    plugin: P,
    gate: &'s G,
) -> Post<'s, O, R, P>
    requires room { front.old.room ≡ room.now.table.shared.table_id }
    requires front { front.old.caller ≡ 0 }
    requires few { front.old.made < room.now.table.shared.key.most }
    requires ready { IsReady O.fits front.old.made room.now.table.shared.key.first.value }
    requires lawful { O.legal room.now.table.shared.key.first.value front.old.seen }
    ensures front { front.new ≡ after_split front.old }
    ensures given { IsGiven room.now.table.shared.table_id room.now.table.shared.key.first.value front.old.made result.given }
    ensures plugin { result.given.plugin ≡ plugin }
    ensures placed { IsPlaced result }
{
    let pass = split_pass(room, front);
    let hired = hire(scope, rt, alloc, said, room, pass, plugin, gate);
    Post::of(alloc, rt, room, hired)
}

/// Hires a worker for each plugin, in their order, by the passes that follow that of caller 0. Each has a word of its own for its errand, which
/// was not said yet. This takes no memory but that of the threads: `posts` has room for all.
pub fn hire_all<
    's,
    E,
    O: Object + Send + 's,
    P: Plugin + Send + 's,
    G: Gate + Sync,
    R: Threads + Wait + Sync,
>(
    scope: &Scope<'s, E>,
    rt: &'s R,
    alloc: Global,
    room: &'s Room<O>,
    front: Pass,
    plugins: Vec<P>,
    said: &'s [OnceLock<Errand>],
    posts: Vec<Post<'s, O, R, P>>,
    gate: &'s G,
) -> RoomFront<'s, O, R, P>
    requires front { front ≡ first_pass room.now.table.shared.table_id }
    requires few { (vec_len plugins ≤ 64) × (vec_len plugins < room.now.table.shared.key.most) }
    requires reserved { (vec_len plugins ≤ length said.now) × (posts.items ≡ []) × (vec_len plugins ≤ vec_capacity posts) }
    requires may { MayServe O.fits O.serves (length plugins.items) room.now.table.shared.key.first.value }
    requires lawful { O.legal room.now.table.shared.key.first.value [] }
    ensures room { result.room.now ≡ room.now }
    ensures none { front_entries result.pass.seen ≡ [] }
    ensures begun { begun_in (givens_of result.posts.items) ≡ plugins.items }
    ensures placed { All IsPlaced result.posts.items }
    ensures ready { MayTake O.fits O.serves room.now.table.shared.table_id room.now.table.shared.key.first.value result.pass
        result.posts.items }
{
    let mut pass = front;
    let mut posts = posts;
    let mut at = 0;
    for plugin in plugins {
        let post = hire_next(scope, rt, alloc, &said[at], room, &mut pass, plugin, gate);
        posts.push_reserved(post);
        at += 1;
    }
    RoomFront::new(alloc, rt, room, pass, posts)
}

// Enters this as caller 0. What its entry says is in the pass.
fn enter_front<O: Object, R: Wait>(rt: &R, room: &Room<O>, pass: &mut Pass, ask: Ask) -> Took
    requires room { pass.old.room ≡ room.now.table.shared.table_id }
    requires front { pass.old.caller ≡ 0 }
    requires fits { O.fits room.now.table.shared.key.first.value 0 ask }
    requires faults { TellsFaults (O.serves room.now.table.shared.key.first.value) }
    ensures same { IsSamePass pass.old pass.new }
    ensures seen { Begins pass.old.seen pass.new.seen }
    ensures took { HasTaken (front_entries pass.old.seen) result (front_entries pass.new.seen) }
    ensures served { IsEnteredBy (O.serves room.now.table.shared.key.first.value) ask pass.old.seen result pass.new.seen }
{
    let (reply, _receipt) = room.enter(rt, pass, ask);
    took_of(&reply)
}

// Gives each plugin that has no thread one visit, in their order.
fn round<O: Object, R: Threads + Wait, P: Plugin>(alloc: Global, posts: &mut Vec<Post<'_, O, R, P>>)
    ensures { AreVisited O.serves O.answers posts.old.items posts.new.items }
{
    for at in 0..posts.len() {
        posts[at].visit(alloc);
    }
}

// The same, where this is so.
fn round_where<O: Object, R: Threads + Wait, P: Plugin>(
    alloc: Global,
    posts: &mut Vec<Post<'_, O, R, P>>,
    goes: bool,
)
    ensures { AreVisitedIf O.serves O.answers goes posts.old.items posts.new.items }
{
    if goes {
        round(alloc, posts);
    }
}

impl<'a, O: Object, R: Threads + Wait, P: Plugin> RoomFront<'a, O, R, P> {
    /// The front of these plugins, which were given the passes that follow that of caller 0.
    pub fn new(
        alloc: Global,
        rt: &'a R,
        room: &'a Room<O>,
        pass: Pass,
        posts: Vec<Post<'a, O, R, P>>,
    ) -> RoomFront<'a, O, R, P>
        requires { IsStaffed room.now.table.shared.table_id room.now.table.shared.key.first.value pass (givens_of posts.items) }
        ensures { (result.room.now ≡ room.now) × (result.pass ≡ pass) × (result.posts.items ≡ posts.entry.items) }
    {
        RoomFront {
            rt,
            room,
            pass,
            posts,
            alloc,
        }
    }

    /// Enters the closing entry, and gives each plugin that has no thread its last turn. It may wait.
    pub fn close(&mut self) -> Took
        requires ready { MayTake O.fits O.serves self.old.room.now.table.shared.table_id
            self.old.room.now.table.shared.key.first.value self.old.pass self.old.posts.items }
        ensures same { (self.new.room.now ≡ self.old.room.now) × (givens_of self.new.posts.items ≡ givens_of self.old.posts.items) }
        ensures seen { Begins self.old.pass.seen self.new.pass.seen }
        ensures round { AreVisitedIf O.serves O.answers (adds_entry result) self.old.posts.items self.new.posts.items }
        ensures ready { MayTake O.fits O.serves self.new.room.now.table.shared.table_id
            self.new.room.now.table.shared.key.first.value self.new.pass self.new.posts.items }
        ensures took { HasTaken (front_entries self.old.pass.seen) result (front_entries self.new.pass.seen) }
        ensures served { IsEnteredBy (O.serves self.old.room.now.table.shared.key.first.value) CloseDown
            self.old.pass.seen result self.new.pass.seen }
    {
        let took = enter_front(self.rt, self.room, &mut self.pass, Ask::CloseDown);
        round_where(self.alloc, &mut self.posts, took.adds_entry());
        took
    }

    /// The passes and the plugins, in the order of callers, once all sessions are over and all threads have ended. What comes back has room
    /// for them. It may wait: where the room was not closed, for plugins that go on.
    pub fn gather_all(self, back: Back<P>) -> Back<P>
        requires empty { (back.passes.items ≡ []) × (back.plugins.items ≡ []) }
        requires reserved { (length self.posts.items < vec_capacity back.passes) × (length self.posts.items ≤ vec_capacity back.plugins) }
        requires staffed { IsStaffed self.room.now.table.shared.table_id self.room.now.table.shared.key.first.value self.pass
            (givens_of self.posts.items) }
        ensures { AreBack O.serves O.answers P.told self.entry.room.now.table.shared.table_id
            self.entry.room.now.table.shared.key.first.value self.entry.pass.seen
            (givens_of self.entry.posts.items) result.passes.items result.plugins.items result.all_served }
    {
        let RoomFront {
            rt,
            room: _,
            pass,
            posts,
            alloc,
        } = self;
        let mut back = back;
        back.passes.push_reserved(pass);
        back.all_served = true;
        gather(alloc, rt, posts, back)
    }
}

impl<O: Object, R: Threads + Wait, P: Plugin> LineTaker for RoomFront<'_, O, R, P> {
    ghost use Rattle.std.specs.Prelude.{◌≡◌, refl};
    ghost use Rattle.std.proofs.Common.{◌∙◌, subst};
    ghost use Rattle.xi_plain.specs.Room.{Begins};
    ghost use Rattle.plugin_session.specs.Seat.{Begins-same, Begins-trans};
    ghost use Rattle.plugin_crew.specs.Place.{givens_of};
    ghost use Rattle.plugin_crew.specs.Threads.{MayTake};

    ghost seen = { λ f. f.pass.seen };

    ghost serves = { λ f. O.serves f.room.now.table.shared.key.first.value };

    ghost later = { λ f g. (g.room.now ≡ f.room.now) × Begins f.pass.seen g.pass.seen
        × (givens_of g.posts.items ≡ givens_of f.posts.items) };

    ghost ready = { λ f. MayTake O.fits O.serves f.room.now.table.shared.table_id f.room.now.table.shared.key.first.value f.pass
        f.posts.items };

    fn take(&mut self, line: Bytes) -> Took
        requires ready { MayTake O.fits O.serves self.old.room.now.table.shared.table_id
            self.old.room.now.table.shared.key.first.value self.old.pass self.old.posts.items }
        ensures ready { MayTake O.fits O.serves self.new.room.now.table.shared.table_id
            self.new.room.now.table.shared.key.first.value self.new.pass self.new.posts.items }
        ensures later { (self.new.room.now ≡ self.old.room.now) × Begins self.old.pass.seen self.new.pass.seen
            × (givens_of self.new.posts.items ≡ givens_of self.old.posts.items) }
        ensures took { HasTaken (front_entries self.old.pass.seen) result (front_entries self.new.pass.seen) }
        ensures served { IsTakenBy (O.serves self.old.room.now.table.shared.key.first.value) line
            self.old.pass.seen result self.new.pass.seen }
        ensures round { AreVisitedIf O.serves O.answers (is_sent result) self.old.posts.items self.new.posts.items }
    {
        let took = enter_front(self.rt, self.room, &mut self.pass, Ask::FrontLine(line));
        round_where(self.alloc, &mut self.posts, took.is_sent());
        took
    }

    ghost same = { λ a. (refl, Begins-same a.pass.seen, refl) };

    ghost onward = { λ a b c first then. (
      then.0 ∙ first.0,
      Begins-trans a.pass.seen b.pass.seen c.pass.seen first.1 then.1,
      then.2 ∙ first.2,
    ) };

    ghost prefix = { λ a b later. later.1 };

    ghost serves_on = { λ a b before caller ask reply after later served.
        subst (λ r. O.serves r.table.shared.key.first.value before caller ask reply after) later.0 served };
}
