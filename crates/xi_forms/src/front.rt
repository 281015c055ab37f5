// The part on threads: the front end is served, and all plugins come to their end.
ghost use Rattle.std.specs.Prelude.{◌≡◌, ◌≤◌, ◌<◌, [], length, vec_len, vec_capacity, IfOk, IfErr};
ghost use Rattle.outside.specs.Source.{source_state};
ghost use Rattle.xi_plain.specs.Journal.{front_entries};
ghost use Rattle.room_lock.specs.Room.{after_split, first_pass};
ghost use Rattle.plugin_session.specs.Alone.{IsReady};
ghost use Rattle.plugin_crew.specs.Alone.{MayServe};
ghost use Rattle.plugin_crew.specs.Place.{givens_of};
ghost use Rattle.plugin_crew.specs.Threads.{IsGiven, MayTake, begun_in};
ghost use Rattle.xi_top.specs.Reads.{ReadsLines};
ghost use Rattle.xi_forms.specs.InnerThreads.{AllCameBack};

use outside::{Gate, Source};
use plugin_crew::{Back, Post, RoomFront, hire_all};
use plugin_session::{Errand, Plugin, turned_away};
use room_lock::{Pass, Room};
use std::alloc::Global;
use std::sync::{OnceLock, Wait};
use std::thread;
use std::thread::{Scope, Threads};
use xi_plain::Object;
use xi_top::{Ending, Run, serve};

// Serves the front end to its end, enters the closing entry, and gathers all.
fn serve_front<S: Source, O: Object, R: Threads + Wait, P: Plugin>(
    alloc: Global,
    source: &mut S,
    taker: RoomFront<'_, O, R, P>,
    back: Back<P>,
) -> (Result<(), Ending>, Back<P>)
    requires ready { MayTake O.fits O.serves taker.room.now.table.shared.table_id taker.room.now.table.shared.key.first.value taker.pass
        taker.posts.items }
    requires reads { ReadsLines (O.serves taker.room.now.table.shared.key.first.value) }
    requires none { front_entries taker.pass.seen ≡ [] }
    requires empty { (back.passes.items ≡ []) × (back.plugins.items ≡ []) }
    requires reserved { (length taker.posts.items < vec_capacity back.passes) × (length taker.posts.items ≤ vec_capacity back.plugins) }
    ensures { AllCameBack O.serves O.answers P.told taker.entry.room.now.table.shared.table_id
        taker.entry.room.now.table.shared.key.first.value (begun_in (givens_of taker.entry.posts.items))
        (source_state S.left S.faults S.failures S.reads source.old) (source_state S.left S.faults S.failures S.reads source.new)
        result.0 result.1.passes.items result.1.plugins.items result.1.all_served }
{
    let mut run = Run::new(alloc, taker);
    let outcome = serve(source, &mut run);
    let mut last = run.into_taker();
    last.close();
    (outcome, last.gather_all(back))
}

// Hires a worker for each plugin, and serves the front end.
fn serve_in_scope<
    's,
    E,
    S: Source,
    O: Object + Send + 's,
    P: Plugin + Send + 's,
    G: Gate + Sync,
    R: Threads + Wait + Sync,
>(
    scope: &Scope<'s, E>,
    rt: &'s R,
    alloc: Global,
    source: &mut S,
    room: &'s Room<O>,
    front: Pass,
    plugins: Vec<P>,
    said: &'s [OnceLock<Errand>],
    posts: Vec<Post<'s, O, R, P>>,
    back: Back<P>,
    gate: &'s G,
) -> (Result<(), Ending>, Back<P>)
    requires front { front ≡ first_pass room.now.table.shared.table_id }
    requires few { (vec_len plugins ≤ 64) × (vec_len plugins < room.now.table.shared.key.most) }
    requires vectors { (vec_len plugins ≤ length said.now) × (posts.items ≡ []) × (vec_len plugins ≤ vec_capacity posts) }
    requires may { MayServe O.fits O.serves (length plugins.items) room.now.table.shared.key.first.value }
    requires lawful { O.legal room.now.table.shared.key.first.value [] }
    requires reads { ReadsLines (O.serves room.now.table.shared.key.first.value) }
    requires empty { (back.passes.items ≡ []) × (back.plugins.items ≡ []) }
    requires reserved { (vec_len plugins < vec_capacity back.passes) × (vec_len plugins ≤ vec_capacity back.plugins) }
    ensures { AllCameBack O.serves O.answers P.told room.now.table.shared.table_id room.now.table.shared.key.first.value
        plugins.items (source_state S.left S.faults S.failures S.reads source.old) (source_state S.left S.faults S.failures S.reads source.new)
        result.0 result.1.passes.items result.1.plugins.items result.1.all_served }
{
    let taker = hire_all(scope, rt, alloc, room, front, plugins, said, posts, gate);
    serve_front(alloc, source, taker, back)
}

// What came back from the threads: the end of the run; or all that was handed in, where there was no room for the posts of the workers.
type Tried<P> = Result<(Result<(), Ending>, Back<P>), (Pass, Vec<P>, Back<P>)>;

// Serves the front end on the calling thread, and each plugin on one of its own, until all have ended.
fn serve_on_threads<
    'a,
    S: Source,
    O: Object + Send,
    P: Plugin + Send,
    G: Gate + Sync,
    R: Threads + Wait + Sync,
>(
    rt: &'a R,
    alloc: Global,
    source: &mut S,
    room: &'a Room<O>,
    front: Pass,
    plugins: Vec<P>,
    said: &'a [OnceLock<Errand>],
    back: Back<P>,
    gate: &'a G,
) -> Tried<P>
    requires front { front ≡ first_pass room.now.table.shared.table_id }
    requires few { (vec_len plugins ≤ 64) × (vec_len plugins < room.now.table.shared.key.most) }
    requires words { vec_len plugins ≤ length said.now }
    requires may { MayServe O.fits O.serves (length plugins.items) room.now.table.shared.key.first.value }
    requires lawful { O.legal room.now.table.shared.key.first.value [] }
    requires reads { ReadsLines (O.serves room.now.table.shared.key.first.value) }
    requires empty { (back.passes.items ≡ []) × (back.plugins.items ≡ []) }
    requires reserved { (vec_len plugins < vec_capacity back.passes) × (vec_len plugins ≤ vec_capacity back.plugins) }
    ensures came { IfOk result (λ came. AllCameBack O.serves O.answers P.told room.now.table.shared.table_id
        room.now.table.shared.key.first.value plugins.items
        (source_state S.left S.faults S.failures S.reads source.old) (source_state S.left S.faults S.failures S.reads source.new)
        came.0 came.1.passes.items came.1.plugins.items came.1.all_served) }
    ensures left { IfErr result (λ left. (left.0 ≡ front) × (left.1 ≡ plugins) × (left.2 ≡ back) × (source.new ≡ source.old)) }
{
    let (tried, _source) = thread::scope(
        thread::scope_env(),
        rt,
        move |scope| -> (Tried<P>, &mut S)
            requires front { front ≡ first_pass room.now.table.shared.table_id }
            requires few { (vec_len plugins ≤ 64) × (vec_len plugins < room.now.table.shared.key.most) }
            requires words { vec_len plugins ≤ length said.now }
            requires may { MayServe O.fits O.serves (length plugins.items) room.now.table.shared.key.first.value }
            requires lawful { O.legal room.now.table.shared.key.first.value [] }
            requires reads { ReadsLines (O.serves room.now.table.shared.key.first.value) }
            requires empty { (back.passes.items ≡ []) × (back.plugins.items ≡ []) }
            requires reserved { (vec_len plugins < vec_capacity back.passes) × (vec_len plugins ≤ vec_capacity back.plugins) }
            ensures goes { result.1.ghost_name ≡ source.entry.ghost_name }
            ensures came { IfOk result.0 (λ came. AllCameBack O.serves O.answers P.told room.entry.now.table.shared.table_id
                room.entry.now.table.shared.key.first.value plugins.items
                (source_state S.left S.faults S.failures S.reads source.entry.now) (source_state S.left S.faults S.failures S.reads result.1.now)
                came.0 came.1.passes.items came.1.plugins.items came.1.all_served) }
            ensures left { IfErr result.0 (λ left. (left.0 ≡ front) × (left.1 ≡ plugins) × (left.2 ≡ back)
                × (result.1.now ≡ source.entry.now)) }
        {
            match Vec::with_capacity(alloc, plugins.len()) {
                Ok(posts) => {
                    let came = serve_in_scope(
                        scope, rt, alloc, source, room, front, plugins, said, posts, back, gate,
                    );
                    (Ok(came), source)
                }
                Err(_) => (Err((front, plugins, back)), source),
            }
        },
    );
    tried
}

// Gives a plugin its place on the calling thread, by the next pass.
fn seat_next<'a, O: Object, R: Threads + Wait, P: Plugin>(
    rt: &'a R,
    alloc: Global,
    room: &'a Room<O>,
    front: &mut Pass,
    plugin: P,
) -> Post<'a, O, R, P>
    requires room { front.old.room ≡ room.now.table.shared.table_id }
    requires front { front.old.caller ≡ 0 }
    requires few { front.old.made < room.now.table.shared.key.most }
    requires ready { IsReady O.fits front.old.made room.now.table.shared.key.first.value }
    requires lawful { O.legal room.now.table.shared.key.first.value front.old.seen }
    ensures front { front.new ≡ after_split front.old }
    ensures given { IsGiven room.now.table.shared.table_id room.now.table.shared.key.first.value front.old.made result.given }
    ensures plugin { result.given.plugin ≡ plugin }
{
    let pass = room.split(front);
    let hired = turned_away(room, pass, plugin);
    Post::of(alloc, rt, room, hired)
}

// So each, in their order, by the passes that follow that of caller 0.
fn seat_all<'a, O: Object, R: Threads + Wait, P: Plugin>(
    rt: &'a R,
    alloc: Global,
    room: &'a Room<O>,
    front: Pass,
    plugins: Vec<P>,
    posts: Vec<Post<'a, O, R, P>>,
) -> RoomFront<'a, O, R, P>
    requires front { front ≡ first_pass room.now.table.shared.table_id }
    requires few { (vec_len plugins ≤ 64) × (vec_len plugins < room.now.table.shared.key.most) }
    requires reserved { (posts.items ≡ []) × (vec_len plugins ≤ vec_capacity posts) }
    requires may { MayServe O.fits O.serves (length plugins.items) room.now.table.shared.key.first.value }
    requires lawful { O.legal room.now.table.shared.key.first.value [] }
    ensures room { result.room.now ≡ room.now }
    ensures none { front_entries result.pass.seen ≡ [] }
    ensures begun { begun_in (givens_of result.posts.items) ≡ plugins.items }
    ensures ready { MayTake O.fits O.serves room.now.table.shared.table_id room.now.table.shared.key.first.value result.pass
        result.posts.items }
{
    let mut pass = front;
    let mut posts = posts;
    for plugin in plugins {
        let post = seat_next(rt, alloc, room, &mut pass, plugin);
        posts.push_reserved(post);
    }
    RoomFront::new(alloc, rt, room, pass, posts)
}

// The same run without threads: each plugin has its turns on the calling thread.
fn serve_here<'a, S: Source, O: Object, P: Plugin, R: Threads + Wait>(
    rt: &'a R,
    alloc: Global,
    source: &mut S,
    room: &'a Room<O>,
    front: Pass,
    plugins: Vec<P>,
    posts: Vec<Post<'a, O, R, P>>,
    back: Back<P>,
) -> (Result<(), Ending>, Back<P>)
    requires front { front ≡ first_pass room.now.table.shared.table_id }
    requires few { (vec_len plugins ≤ 64) × (vec_len plugins < room.now.table.shared.key.most) }
    requires vectors { (posts.items ≡ []) × (vec_len plugins ≤ vec_capacity posts) }
    requires may { MayServe O.fits O.serves (length plugins.items) room.now.table.shared.key.first.value }
    requires lawful { O.legal room.now.table.shared.key.first.value [] }
    requires reads { ReadsLines (O.serves room.now.table.shared.key.first.value) }
    requires empty { (back.passes.items ≡ []) × (back.plugins.items ≡ []) }
    requires reserved { (vec_len plugins < vec_capacity back.passes) × (vec_len plugins ≤ vec_capacity back.plugins) }
    ensures { AllCameBack O.serves O.answers P.told room.now.table.shared.table_id room.now.table.shared.key.first.value
        plugins.items (source_state S.left S.faults S.failures S.reads source.old) (source_state S.left S.faults S.failures S.reads source.new)
        result.0 result.1.passes.items result.1.plugins.items result.1.all_served }
{
    let taker = seat_all(rt, alloc, room, front, plugins, posts);
    serve_front(alloc, source, taker, back)
}

/// Serves the front end on the calling thread, and each plugin on one of its own, until all have ended; or all on the calling thread, where there
/// is no room for the posts of workers.
pub fn serve_all<
    'a,
    S: Source,
    O: Object + Send,
    P: Plugin + Send,
    G: Gate + Sync,
    R: Threads + Wait + Sync,
>(
    rt: &'a R,
    alloc: Global,
    source: &mut S,
    room: &'a Room<O>,
    front: Pass,
    plugins: Vec<P>,
    said: &'a [OnceLock<Errand>],
    posts: Vec<Post<'a, O, R, P>>,
    back: Back<P>,
    gate: &'a G,
) -> (Result<(), Ending>, Back<P>)
    requires front { front ≡ first_pass room.now.table.shared.table_id }
    requires few { (vec_len plugins ≤ 64) × (vec_len plugins < room.now.table.shared.key.most) }
    requires vectors { (vec_len plugins ≤ length said.now) × (posts.items ≡ []) × (vec_len plugins ≤ vec_capacity posts) }
    requires may { MayServe O.fits O.serves (length plugins.items) room.now.table.shared.key.first.value }
    requires lawful { O.legal room.now.table.shared.key.first.value [] }
    requires reads { ReadsLines (O.serves room.now.table.shared.key.first.value) }
    requires empty { (back.passes.items ≡ []) × (back.plugins.items ≡ []) }
    requires reserved { (vec_len plugins < vec_capacity back.passes) × (vec_len plugins ≤ vec_capacity back.plugins) }
    ensures { AllCameBack O.serves O.answers P.told room.now.table.shared.table_id room.now.table.shared.key.first.value
        plugins.items (source_state S.left S.faults S.failures S.reads source.old) (source_state S.left S.faults S.failures S.reads source.new)
        result.0 result.1.passes.items result.1.plugins.items result.1.all_served }
{
    match serve_on_threads(rt, alloc, source, room, front, plugins, said, back, gate) {
        Ok(came) => came,
        Err((front, plugins, back)) => {
            serve_here(rt, alloc, source, room, front, plugins, posts, back)
        }
    }
}
