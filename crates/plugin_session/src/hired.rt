// Workers on threads.
ghost use Rattle.std.specs.Prelude.{◌≡◌};
ghost use Rattle.plugin_session.specs.declared.errand.Errand.TheVariants.{Leave};
ghost use Rattle.plugin_session.specs.Hired.{Hiring, IsHandedBack};
ghost use Rattle.plugin_session.specs.Worker.{MayWork};

use crate::errand::Errand;
use crate::plugin::Plugin;
use crate::worker::{Worked, serve_plugin};
use outside::Gate;
use room_lock::{Pass, Room};
use std::alloc::Global;
use std::marker::Model;
use std::snapshot::Snapshot;
use std::sync::{OnceLock, OnceToken, Wait};
use std::thread::{Promise, PromisedHandle, Scope, SpawnError, Threads};
use xi_plain::Object;

// What a worker hands back: what it came to, or pass and plugin where it was turned away.
type Returned<P> = Result<Worked<P>, (Pass, P)>;

// The same, with what shows its errand.
type Handed<'s, P> = (OnceToken<'s, Errand>, Returned<P>);

// What a worker is given.
#[derive(Drop)]
struct Given<O: Object, P> {
    room: Snapshot<Room<O>>,
    pass: Snapshot<Pass>,
    plugin: Snapshot<P>,
}

// What a worker's thread promises: to come back by the errand that is said here.
#[derive(Drop)]
struct Pledge<'s, O: Object, P> {
    given: Given<O, P>,
    said: &'s OnceLock<Errand>,
}

impl<'s, O: Object, P: Plugin> Promise<Handed<'s, P>> for Pledge<'s, O, P> {
    ghost use Rattle.std.specs.Prelude.{◌≡◌};
    ghost use Rattle.plugin_session.specs.Hired.{IsHandedBack};

    ghost kept_by = { λ pledge handed. (handed.0.of ≡ pledge.said.now.id)
        × IsHandedBack (O.serves pledge.given.room.value.table.shared.key.first.value)
        (O.answers pledge.given.room.value.table.shared.key.first.value)
        P.told pledge.given.pass.value pledge.given.plugin.value handed.0.value handed.1 };
}

// A worker's thread, and what shows its errand.
#[derive(Drop)]
struct Running<'s, O: Object, P: Plugin> {
    handle: PromisedHandle<Handed<'s, P>, Pledge<'s, O, P>>,
    token: OnceToken<'s, Errand>,
}

/// A worker that was hired: its thread, or what came of it at once. To a contract it is what it was given (the object that the room was made
/// with, the pass and the plugin), and its errand.
#[derive(Drop)]
pub struct Hired<'s, O: Object, P: Plugin> {
    given: Given<O, P>,
    errand: Errand,
    thread: Result<Running<'s, O, P>, Returned<P>>,
}

impl<'s, O: Object, P: Plugin> Model for Hired<'s, O, P> {
    ghost use Rattle.std.specs.Prelude.{◌≡◌, MatchResult};
    ghost use Rattle.plugin_session.specs.Hired.{Hiring, IsHandedBack};

    ghost Value = { Hiring O P };

    ghost view = { λ h. record {
      first = h.given.room.value.table.shared.key.first.value;
      pass = h.given.pass.value;
      plugin =
          h.given.plugin.value;
      errand = h.errand;
    } };

    ghost invariant = { λ h. MatchResult h.thread
        (λ running. (running.token.of ≡ running.handle.promise.said.now.id) × (running.token.value ≡ h.errand)
        × (running.handle.promise.given.room.value.table.shared.key.first.value ≡ h.given.room.value.table.shared.key.first.value)
        × (running.handle.promise.given.pass.value ≡ h.given.pass.value)
        × (running.handle.promise.given.plugin.value ≡ h.given.plugin.value))
        (λ handed. IsHandedBack (O.serves h.given.room.value.table.shared.key.first.value)
        (O.answers h.given.room.value.table.shared.key.first.value)
        P.told h.given.pass.value h.given.plugin.value h.errand handed) };
}

// The worker's part, by its errand.
fn serve_by<O: Object, P: Plugin, G: Gate, R: Wait>(
    rt: &R,
    alloc: Global,
    errand: Errand,
    room: &Room<O>,
    pass: Pass,
    plugin: P,
    gate: &G,
) -> Returned<P>
    requires { MayWork O.fits O.legal room.now.table.shared.table_id room.now.table.shared.key.first.value pass }
    ensures { IsHandedBack (O.serves room.now.table.shared.key.first.value) (O.answers room.now.table.shared.key.first.value)
        P.told pass plugin errand result }
{
    match errand {
        Errand::Serve => Ok(serve_plugin(rt, alloc, room, pass, plugin, gate)),
        Errand::Leave => Err((pass, plugin)),
    }
}

// The same, by what was said. Where nothing was, it is to serve.
fn serve_said<'s, O: Object, P: Plugin, G: Gate, R: Wait>(
    rt: &R,
    alloc: Global,
    said: &'s OnceLock<Errand>,
    room: &Room<O>,
    pass: Pass,
    plugin: P,
    gate: &G,
) -> Handed<'s, P>
    requires { MayWork O.fits O.legal room.now.table.shared.table_id room.now.table.shared.key.first.value pass }
    ensures said { result.0.of ≡ said.now.id }
    ensures handed { IsHandedBack (O.serves room.now.table.shared.key.first.value) (O.answers room.now.table.shared.key.first.value)
        P.told pass plugin result.0.value result.1 }
{
    let token = said.init(rt, || Errand::Serve);
    let errand = *said.value(&token);
    let returned = serve_by(rt, alloc, errand, room, pass, plugin, gate);
    (token, returned)
}

/// Hires a worker, which gives the plugin its turns on a thread of the scope. Where no thread can be started, pass and plugin come back
/// untouched: that is said to be its errand, before it is called on this thread. The word is of this one worker, and was not said yet.
pub fn hire<
    's,
    E,
    O: Object + Send + 's,
    P: Plugin + Send + 's,
    G: Gate + Sync,
    R: Threads + Wait + Sync,
>(
    scope: &Scope<'s, E>,
    rt: &'s R,
    alloc: Global,
    said: &'s OnceLock<Errand>,
    room: &'s Room<O>,
    pass: Pass,
    plugin: P,
    gate: &'s G,
) -> Hired<'s, O, P>
    requires { MayWork O.fits O.legal room.now.table.shared.table_id room.now.table.shared.key.first.value pass }
    ensures first { result.first ≡ room.now.table.shared.key.first.value }
    ensures given { (result.pass ≡ pass) × (result.plugin ≡ plugin) }
{
    let given = given_of(room, &pass, &plugin);
    let pledge = Pledge {
        given: given_of(room, &pass, &plugin),
        said,
    };
    let attempt = scope.spawn_with(
        pledge,
        move || -> Handed<'_, P>
            requires { MayWork O.fits O.legal room.now.table.shared.table_id room.now.table.shared.key.first.value pass }
            ensures said { result.0.of ≡ said.entry.now.id }
            ensures handed { IsHandedBack (O.serves room.entry.now.table.shared.key.first.value)
                (O.answers room.entry.now.table.shared.key.first.value)
                P.told pass plugin result.0.value result.1 }
        { serve_said(rt, alloc, said, room, pass, plugin, gate) },
    );
    match attempt {
        Ok(handle) => {
            let token = said.init(rt, || Errand::Serve);
            let errand = *said.value(&token);
            Hired {
                given,
                errand,
                thread: Ok(Running { handle, token }),
            }
        }
        Err(refused) => {
            let token = said.init(rt, || Errand::Leave);
            let errand = *said.value(&token);
            let (theirs, returned) = (refused.value)();
            token.agrees(&theirs);
            Hired {
                given,
                errand,
                thread: Err(returned),
            }
        }
    }
}

// What a worker is given, as it is now.
fn given_of<O: Object, P>(room: &Room<O>, pass: &Pass, plugin: &P) -> Given<O, P>
    ensures room { result.room.value ≡ room.now }
    ensures given { (result.pass.value ≡ pass.now) × (result.plugin.value ≡ plugin.now) }
{
    Given {
        room: Snapshot::of(room),
        pass: Snapshot::of(pass),
        plugin: Snapshot::of(plugin),
    }
}

/// A worker that gets no thread: pass and plugin come back untouched, as they do from [`hire`] where no thread can be started. Nothing waits
/// here.
pub fn turned_away<'s, O: Object, P: Plugin>(
    room: &Room<O>,
    pass: Pass,
    plugin: P,
) -> Hired<'s, O, P>
    ensures { result ≡ record { first = room.now.table.shared.key.first.value; pass = pass; plugin = plugin; errand = Leave } }
{
    let given = given_of(room, &pass, &plugin);
    Hired {
        given,
        errand: Errand::Leave,
        thread: Err(Err((pass, plugin))),
    }
}

impl<O: Object, P: Plugin> Hired<'_, O, P> {
    /// Its errand. Where it is to leave, [`finish`] waits for nobody.
    pub fn errand(&self) -> Errand
        ensures { result ≡ self.now.errand }
    {
        self.errand
    }
}

/// What became of a worker, once its thread has ended: by its errand it worked; or pass and plugin come back.
pub fn finish<O: Object, P: Plugin, R: Threads>(
    rt: &R,
    hired: Hired<'_, O, P>,
) -> Result<Worked<P>, (Pass, P)>
    ensures { IsHandedBack (O.serves hired.entry.first) (O.answers hired.entry.first) P.told hired.entry.pass hired.entry.plugin
        hired.entry.errand result }
{
    let Hired {
        given: _,
        errand: _,
        thread,
    } = hired;
    match thread {
        Ok(running) => joined(rt, running),
        Err(returned) => returned,
    }
}

// What its thread handed back.
fn joined<O: Object, P: Plugin, R: Threads>(rt: &R, running: Running<'_, O, P>) -> Returned<P>
    requires { running.token.of ≡ running.handle.promise.said.now.id }
    ensures { IsHandedBack (O.serves running.entry.handle.promise.given.room.value.table.shared.key.first.value)
        (O.answers running.entry.handle.promise.given.room.value.table.shared.key.first.value)
        P.told running.entry.handle.promise.given.pass.value running.entry.handle.promise.given.plugin.value
        running.entry.token.value result }
{
    let Running { handle, token } = running;
    let (theirs, returned) = handle.join(rt);
    token.agrees(&theirs);
    returned
}
