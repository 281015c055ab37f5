// The loop that gives a plugin its turns at a room.
ghost use Rattle.std.specs.Prelude.{◌≡◌, []};
ghost use Rattle.room_lock.specs.Room.{own};
ghost use Rattle.plugin_session.specs.Seat.{IsUsable};
ghost use Rattle.plugin_session.specs.Visit.{new_port};
ghost use Rattle.plugin_session.specs.Visiting.{IsOpenAt, Visits, is_over};
ghost use Rattle.plugin_session.specs.Worker.{HasWorked, MayWork};

use crate::after::After;
use crate::gated::GatedDoor;
use crate::plugin::Plugin;
use crate::port::{Port, is_last};
use crate::room_door::RoomDoor;
use outside::Gate;
use room_lock::{Pass, Room};
use std::alloc::Global;
use std::sync::Wait;
use xi_plain::Object;

/// What a worker hands back.
#[derive(Drop)]
pub struct Worked<P> {
    /// The pass that it was given, which may have seen more.
    pub pass: Pass,
    pub plugin: P,
    /// Whether the session ended of itself; else memory was wanting.
    pub over: bool,
}

// A worker's door.
type Entrance<'a, O, R, G> = GatedDoor<'a, RoomDoor<'a, O, R>, G>;

// Whether the session ended of itself.
fn is_over(after: After) -> bool
    ensures { result ≡ is_over after }
{
    matches!(after, After::Over)
}

// One visit, and where it found nothing, a wait for news.
fn visit_once<O: Object, P: Plugin, G: Gate, R: Wait>(
    alloc: Global,
    port: &mut Port,
    door: &mut Entrance<'_, O, R, G>,
    plugin: &mut P,
) -> After
    requires open { IsOpenAt port.old door.old.door.pass }
    requires ready { IsUsable O.fits O.legal door.old.door.first door.old.door.pass }
    ensures object { door.new.door.first ≡ door.old.door.first }
    ensures ready { IsUsable O.fits O.legal door.new.door.first door.new.door.pass }
    ensures visited { Visits (O.serves door.old.door.first) (O.answers door.old.door.first)
        port.old port.new door.old.door.pass door.new.door.pass (P.told plugin.old) (P.told plugin.new) result }
{
    door.pass_turn();
    let after = port.turn_once(alloc, door, plugin);
    door.door.wait_after(after);
    after
}

// Visits until the session is over. Whether it ended of itself.
fn visit_all<O: Object, P: Plugin, G: Gate, R: Wait>(
    rt: &R,
    alloc: Global,
    port: &mut Port,
    door: &mut Entrance<'_, O, R, G>,
    plugin: &mut P,
) -> bool
    requires port { port.old ≡ new_port door.old.door.pass.caller }
    requires fresh { own door.old.door.pass ≡ [] }
    requires ready { IsUsable O.fits O.legal door.old.door.first door.old.door.pass }
    ensures { HasWorked (O.serves door.old.door.first) (O.answers door.old.door.first)
        door.old.door.pass door.new.door.pass (P.told plugin.old) (P.told plugin.new) result }
{
    for _ in rt.forever() {
        let after = visit_once(alloc, port, door, plugin);
        if is_last(after) {
            return is_over(after);
        }
    }
    unreachable!()
}

/// Gives the plugin its turns until its session is over, and waits where there is nothing for it. It does not hold the room while the plugin
/// has its turn. Before each visit, and before and after each ask, it passes the gate.
pub fn serve_plugin<O: Object, P: Plugin, G: Gate, R: Wait>(
    rt: &R,
    alloc: Global,
    room: &Room<O>,
    pass: Pass,
    plugin: P,
    gate: &G,
) -> Worked<P>
    requires { MayWork O.fits O.legal room.now.table.shared.table_id room.now.table.shared.key.first.value pass }
    ensures { HasWorked (O.serves room.now.table.shared.key.first.value) (O.answers room.now.table.shared.key.first.value)
        pass result.pass (P.told plugin) (P.told result.plugin) result.over }
{
    let caller = pass.caller();
    let mut plugin = plugin;
    let mut port = Port::start(alloc, caller);
    let mut door = GatedDoor::new(RoomDoor::new(rt, room, pass), gate, caller);
    let over = visit_all(rt, alloc, &mut port, &mut door, &mut plugin);
    let pass = door.into_door().into_pass();
    Worked { pass, plugin, over }
}
