ghost use Rattle.std.specs.Prelude.{◌≡◌, ◌≤◌, length, false};
ghost use Rattle.core_session.specs.Core.{terms_of};
ghost use Rattle.core_session.specs.Serves.{IsSessionJournal};
ghost use Rattle.turn_laws.specs.Visits.{IsNextVisit, IsPluginOf};

use core_session::Core;
use outside::{Shelf, Sink};
use plugin_session::{After, Plugin, Port, RoomDoor};
use std::alloc::Global;
use std::sync::Wait;

/// One visit of a plugin to the door of a room with a session, whose journal is what its pass has seen there. Others may make entries meanwhile.
pub fn visit_in_room<K: Sink, H: Shelf, P: Plugin, R: Wait>(
    alloc: Global,
    door: &mut RoomDoor<'_, Core<K, H>, R>,
    port: &mut Port,
    plugin: &mut P,
) -> After
    requires plugin { IsPluginOf (terms_of door.old.first).plugins door.old.pass.caller }
    requires lawful { ∥ IsSessionJournal (terms_of door.old.first) door.old.pass.seen ∥₁ }
    requires port { port.old.caller ≡ door.old.pass.caller }
    requires open { port.old.ended ≡ false }
    requires place { port.old.place ≤ length door.old.pass.seen }
    ensures next { IsNextVisit (terms_of door.old.first) door.old.pass.caller port.old port.new
        door.old.pass.seen door.new.pass.seen result }
    ensures room { door.new.first ≡ door.old.first }
    ensures place { port.new.place ≤ length door.new.pass.seen }
{
    port.turn_once(alloc, door, plugin)
}
