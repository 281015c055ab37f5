ghost use Rattle.std.specs.Prelude.{◌≡◌, ◌≤◌, length, false};
ghost use Rattle.core_session.specs.Core.{journal_of, terms_of};
ghost use Rattle.turn_laws.specs.Visits.{IsNextVisit, IsPluginOf};

use core_session::Core;
use outside::{Shelf, Sink};
use plugin_session::{After, AloneDoor, Plugin, Port};
use std::alloc::Global;

/// One visit of a plugin to a session that nobody else uses meanwhile.
pub fn visit_alone<K: Sink, H: Shelf, P: Plugin>(
    alloc: Global,
    core: &mut Core<K, H>,
    caller: u32,
    port: &mut Port,
    plugin: &mut P,
) -> After
    requires plugin { IsPluginOf (terms_of core.old).plugins caller }
    requires port { port.old.caller ≡ caller }
    requires open { port.old.ended ≡ false }
    requires place { port.old.place ≤ length (journal_of core.old) }
    ensures next { IsNextVisit (terms_of core.old) caller port.old port.new (journal_of core.old) (journal_of core.new) result }
    ensures terms { terms_of core.new ≡ terms_of core.old }
    ensures place { port.new.place ≤ length (journal_of core.new) }
{
    let mut door = AloneDoor::new(core, caller);
    port.turn_once(alloc, &mut door, plugin)
}
