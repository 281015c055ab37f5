ghost use Rattle.std.specs.Prelude.{◌≡◌, List};
ghost use Rattle.plugin_session.specs.Alone.{IsReady, OnlyAdds};
ghost use Rattle.plugin_session.specs.Visit.{Visit};
ghost use Rattle.plugin_crew.specs.declared.standing.Standing.TheVariants.{Going};
ghost use Rattle.plugin_crew.specs.Alone.{HasVisit, IsMemberOf};
ghost use Rattle.plugin_crew.specs.Member.{IsNew};

use crate::standing::{Standing, standing_after};
use plugin_session::{AloneDoor, Plugin, Port};
use std::alloc::Global;
use std::snapshot::Snapshot;
use xi_plain::Object;

/// A plugin of a run in turns. To a contract it is its number, its port, itself, what it was at first, and how its session stands.
#[derive(Drop)]
pub struct Member<P> {
    pub(crate) caller: u32,
    pub(crate) port: Port,
    pub(crate) plugin: P,
    pub(crate) began: Snapshot<P>,
    pub(crate) standing: Standing,
}

impl<P> Member<P> {
    // The plugin of this number, before its first turn.
    pub(crate) fn new(alloc: Global, caller: u32, plugin: P) -> Member<P>
        ensures { IsNew caller plugin result }
    {
        Member {
            caller,
            port: Port::start(alloc, caller),
            began: Snapshot::of(&plugin),
            plugin,
            standing: Standing::Going,
        }
    }
}

// One visit at the object, of a plugin whose session goes on.
fn visit_going<O: Object, P: Plugin>(alloc: Global, member: &mut Member<P>, object: &mut O)
    requires going { member.old.standing ≡ Going }
    requires serving { (first : O) × (visits : List Visit) × IsMemberOf O.journal O.serves O.answers O.grown P.told
        member.old.caller first object.old member.old visits }
    requires ready { IsReady O.fits member.old.caller object.old }
    ensures same { (member.new.caller ≡ member.old.caller) × (member.new.began ≡ member.old.began) }
    ensures grown { O.grown object.old object.new }
    ensures adds { OnlyAdds member.old.caller (O.journal object.old) (O.journal object.new) }
    ensures visited { HasVisit O.journal O.serves O.answers O.grown P.told member.old.caller object.old member.old member.new object.new }
{
    let mut door = AloneDoor::new(object, member.caller);
    let after = member.port.turn_once(alloc, &mut door, &mut member.plugin);
    member.standing = standing_after(after);
}

// One visit at the object, where the session goes on.
pub(crate) fn visit<O: Object, P: Plugin>(alloc: Global, member: &mut Member<P>, object: &mut O)
    requires serving { (first : O) × (visits : List Visit) × IsMemberOf O.journal O.serves O.answers O.grown P.told
        member.old.caller first object.old member.old visits }
    requires ready { IsReady O.fits member.old.caller object.old }
    ensures same { (member.new.caller ≡ member.old.caller) × (member.new.began ≡ member.old.began) }
    ensures grown { O.grown object.old object.new }
    ensures adds { OnlyAdds member.old.caller (O.journal object.old) (O.journal object.new) }
    ensures visited { HasVisit O.journal O.serves O.answers O.grown P.told member.old.caller object.old member.old member.new object.new }
{
    if member.standing.is_going() {
        visit_going(alloc, member, object);
    }
}
