ghost use Rattle.std.specs.Prelude.{◌≡◌};

use crate::after::After;
use crate::door::Door;
use room_lock::{Pass, Room};
use std::marker::Model;
use std::sync::Wait;
use xi_plain::{Answer, Ask, Object, Query, Reply};

/// The door of one pass to a room. It tells nothing. To a contract it is the object that the room was made with, and the pass; its journal is
/// what the pass has seen.
#[derive(Drop)]
pub struct RoomDoor<'a, O: Object, R> {
    rt: &'a R,
    room: &'a Room<O>,
    pass: Pass,
    ghost here: { pass.room ≡ room.now.table.shared.table_id },
}

impl<'a, O: Object, R> Model for RoomDoor<'a, O, R> {
    ghost use Rattle.plugin_session.specs.Seat.{Seated};

    ghost Value = { Seated O };

    ghost view = { λ d. record { first = d.room.now.table.shared.key.first.value; pass = d.pass } };
}

impl<'a, O: Object, R: Wait> RoomDoor<'a, O, R> {
    /// The door of a pass of the room.
    pub fn new(rt: &'a R, room: &'a Room<O>, pass: Pass) -> RoomDoor<'a, O, R>
        requires room { pass.room ≡ room.now.table.shared.table_id }
        ensures { result ≡ record { first = room.now.table.shared.key.first.value; pass = pass } }
    {
        RoomDoor { rt, room, pass }
    }

    /// The pass, with what it has seen here.
    pub fn into_pass(self) -> Pass
        ensures { result ≡ self.entry.pass }
    {
        let RoomDoor {
            rt: _,
            room: _,
            pass,
        } = self;
        pass
    }

    // Where a visit found nothing, waits until there are more entries than the pass has seen.
    pub(crate) fn wait_after(&mut self, after: After)
        ensures { self.new ≡ self.old }
    {
        if matches!(after, After::Idle) {
            self.room.wait(self.rt, &mut self.pass);
        }
    }
}

impl<O: Object, R: Wait> Door for RoomDoor<'_, O, R> {
    ghost use Rattle.std.specs.Prelude.{None};
    ghost use Rattle.plugin_session.specs.Seat.{IsFurther, IsFurther-same, IsFurther-trans, IsUsable, object_on};

    ghost caller = { λ d. d.pass.caller };

    ghost journal = { λ d. d.pass.seen };

    ghost legal = { λ d. O.legal d.first };

    ghost serves = { λ d. O.serves d.first };

    ghost answers = { λ d. O.answers d.first };

    ghost later = { λ d e. IsFurther d e };

    ghost ready = { λ d. IsUsable O.fits O.legal d.first d.pass };

    ghost told = { λ d. None };

    fn enter(&mut self, ask: Ask) -> Reply {
        let (reply, _receipt) = self.room.enter(self.rt, &mut self.pass, ask);
        reply
    }

    fn look(&mut self, query: Query) -> Answer {
        self.room.look(self.rt, &mut self.pass, query)
    }

    ghost same = { λ a. IsFurther-same a };

    ghost onward = { λ a b c first then. IsFurther-trans a b c first then };

    ghost prefix = { λ a b later. later.seen };

    ghost serves_on = { λ a b before caller ask reply after later served. object_on (λ o. O.serves o before caller ask reply after)
        a b later served };

    ghost answers_on = { λ a b log caller query answer later answered. object_on (λ o. O.answers o log caller query answer) a b
        later answered };

    ghost legal_now = { λ a ready. ready.lawful };

    ghost legal_on = { λ a b log later lawful. object_on (λ o. O.legal o log) a b later lawful };

    ghost one_entry = { λ a. O.one_entry a.first };
}
