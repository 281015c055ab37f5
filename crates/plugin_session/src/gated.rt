ghost use Rattle.std.specs.Prelude.{◌≡◌};

use crate::door::Door;
use outside::{Gate, Point};
use xi_plain::{Answer, Ask, Query, Reply};

/// A door that passes a gate directly before and directly after each ask of the one inside it. To a contract it is the one inside.
#[derive(Drop)]
pub struct GatedDoor<'a, D, G> {
    pub(crate) door: D,
    gate: &'a G,
    caller: u32,
}

impl<'a, D: Door, G: Gate> GatedDoor<'a, D, G> {
    /// The door of this caller, at a gate.
    pub fn new(door: D, gate: &'a G, caller: u32) -> GatedDoor<'a, D, G>
        requires { D.caller door ≡ caller }
        ensures door { result.door ≡ door }
    {
        GatedDoor { door, gate, caller }
    }

    /// The inner door.
    pub fn into_door(self) -> D
        ensures { result ≡ self.entry.door }
    {
        let GatedDoor {
            door,
            gate: _,
            caller: _,
        } = self;
        door
    }

    // Passes the gate before a turn.
    pub(crate) fn pass_turn(&self) {
        self.gate.pass(self.caller, Point::BeforeTurn);
    }
}

impl<D: Door, G: Gate> Door for GatedDoor<'_, D, G> {
    ghost caller = { λ d. D.caller d.door };

    ghost journal = { λ d. D.journal d.door };

    ghost legal = { λ d. D.legal d.door };

    ghost serves = { λ d. D.serves d.door };

    ghost answers = { λ d. D.answers d.door };

    ghost later = { λ d e. D.later d.door e.door };

    ghost ready = { λ d. D.ready d.door };

    ghost told = { λ d. D.told d.door };

    fn enter(&mut self, ask: Ask) -> Reply {
        self.gate.pass(self.caller, Point::BeforeEnter);
        let reply = self.door.enter(ask);
        self.gate.pass(self.caller, Point::AfterEnter);
        reply
    }

    fn look(&mut self, query: Query) -> Answer {
        self.door.look(query)
    }

    ghost same = { λ a. D.same a.door };

    ghost onward = { λ a b c. D.onward a.door b.door c.door };

    ghost prefix = { λ a b. D.prefix a.door b.door };

    ghost serves_on = { λ a b. D.serves_on a.door b.door };

    ghost answers_on = { λ a b. D.answers_on a.door b.door };

    ghost legal_now = { λ a. D.legal_now a.door };

    ghost legal_on = { λ a b. D.legal_on a.door b.door };

    ghost one_entry = { λ a. D.one_entry a.door };
}
