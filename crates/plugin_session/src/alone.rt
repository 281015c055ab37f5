ghost use Rattle.std.specs.Prelude.{◌≡◌, ◌<◌};
ghost use Rattle.plugin_session.specs.Alone.{IsReady, OnlyAdds};

use crate::door::Door;
use xi_plain::{Answer, Ask, Object, Query, Reply};

/// The door of one caller to an object that nobody else uses meanwhile. It tells nothing.
#[derive(Drop)]
pub struct AloneDoor<'a, O> {
    object: &'a mut O,
    caller: u32,
}

impl<'a, O: Object> AloneDoor<'a, O> {
    /// The caller's door, where it is one of plugins, which may ask what plugins ask.
    pub fn new(object: &'a mut O, caller: u32) -> AloneDoor<'a, O>
        requires { IsReady O.fits caller object.old }
        ensures object { result.object.now ≡ object.old }
        ensures same_reference { result.object.ghost_name ≡ object.entry.ghost_name }
        ensures caller { result.caller ≡ caller }
    {
        AloneDoor { object, caller }
    }
}

impl<O: Object> Door for AloneDoor<'_, O> {
    ghost use Rattle.std.specs.Prelude.{◌≡◌, None, refl};
    ghost use Rattle.std.proofs.Common.{◌∙◌};
    ghost use Rattle.plugin_session.specs.Alone.{IsReady, OnlyAdds, OnlyAdds-same, OnlyAdds-trans};

    ghost caller = { λ d. d.caller };

    ghost journal = { λ d. O.journal d.object.now };

    ghost legal = { λ d. O.legal d.object.now };

    ghost serves = { λ d. O.serves d.object.now };

    ghost answers = { λ d. O.answers d.object.now };

    ghost later = { λ d e. O.grown d.object.now e.object.now × (e.object.ghost_name ≡ d.object.ghost_name) × (e.caller ≡ d.caller)
        × OnlyAdds d.caller (O.journal d.object.now) (O.journal e.object.now) };

    ghost ready = { λ d. IsReady O.fits d.caller d.object.now };

    ghost told = { λ d. None };

    fn enter(&mut self, ask: Ask) -> Reply {
        self.object.serve(self.caller, ask)
    }

    fn look(&mut self, query: Query) -> Answer {
        self.object.answer(self.caller, query)
    }

    ghost same = { λ a. (O.same a.object.now, refl, refl, OnlyAdds-same a.caller (O.journal a.object.now)) };

    ghost onward = { λ a b c first then. (
      O.onward a.object.now b.object.now c.object.now first.0 then.0,
      then.1 ∙ first.1,
      then.2 ∙ first.2,
      OnlyAdds-trans a.caller b.caller (O.journal a.object.now) (O.journal b.object.now) (O.journal c.object.now) first.2 first.3 then.3,
    ) };

    ghost prefix = { λ a b later. O.prefix a.object.now b.object.now later.0 };

    ghost serves_on = { λ a b before caller ask reply after later. O.serves_on a.object.now b.object.now before caller ask reply
        after later.0 };

    ghost answers_on = { λ a b log caller query answer later. O.answers_on a.object.now b.object.now log caller query answer later.0 };

    ghost legal_now = { λ a ready. O.legal_now a.object.now };

    ghost legal_on = { λ a b log later. O.legal_on a.object.now b.object.now log later.0 };

    ghost one_entry = { λ a. O.one_entry a.object.now };
}
