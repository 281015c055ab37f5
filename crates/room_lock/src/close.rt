// The end of a room: its passes are joined, and the object comes back.
ghost use Rattle.std.specs.Prelude.{◌≡◌, ◌∷◌, ◌++◌, []};
ghost use Rattle.std.specs.List.{AllByRecursion};
ghost use Rattle.room_lock.specs.Room.{AreAll, IsKnownOf};
ghost use Rattle.room_lock.specs.Inner.{gathered, parted_pass, with_joined};
ghost use Rattle.room_lock.specs.declared.view.Stage.TheVariants.{Idle};

use crate::pass::Pass;
use crate::room::{Place, Room};
use crate::rule::Away;
use xi_plain::Object;

impl<O: Object> Room<O> {
    // Joins the pass to the seat.
    fn join(&self, seat: &mut Place<O>, pass: Pass)
        requires seat { (seat.old.table_id ≡ self.now.table.shared.table_id) × (seat.old.me.1 ≡ []) }
        requires idle { seat.old.me.0.stage ≡ Idle }
        requires pass { pass.room ≡ self.now.table.shared.table_id }
        ensures seat { seat.new.table_id ≡ seat.old.table_id }
        ensures joined { seat.new.me ≡ (with_joined (seat.old.me.0.joined ++ parted_pass pass ∷ []) seat.old.me.0, []) }
    {
        let other = pass.into_seat::<O>();
        self.table.shared.join_seat::<Away>(seat, other);
    }

    // The seat of caller 0, with all others joined to it.
    fn gather(&self, passes: Vec<Pass>) -> Place<O>
        requires { AreAll self.now.table.shared.table_id passes.items }
        ensures seat { result.table_id ≡ self.now.table.shared.table_id }
        ensures all { result.me ≡ (gathered passes.items, []) }
    {
        let mut passes = passes.into_iter();
        let Some(front) = passes.next() else {
            unreachable!()
        };
        let mut seat = front.into_seat::<O>();
        for pass in passes {
            self.join(&mut seat, pass);
        }
        seat
    }

    /// Ends the room. The passes are all that were made, in the order of their callers.
    pub fn close(self, passes: Vec<Pass>) -> O
        requires all { AreAll self.table.shared.table_id passes.items }
        ensures grown { O.grown self.table.shared.key.first.value result }
        ensures known { AllByRecursion (IsKnownOf (O.journal result)) passes.items }
    {
        let seat = self.gather(passes);
        let Room { table } = self;
        let mut closed = table.close_with(seat);
        let object = closed.take(0).unwrap();
        closed.free();
        object
    }
}
