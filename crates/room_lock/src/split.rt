// The next caller's pass.
ghost use Rattle.std.specs.Prelude.{◌≡◌, ◌<◌, []};
ghost use Rattle.room_lock.specs.Room.{after_split, next_pass, own};

use crate::pass::Pass;
use crate::room::{COUNT, Room};
use crate::rule::{Next, Number};
use atomic_table::Badge;
use std::mem;
use xi_plain::Object;

impl<O: Object> Room<O> {
    /// The next caller's pass, by the pass of caller 0. It waits for nobody.
    pub fn split(&self, pass: &mut Pass) -> Pass
        requires room { pass.old.room ≡ self.now.table.shared.table_id }
        requires front { pass.old.caller ≡ 0 }
        requires few { pass.old.made < self.now.table.shared.key.most }
        ensures same { pass.new ≡ after_split pass.old }
        ensures next { result ≡ next_pass pass.old }
        ensures own { own result ≡ [] }
    {
        let mut seat = mem::replace(&mut pass.badge, Badge::blank()).into_seat::<Option<O>>();
        self.table.shared.load::<Number>(&mut seat, COUNT);
        let next = self.table.shared.split_seat::<Next>(&mut seat);
        let next = Pass {
            badge: next.into_badge(),
            caller: pass.made,
            seen: pass.seen,
            made: 0,
        };
        pass.badge = seat.into_badge();
        pass.made += 1;
        next
    }
}
