// The room: its table, and the object that it was made with.
ghost use Rattle.std.specs.Prelude.{◌≡◌, ◌≤◌, ◌<◌, ◌^◌, [], ◌∷◌, Some, IfOk, IfErr};
ghost use Rattle.room_lock.specs.Room.{first_pass};

use crate::pass::Pass;
use crate::rule::{Key, Ruling};
use crate::view::View;
use atomic_table::{Refused, Table};
use std::alloc::Global;
use std::snapshot::Snapshot;
use xi_plain::Object;

/// How many entries there are. Those who wait for news sleep on it.
pub(crate) const COUNT: usize = 0;

/// The ticket that is drawn next.
pub(crate) const TICKET: usize = 1;

/// The ticket whose holder has the turn. Those who wait for it sleep on it.
pub(crate) const SERVING: usize = 2;

/// A room. To a contract it is the object that it was made with, `table.shared.key.first.value`, and how many passes there may be.
pub struct Room<O: Object> {
    pub(crate) table: Table<Option<O>, View, Key<O>, Ruling<O>, Global>,
    ghost sized: { (table.shared.table_id.words ≡ 3) × (table.shared.table_id.slots ≡ 1) },
    ghost few: { table.shared.key.most < 2 ^ 32 },
}

/// A seat at the table, which may have the object.
pub(crate) type Place<O> = atomic_table::Seat<Option<O>, View>;

impl<O: Object> Room<O> {
    /// A room for so many callers at most, and the pass of caller 0. Without memory the object comes back.
    pub fn make(alloc: Global, object: O, callers: u32) -> Result<(Room<O>, Pass), O>
        requires callers { 1 ≤ callers }
        requires empty { O.journal object ≡ [] }
        ensures room { IfOk result (λ made. (made.0.table.shared.key.first.value ≡ object) × (made.0.table.shared.key.most ≡ callers)) }
        ensures pass { IfOk result (λ made. made.1 ≡ first_pass made.0.table.shared.table_id) }
        ensures back { IfErr result (λ back. back ≡ object) }
    {
        let Ok(mut slots) = Vec::with_capacity(alloc, 1) else {
            return Err(object);
        };
        let key = Key {
            first: Snapshot::of(&object),
            most: callers,
        };
        slots.push_reserved(Some(object));
        let made = Table::new(alloc, &[0, 0, 0], slots, &key);
        let Key { first: _, most: _ } = key;
        match made {
            Ok((table, seat)) => {
                let pass = Pass {
                    badge: seat.into_badge(),
                    caller: 0,
                    seen: 0,
                    made: 1,
                };
                Ok((Room { table }, pass))
            }
            Err(Refused { slots }) => Err(only_one(slots)),
        }
    }
}

// The one value of these.
fn only_one<O>(mut slots: Vec<Option<O>>) -> O
    requires { (object : O) × (slots.items ≡ Some object ∷ []) }
    ensures { slots.items ≡ Some result ∷ [] }
{
    let slot = slots.pop().unwrap();
    slots.destroy_empty();
    slot.unwrap()
}
