// A pass: by it a caller enters the room.
ghost use Rattle.std.specs.Prelude.{◌≡◌, [], ◌∷◌, length};
ghost use Rattle.room_lock.specs.Inner.{idle, seen_in};

use crate::room::Place;
use crate::view::View;
use atomic_table::Badge;
use std::marker::Model;

/// A pass. To a contract it is its room, its caller, the journal that it has seen, and for caller 0 how many passes were made.
#[derive(Drop)]
pub struct Pass {
    pub(crate) badge: Badge<View>,
    pub(crate) caller: u32,
    // How many entries it has seen.
    pub(crate) seen: u64,
    pub(crate) made: u32,
}

impl Model for Pass {
    ghost use Rattle.std.specs.Prelude.{◌≡◌, [], ◌∷◌, length};
    ghost use Rattle.room_lock.specs.Inner.{idle, seen_in};
    ghost use Rattle.room_lock.specs.Room.{Known};

    ghost Value = { Known };

    ghost view = { λ p. record { room = p.badge.table_id; caller = p.caller; seen = seen_in p.badge.views; made = p.made } };

    ghost invariant = { λ p. (p.badge.views ≡ idle p.caller (seen_in p.badge.views) p.made ∷ []) × (p.seen ≡ length (seen_in p.badge.views)) };
}

impl Pass {
    /// Whose pass it is.
    pub fn caller(&self) -> u32
        ensures { result ≡ self.now.caller }
    {
        self.caller
    }

    /// How many entries it has seen.
    pub fn seen_len(&self) -> u64
        ensures { result ≡ length self.now.seen }
    {
        self.seen
    }

    // Its seat.
    pub(crate) fn into_seat<O>(self) -> Place<O>
        ensures { (result.table_id ≡ self.room) × (result.me ≡ (idle self.caller self.seen self.made, [])) }
    {
        let Pass {
            badge,
            caller: _,
            seen: _,
            made: _,
        } = self;
        badge.into_seat::<Option<O>>()
    }
}
