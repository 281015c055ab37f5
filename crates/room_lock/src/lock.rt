// The lock: tickets in order, and the object for the one whose ticket is served.
ghost use Rattle.std.specs.Prelude.{ℕ, ◌<◌, ◌≡◌, ◌≢◌, ◌%◌, ◌+◌, ◌^◌, ◌∷◌, [], ⊤, Some, None, length};
ghost use Rattle.room_lock.specs.Inner.{Agrees, at_stage, with_turn, Took};
ghost use Rattle.room_lock.specs.declared.view.Stage.TheVariants.{Idle, Waits, Turn};

use crate::room::{COUNT, Place, Room, SERVING, TICKET};
use crate::rule::{Draw, PassOn};
use std::marker::Brand;
use std::sync::Wait;
use std::thread;
use xi_plain::Object;

// So often a thread looks again before it sleeps.
const TRIES: u32 = 40;

impl<O: Object> Room<O> {
    fn draw(&self, seat: &mut Place<O>) -> u64
        requires seat { seat.old.table_id ≡ self.now.table.shared.table_id }
        requires idle { seat.old.me.0.stage ≡ Idle }
        ensures seat { seat.new.table_id ≡ seat.old.table_id }
        ensures drew { (ticket : ℕ) × (result ≡ ticket % 2 ^ 64) × (seat.new.me ≡ (at_stage (Waits ticket) seat.old.me.0, seat.old.me.1)) }
    {
        self.table.shared.fetch_add::<Draw>(seat, TICKET, 1)
    }

    // The number served. Where it is the seat's ticket, the seat has the object afterwards.
    fn see(&self, seat: &mut Place<O>) -> u64
        requires seat { (seat.old.table_id ≡ self.now.table.shared.table_id) × (seat.old.me.1 ≡ []) }
        requires waits { (ticket : ℕ) × (seat.old.me.0.stage ≡ Waits ticket) }
        ensures seat { seat.new.table_id ≡ seat.old.table_id }
        ensures looked { (ticket : ℕ) → seat.old.me.0.stage ≡ Waits ticket → (result ≡ ticket % 2 ^ 64 → Took O.journal O.grown self.now.table.shared.key.first.value seat.old.me.0 seat.new.me) × (result ≢ ticket % 2 ^ 64 → seat.new.me ≡ seat.old.me) }
    {
        self.table.shared.load::<Brand>(seat, SERVING)
    }

    // Waits for the turn, and has the object then.
    fn await_turn<R: Wait>(&self, rt: &R, seat: &mut Place<O>, ticket: u64)
        requires seat { (seat.old.table_id ≡ self.now.table.shared.table_id) × (seat.old.me.1 ≡ []) }
        requires waits { (n : ℕ) × (ticket ≡ n % 2 ^ 64) × (seat.old.me.0.stage ≡ Waits n) }
        ensures seat { seat.new.table_id ≡ seat.old.table_id }
        ensures took { Took O.journal O.grown self.now.table.shared.key.first.value seat.old.me.0 seat.new.me }
    {
        let mut tries = 0;
        for _ in rt.forever() {
            let found = self.see(seat);
            if found == ticket {
                break;
            }
            self.rest(rt, SERVING, found, tries);
            tries = Self::tried(tries);
        }
    }

    // One try more, as far as it is counted.
    pub(crate) fn tried(tries: u32) -> u32 {
        if tries < TRIES { tries + 1 } else { tries }
    }

    // Lets other threads go on, and sleeps once it did so often, if the word is still this.
    pub(crate) fn rest<R: Wait>(&self, rt: &R, word: usize, found: u64, tries: u32)
        requires { word < 3 }
    {
        if tries < TRIES {
            thread::yield_now();
        } else {
            self.table
                .shared
                .park(rt, word, (found % 0x1_0000_0000) as u32);
        }
    }

    // Draws a ticket, waits for the turn and takes the object.
    pub(crate) fn take<R: Wait>(&self, rt: &R, seat: &mut Place<O>) -> O
        requires seat { (seat.old.table_id ≡ self.now.table.shared.table_id) × (seat.old.me.1 ≡ []) }
        requires idle { seat.old.me.0.stage ≡ Idle }
        ensures seat { seat.new.table_id ≡ seat.old.table_id }
        ensures view { seat.new.me ≡ (with_turn (O.journal result) seat.old.me.0, (0, None) ∷ []) }
        ensures grown { O.grown self.now.table.shared.key.first.value result }
        ensures agrees { Agrees (O.journal result) seat.old.me.0.caller seat.old.me.0.seen }
    {
        let ticket = self.draw(seat);
        self.await_turn(rt, seat, ticket);
        self.table.shared.exchange(seat, 0, None).unwrap()
    }

    // Puts the object back into the slot, which is still out.
    pub(crate) fn put(&self, seat: &mut Place<O>, object: O)
        requires seat { seat.old.table_id ≡ self.now.table.shared.table_id }
        requires empty { seat.old.me.1 ≡ (0, None) ∷ [] }
        ensures seat { seat.new.table_id ≡ seat.old.table_id }
        ensures put { seat.new.me ≡ (seat.old.me.0, (0, Some object) ∷ []) }
    {
        let old = self.table.shared.exchange(seat, 0, Some(object));
        let None = old else { unreachable!() };
    }

    // Gives the object back, and the turn to the next ticket.
    pub(crate) fn pass_on(&self, seat: &mut Place<O>)
        requires seat { seat.old.table_id ≡ self.now.table.shared.table_id }
        requires turn { seat.old.me.0.stage ≡ Turn }
        requires holds { (object : O) × (seat.old.me.1 ≡ (0, Some object) ∷ []) × (O.journal object ≡ seat.old.me.0.seen) × O.grown self.now.table.shared.key.first.value object }
        ensures seat { seat.new.table_id ≡ seat.old.table_id }
        ensures passed { seat.new.me ≡ (at_stage Idle seat.old.me.0, []) }
    {
        self.table.shared.fetch_add::<PassOn>(seat, SERVING, 1);
        self.table.shared.wake_all(SERVING);
    }
}
