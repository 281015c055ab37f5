// Calls of a room: each has the object for its turn.
ghost use Rattle.std.specs.Prelude.{ℕ, ◌≡◌, ◌≤◌, ◌<◌, ◌^◌, ◌∷◌, [], Some, length};
ghost use Rattle.xi_plain.specs.Reply.{has_entry};
ghost use Rattle.xi_plain.specs.Room.{AddsEntryIf, Begins, asked_from};
ghost use Rattle.room_lock.specs.Room.{IsSamePass, Tells, before_call, own};
ghost use Rattle.room_lock.specs.Inner.{IsAnswered, IsRested, IsServed, known_at, with_turn};
ghost use Rattle.room_lock.specs.declared.view.Stage.TheVariants.{Turn};

use crate::pass::Pass;
use crate::room::{COUNT, Place, Room};
use crate::rule::{Count, Measure};
use atomic_table::Badge;
use std::mem;
use std::sync::Wait;
use xi_plain::{Answer, Ask, Object, Query, Receipt, Reply};

impl<O: Object> Room<O> {
    // Adds an entry to the count where there is one. The place is how long the journal was.
    fn count(&self, seat: &mut Place<O>, entered: bool) -> u64
        requires seat { seat.old.table_id ≡ self.now.table.shared.table_id }
        requires turn { seat.old.me.0.stage ≡ Turn }
        requires adds { (object : O) × (seat.old.me.1 ≡ (0, Some object) ∷ []) × AddsEntryIf entered seat.old.me.0.seen seat.old.me.0.caller (O.journal object) × (length (O.journal object) < 2 ^ 63) }
        ensures seat { seat.new.table_id ≡ seat.old.table_id }
        ensures place { result ≡ length seat.old.me.0.seen }
        ensures counted { (object : O) → seat.old.me.1 ≡ (0, Some object) ∷ [] → seat.new.me ≡ (with_turn (O.journal object) seat.old.me.0, seat.old.me.1) }
    {
        if entered {
            self.table.shared.fetch_add::<Count>(seat, COUNT, 1)
        } else {
            self.table.shared.load::<Measure>(seat, COUNT)
        }
    }
}

impl<O: Object> Room<O> {
    // Serves an ask at a seat.
    fn serve_at<R: Wait>(
        &self,
        rt: &R,
        seat: &mut Place<O>,
        caller: u32,
        ask: Ask,
    ) -> (Reply, Receipt)
        requires seat { (seat.old.table_id ≡ self.now.table.shared.table_id) × IsRested seat.old }
        requires caller { seat.old.me.0.caller ≡ caller }
        requires fits { O.fits self.now.table.shared.key.first.value caller ask }
        ensures seat { (seat.new.table_id ≡ seat.old.table_id) × IsRested seat.new }
        ensures served { IsServed O.legal self.now.table.shared.key.first.value O.serves ask result.0 result.1 (known_at seat.old) (known_at seat.new) }
        ensures short { result.1.place < 2 ^ 63 }
    {
        let mut object = self.take(rt, seat);
        let reply = object.serve(caller, ask);
        let entered = reply.has_entry();
        self.put(seat, object);
        let place = self.count(seat, entered);
        self.pass_on(seat);
        if entered {
            self.table.shared.wake_all(COUNT);
        }
        (reply, Receipt { place, entered })
    }

    // Answers a query at a seat, and says how long the journal is.
    fn answer_at<R: Wait>(
        &self,
        rt: &R,
        seat: &mut Place<O>,
        caller: u32,
        query: Query,
    ) -> (Answer, u64)
        requires seat { (seat.old.table_id ≡ self.now.table.shared.table_id) × IsRested seat.old }
        requires caller { seat.old.me.0.caller ≡ caller }
        requires place { asked_from query ≤ length seat.old.me.0.seen }
        ensures seat { (seat.new.table_id ≡ seat.old.table_id) × IsRested seat.new }
        ensures answered { IsAnswered O.legal self.now.table.shared.key.first.value O.answers query result.0 (known_at seat.old) (known_at seat.new) }
        ensures length { result.1 ≡ length seat.new.me.0.seen }
    {
        let object = self.take(rt, seat);
        let answer = object.answer(caller, query);
        self.put(seat, object);
        let len = self.count(seat, false);
        self.pass_on(seat);
        (answer, len)
    }

    /// Serves the ask, in the caller's turn. It may wait.
    pub fn enter<R: Wait>(&self, rt: &R, pass: &mut Pass, ask: Ask) -> (Reply, Receipt)
        requires room { pass.old.room ≡ self.now.table.shared.table_id }
        requires fits { O.fits self.now.table.shared.key.first.value pass.old.caller ask }
        ensures same { IsSamePass pass.old pass.new }
        ensures seen { Begins pass.old.seen pass.new.seen }
        ensures legal { O.legal self.now.table.shared.key.first.value pass.new.seen }
        ensures entered { result.1.entered ≡ has_entry result.0 }
        ensures receipt { Tells result.1 pass.old pass.new }
        ensures served { O.serves self.now.table.shared.key.first.value (before_call result.1 pass.new.seen) pass.old.caller ask result.0 pass.new.seen }
    {
        let mut seat = mem::replace(&mut pass.badge, Badge::blank()).into_seat::<Option<O>>();
        let (reply, receipt) = self.serve_at(rt, &mut seat, pass.caller, ask);
        pass.badge = seat.into_badge();
        pass.seen = receipt.place + u64::from(receipt.entered);
        (reply, receipt)
    }

    /// Answers the query from the journal so far, in the caller's turn. It may wait.
    pub fn look<R: Wait>(&self, rt: &R, pass: &mut Pass, query: Query) -> Answer
        requires room { pass.old.room ≡ self.now.table.shared.table_id }
        requires place { asked_from query ≤ length pass.old.seen }
        ensures same { IsSamePass pass.old pass.new }
        ensures seen { Begins pass.old.seen pass.new.seen }
        ensures own { own pass.new ≡ own pass.old }
        ensures legal { O.legal self.now.table.shared.key.first.value pass.new.seen }
        ensures answered { O.answers self.now.table.shared.key.first.value pass.new.seen pass.old.caller query result }
    {
        let mut seat = mem::replace(&mut pass.badge, Badge::blank()).into_seat::<Option<O>>();
        let (answer, len) = self.answer_at(rt, &mut seat, pass.caller, query);
        pass.badge = seat.into_badge();
        pass.seen = len;
        answer
    }

    /// Waits until there are more entries than the pass has seen.
    pub fn wait<R: Wait>(&self, rt: &R, pass: &mut Pass)
        requires room { pass.old.room ≡ self.now.table.shared.table_id }
        ensures same { pass.new ≡ pass.old }
    {
        let seen = pass.seen;
        let mut tries = 0;
        for _ in rt.forever() {
            let count = self.table.shared.peek(COUNT);
            if count > seen {
                break;
            }
            self.rest(rt, COUNT, count, tries);
            tries = Self::tried(tries);
        }
    }
}
