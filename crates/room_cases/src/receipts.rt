//! Two receipts of one room, each of which stands in the journal that it has in the end.

ghost use Rattle.std.specs.Prelude.{◌≡◌, [], IfSome};
ghost use Rattle.room_cases.specs.Receipts.{IsFirstCall, IsReceiptIn};

use crate::tally::Tally;
use room_lock::{Ask, Pass, Receipt, Room};
use std::alloc::Global;
use std::sync::Wait;
use std::test::Fail;
use std::thread;
use std::thread::Threads;

// One ask, and its receipt.
fn ask_once<R: Wait>(rt: &R, room: &Room<Tally>, mut pass: Pass) -> (Pass, Receipt)
    requires room { pass.room ≡ room.now.table.shared.table_id }
    requires fresh { pass.seen ≡ [] }
    ensures { IsFirstCall pass result.1 result.0 }
{
    let (_reply, receipt) = room.enter(rt, &mut pass, Ask::CloseDown);
    (pass, receipt)
}

// Two ask once each, on two threads.
fn both_ask<R: Threads + Wait + Sync>(
    rt: &R,
    room: &Room<Tally>,
    front: Pass,
    a: Pass,
) -> ((Pass, Receipt), (Pass, Receipt))
    requires room { (front.room ≡ room.now.table.shared.table_id) × (a.room ≡ room.now.table.shared.table_id) }
    requires fresh { (front.seen ≡ []) × (a.seen ≡ []) }
    ensures { IsFirstCall front result.0.1 result.0.0 × IsFirstCall a result.1.1 result.1.0 }
{
    thread::join(
        rt,
        move || -> (Pass, Receipt)
            requires { (front.room ≡ room.now.table.shared.table_id) × (front.seen ≡ []) }
            ensures { IsFirstCall front result.1 result.0 }
        { ask_once(rt, room, front) },
        move || -> (Pass, Receipt)
            requires { (a.room ≡ room.now.table.shared.table_id) × (a.seen ≡ []) }
            ensures { IsFirstCall a result.1 result.0 }
        { ask_once(rt, room, a) },
    )
}

// What a room has in the end in which two callers asked once each, and their receipts, which stand in it.
fn two_receipts<R: Threads + Wait + Sync>(
    rt: &R,
    alloc: Global,
) -> Option<(Tally, Receipt, Receipt)>
    ensures { IfSome result (λ r. IsReceiptIn r.0.entries.items 0 r.1 × IsReceiptIn r.0.entries.items 1 r.2) }
{
    let mut passes = Vec::with_capacity(alloc, 2).ok()?;
    let entries = Vec::new(alloc);
    let Ok((room, mut front)) = Room::make(alloc, Tally { entries }, 2) else {
        return None;
    };
    let a = room.split(&mut front);
    let ((front, first), (a, second)) = both_ask(rt, &room, front, a);
    passes.push_reserved(front);
    passes.push_reserved(a);
    let tally = room.close(passes);
    Some((tally, first, second))
}

#[test]
fn each_receipt_stands_in_the_journal(rt: HostRuntime) -> Result<(), Fail> {
    let Some((tally, first, second)) = two_receipts(&rt, rt.alloc()) else {
        panic!(rt; "out of memory")
    };
    assert!(rt; first.entered && second.entered);
    assert!(rt; first.place.min(second.place) == 0 && first.place.max(second.place) == 1);
    assert_eq!(rt; tally.entries.len(), 2);
    Ok(())
}
