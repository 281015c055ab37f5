//! How many asks of each plugin were answered; and a gate and a source that wait for that, and give up in the end.
ghost use Rattle.std.specs.Prelude.{◌≡◌, ℕ, ◌^◌, ◌<◌, ◌≤◌, None, length};
ghost use Rattle.outside.specs.Faults.{Rose};
ghost use Rattle.outside.specs.Source.{IsPiece, failures_after};

use outside::{Gate, MemSource, Point, Pulled, Source};
use std::alloc::Global;
use std::sync::atomic::{AtomicU64, Ordering};
use std::thread;

// So often one looks for an answer before it gives up.
const LOOKS: u32 = 10_000_000;

// The asks that were answered: of plugin 1, of plugin 2, and of the others.
#[derive(Drop)]
pub(crate) struct Tally {
    first: AtomicU64,
    second: AtomicU64,
    others: AtomicU64,
}

// So many of each.
#[derive(Clone, Copy)]
pub(crate) struct Asks {
    pub(crate) first: u64,
    pub(crate) second: u64,
    pub(crate) others: u64,
}

impl Tally {
    pub(crate) fn new() -> Tally {
        Tally {
            first: AtomicU64::new(0),
            second: AtomicU64::new(0),
            others: AtomicU64::new(0),
        }
    }

    fn count(&self, caller: u32) {
        let number = match caller {
            1 => &self.first,
            2 => &self.second,
            _ => &self.others,
        };
        number.fetch_add(1, Ordering::SeqCst);
    }

    fn has(&self, asks: Asks) -> bool {
        self.first.load(Ordering::SeqCst) >= asks.first
            && self.second.load(Ordering::SeqCst) >= asks.second
            && self.others.load(Ordering::SeqCst) >= asks.others
    }

    // Waits until so many were answered. Whether they were.
    fn await_asks(&self, asks: Asks) -> bool {
        for _ in 0..LOOKS {
            if self.has(asks) {
                return true;
            }
            thread::yield_now();
        }
        false
    }
}

// A gate that counts the asks, and holds plugin 1 before each of its own until so many of plugin 2 were answered.
#[derive(Drop)]
pub(crate) struct Counter<'a> {
    pub(crate) tally: &'a Tally,
    pub(crate) awaits: u64,
}

impl Gate for Counter<'_> {
    fn pass(&self, caller: u32, point: Point) {
        match point {
            Point::BeforeTurn => {}
            Point::BeforeEnter => {
                if caller == 1 {
                    self.tally.await_asks(Asks {
                        first: 0,
                        second: self.awaits,
                        others: 0,
                    });
                }
            }
            Point::AfterEnter => self.tally.count(caller),
        }
    }
}

// What is held back, the line behind so many others, or the end, until so many asks were answered.
#[derive(Clone, Copy)]
pub(crate) struct Hold {
    pub(crate) behind: usize,
    pub(crate) asks: Asks,
}

// A source that gives one byte at a time, holds back some of its lines, and fails where the asks that it awaits never come.
#[derive(Drop)]
pub(crate) struct Patient<'a> {
    source: MemSource,
    tally: &'a Tally,
    holds: &'a [Hold],
    // How many lines it gave.
    given: usize,
    faults: u64,
}

impl<'a> Patient<'a> {
    pub(crate) fn new(
        alloc: Global,
        input: Vec<u8>,
        tally: &'a Tally,
        holds: &'a [Hold],
    ) -> Patient<'a> {
        Patient {
            source: MemSource::new(input, 1, Vec::new(alloc)),
            tally,
            holds,
            given: 0,
            faults: 0,
        }
    }

    // Waits for the asks that are awaited where it stands. Whether they came.
    fn may_go_on(&self) -> bool {
        for hold in self.holds {
            if hold.behind == self.given && !self.tally.await_asks(hold.asks) {
                return false;
            }
        }
        true
    }
}

impl<'a> Source for Patient<'a> {
    ghost left = { λ _. None };

    ghost faults = { λ s. s.faults };

    ghost failures = { λ s. s.faults };

    fn read(&mut self, buf: &mut [u8]) -> Pulled
        requires { 0 < length buf.old }
        ensures piece { IsPiece result (length buf.new) }
        ensures failed { result ≡ Pulled.Failed → Rose self.old.faults self.new.faults }
        ensures faults { self.new.faults ≡ failures_after result self.old.faults }
        ensures faults_stay { self.old.faults ≤ self.new.faults }
        ensures faults_fit { self.new.faults < 2 ^ 64 }
    {
        let faults = self.faults;
        if !self.may_go_on() {
            self.faults = faults.saturating_add(1);
            return Pulled::Failed;
        }
        match self.source.read(buf) {
            Pulled::Got(count) => {
                if buf.first() == Some(&b'\n') {
                    self.given = self.given.saturating_add(1);
                }
                Pulled::Got(count)
            }
            Pulled::End => Pulled::End,
            Pulled::Failed => {
                self.faults = faults.saturating_add(1);
                Pulled::Failed
            }
        }
    }
}
