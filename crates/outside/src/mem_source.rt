ghost use Rattle.std.specs.Prelude.{◌≡◌, ℕ, ◌^◌, ◌<◌, ◌≤◌, ◌++◌, Some, min, length, take, drop, [], IfSome};
ghost use Rattle.outside.specs.Source.{Gives, IsPiece, pulled, filled, failures_after, reads_after};
ghost use Rattle.outside.specs.MemSource.{given_len, answer, stock_after};
ghost use Rattle.outside.specs.Schedule.{schedule_of};
ghost use Rattle.outside.specs.Faults.{Rose};

use crate::calm_source::CalmSource;
use crate::schedule::Schedule;
use crate::source::{Pulled, Source};
use std::marker::Model;

/// A source over bytes in memory which gives small pieces, and fails at the calls that it is told to.
#[derive(Drop)]
pub struct MemSource {
    source: CalmSource,
    greatest: usize,
    schedule: Schedule,
}

impl Model for MemSource {
    ghost use Rattle.std.specs.Prelude.{◌<◌};
    ghost use Rattle.outside.specs.MemSource.{Stock};

    ghost Value = { Stock };

    ghost view = { λ s. record { left = s.source; greatest = s.greatest; schedule = s.schedule } };

    ghost invariant = { λ s. 0 < s.greatest };
}

impl MemSource {
    /// A source of `bytes` that gives at most `greatest` bytes at a call, and whose calls with the numbers `failing`
    /// fail, counted from 1.
    pub fn new(bytes: Vec<u8>, greatest: usize, failing: Vec<u64>) -> Self
        requires { 0 < greatest }
        ensures left { result.left ≡ bytes.items }
        ensures greatest { result.greatest ≡ greatest }
        ensures schedule { result.schedule ≡ schedule_of failing.items }
    {
        MemSource {
            source: CalmSource::new(bytes),
            greatest,
            schedule: Schedule::new(failing),
        }
    }

    /// The bytes that are left.
    pub fn left(&self) -> &[u8]
        ensures { result.now ≡ self.now.left }
    {
        self.source.left()
    }

    /// How many calls were made. The count stands still at the end of `u64`.
    pub fn calls(&self) -> u64
        ensures { result ≡ self.now.schedule.calls }
    {
        self.schedule.calls()
    }

    /// How many calls failed.
    pub fn faults(&self) -> u64
        ensures { result ≡ self.now.schedule.faults }
    {
        self.schedule.faults()
    }
}

impl Source for MemSource {
    ghost left = { λ s. Some s.left };

    ghost faults = { λ s. s.schedule.faults };

    ghost failures = { λ s. s.schedule.faults };

    ghost reads = { λ s. Some s.schedule.calls };

    fn read(&mut self, buf: &mut [u8]) -> Pulled
        requires { 0 < length buf.old }
        ensures answer { result ≡ answer self.old (length buf.old) }
        ensures given { buf.new ≡ filled buf.old self.old.left (given_len self.old (length buf.old)) }
        ensures after { self.new ≡ stock_after self.old (length buf.old) }
        ensures piece { IsPiece result (length buf.new) }
        ensures end { result ≡ Pulled.End → self.old.left ≡ [] }
        ensures faults_stay { self.old.schedule.faults ≤ self.new.schedule.faults }
        ensures faults_fit { self.new.schedule.faults < 2 ^ 64 }
    {
        if self.schedule.enter() {
            return Pulled::Failed;
        }
        let room = buf.len().min(self.greatest);
        self.source.read(&mut buf[..room])
    }
}
