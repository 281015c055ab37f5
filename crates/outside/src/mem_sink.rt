ghost use Rattle.std.specs.Prelude.{◌≡◌, ◌↔◌, ℕ, ◌^◌, ◌<◌, ◌≤◌, Some, min, length, take, [], IfSome, IsSome, IsTrue};
ghost use Rattle.std.specs.Option.{option_map};
ghost use Rattle.outside.specs.Sink.{Gains, IsPart, pushed, failures_after};
ghost use Rattle.outside.specs.CalmSink.{KeepsUnlessRefused};
ghost use Rattle.outside.specs.MemSink.{answer, kept_by};
ghost use Rattle.outside.specs.Schedule.{schedule_of, is_due, next};
ghost use Rattle.outside.specs.Faults.{Rose};

use crate::calm_sink::CalmSink;
use crate::schedule::Schedule;
use crate::sink::{Pushed, Sink};
use std::alloc::Global;
use std::marker::Model;

/// A sink in memory which takes small pieces, and fails at the calls that it is told to.
///
/// Where it is refused memory to keep a piece, it takes the piece, counts that, and from then on tells nothing.
#[derive(Drop)]
pub struct MemSink {
    sink: CalmSink,
    greatest: usize,
    schedule: Schedule,
}

impl Model for MemSink {
    ghost use Rattle.std.specs.Prelude.{◌<◌};
    ghost use Rattle.outside.specs.MemSink.{Store};

    ghost Value = { Store };

    ghost view = { λ s. record { held = s.sink.held; refused = s.sink.refused; greatest = s.greatest; schedule = s.schedule } };

    ghost invariant = { λ s. 0 < s.greatest };
}

impl MemSink {
    /// An empty sink that takes at most `greatest` bytes at a call, and whose calls with the numbers `failing` fail,
    /// counted from 1.
    pub fn new(alloc: Global, greatest: usize, failing: Vec<u64>) -> Self
        requires { 0 < greatest }
        ensures held { result.held ≡ Some [] }
        ensures refused { result.refused ≡ 0 }
        ensures greatest { result.greatest ≡ greatest }
        ensures schedule { result.schedule ≡ schedule_of failing.items }
    {
        MemSink {
            sink: CalmSink::new(alloc),
            greatest,
            schedule: Schedule::new(failing),
        }
    }

    /// The bytes that it holds, where it still tells them.
    pub fn bytes(&self) -> Option<&[u8]>
        ensures { option_map (λ bytes. bytes.now) result ≡ self.now.held }
    {
        self.sink.bytes()
    }

    /// Gives up the bytes that it holds, where it still tells them.
    pub fn into_bytes(self) -> Option<Vec<u8>>
        ensures { option_map (λ bytes. bytes.items) result ≡ self.held }
    {
        let MemSink {
            sink,
            greatest: _,
            schedule: _,
        } = self;
        sink.into_bytes()
    }

    /// How often it was refused memory to keep a piece. It tells what it holds while that is 0.
    pub fn refused(&self) -> u64
        ensures count { result ≡ self.now.refused }
        ensures tells { (result ≡ 0) ↔ IsSome self.now.held }
    {
        self.sink.refused()
    }

    /// How many calls were made. The count stands still at the end of `u64`.
    pub fn calls(&self) -> u64
        ensures { result ≡ self.now.schedule.calls }
    {
        self.schedule.calls()
    }

    /// How many calls failed.
    pub fn faults(&self) -> u64
        ensures { result ≡ self.now.schedule.faults }
    {
        self.schedule.faults()
    }
}

impl Sink for MemSink {
    ghost held = { λ s. s.held };

    ghost faults = { λ s. s.schedule.faults };

    ghost failures = { λ s. s.schedule.faults };

    fn write(&mut self, piece: &[u8]) -> Pushed
        requires { 0 < length piece.now }
        ensures answer { result ≡ answer self.old (length piece.now) }
        ensures gains { Gains self.old.held self.new.held (pushed result piece.now) }
        ensures keeps { KeepsUnlessRefused (kept_by self.old) (kept_by self.new) (pushed result piece.now) }
        ensures due { IsTrue (is_due self.old.schedule) → kept_by self.new ≡ kept_by self.old }
        ensures greatest { self.new.greatest ≡ self.old.greatest }
        ensures schedule { self.new.schedule ≡ next self.old.schedule }
        ensures part { IsPart result (length piece.now) }
        ensures faults_stay { self.old.schedule.faults ≤ self.new.schedule.faults }
        ensures faults_fit { self.new.schedule.faults < 2 ^ 64 }
    {
        if self.schedule.enter() {
            return Pushed::Failed;
        }
        let room = piece.len().min(self.greatest);
        self.sink.write(&piece[..room])
    }
}
