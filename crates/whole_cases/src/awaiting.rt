//! A source that gives no byte more until what it gave was answered, by a number that the sink shares with it.

ghost use Rattle.std.specs.Prelude.{◌≡◌, ℕ, ◌^◌, ◌<◌, ◌≤◌, None, length};
ghost use Rattle.outside.specs.Faults.{Rose};
ghost use Rattle.outside.specs.Source.{IsPiece, failures_after};

use outside::{CalmSink, MemSource, Pulled, Pushed, Sink, Source};
use std::cell::Cell;

/// How many lines of output each line of input gets.
const LINES_A_PIECE: u64 = 2;

/// How many LFs stand in the bytes.
fn line_ends(bytes: &[u8]) -> u64 {
    bytes.iter().filter(|byte| **byte == b'\n').count() as u64
}

/// A source that fails where a line that it gave whole has no piece yet.
#[derive(Drop)]
pub struct Awaiting<'a> {
    source: MemSource,
    written: &'a Cell<u64>,
    owed: u64,
    faults: u64,
}

impl<'a> Awaiting<'a> {
    pub fn new(source: MemSource, written: &'a Cell<u64>) -> Awaiting<'a>
        ensures source { result.source ≡ source }
        ensures fresh { (result.owed ≡ 0) × (result.faults ≡ 0) }
    {
        Awaiting {
            source,
            written,
            owed: 0,
            faults: 0,
        }
    }
}

impl<'a> Source for Awaiting<'a> {
    ghost left = { λ _. None };

    ghost faults = { λ s. s.faults };

    ghost failures = { λ s. s.faults };

    fn read(&mut self, buf: &mut [u8]) -> Pulled
        requires { 0 < length buf.old }
        ensures piece { IsPiece result (length buf.new) }
        ensures failed { result ≡ Pulled.Failed → Rose self.old.faults self.new.faults }
        ensures faults { self.new.faults ≡ failures_after result self.old.faults }
        ensures faults_stay { self.old.faults ≤ self.new.faults }
        ensures faults_fit { self.new.faults < 2 ^ 64 }
    {
        let faults = self.faults;
        let answer = if self.written.get() == self.owed {
            self.source.read(buf)
        } else {
            Pulled::Failed
        };
        match answer {
            Pulled::Got(count) => {
                let lines = line_ends(&buf[..count]).saturating_mul(LINES_A_PIECE);
                self.owed = self.owed.saturating_add(lines);
                Pulled::Got(count)
            }
            Pulled::End => Pulled::End,
            Pulled::Failed => {
                self.faults = faults.saturating_add(1);
                Pulled::Failed
            }
        }
    }
}

/// A sink that counts the lines that it took, and shares the number.
#[derive(Drop)]
pub struct Counting<'a> {
    sink: CalmSink,
    written: &'a Cell<u64>,
}

impl<'a> Counting<'a> {
    pub fn new(sink: CalmSink, written: &'a Cell<u64>) -> Counting<'a>
        ensures { result.sink ≡ sink }
    {
        Counting { sink, written }
    }
}

impl<'a> Sink for Counting<'a> {
    ghost held = { λ s. s.sink.held };

    ghost faults = { λ _. 0 };

    ghost failures = { λ _. 0 };

    fn write(&mut self, piece: &[u8]) -> Pushed {
        let lines = self.written.get().saturating_add(line_ends(piece));
        self.written.set(lines);
        self.sink.write(piece)
    }
}
