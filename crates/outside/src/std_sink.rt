ghost use Rattle.std.specs.Prelude.{◌≡◌, ◌≢◌, ℕ, ◌^◌, ◌<◌, ◌≤◌, None, length, IfErr};
ghost use Rattle.std.specs.Io.KnownBytes.{Appends, WriteAppends};
ghost use Rattle.std.specs.Io.{WritesAtMost};
ghost use Rattle.std.specs.IoError.{error_kind};
ghost use Rattle.outside.specs.Sink.{Gains, IsPart, pushed, failures_after};
ghost use Rattle.outside.specs.Faults.{Rose};

use crate::sink::{Pushed, Sink};
use crate::std_source::RETRIES;
use std::io;
use std::io::{ErrorKind, Write};

/// A sink over a writer that holds nothing back, as standard output. It tells no bytes.
#[derive(Drop)]
pub struct StdSink<W> {
    pub writer: W,
    pub faults: u64,
}

impl<W> StdSink<W> {
    /// The writer is not flushed: hand in one that passes each piece on at once, and none with a buffer.
    pub fn new(writer: W) -> Self
        ensures writer { result.writer ≡ writer }
        ensures faults { result.faults ≡ 0 }
    {
        StdSink { writer, faults: 0 }
    }
}

impl<W: Write> Sink for StdSink<W> {
    ghost held = { λ _. None };

    ghost faults = { λ s. s.faults };

    ghost failures = { λ s. s.faults };

    /// Takes what the writer takes. An interruption is no fault, and taking nothing is one.
    fn write(&mut self, piece: &[u8]) -> Pushed
        requires { 0 < length piece.now }
        ensures part { IsPart result (length piece.now) }
        ensures written { Appends (W.contents self.old.writer) (W.contents self.new.writer)
            (pushed result piece.now) }
        ensures faults { self.new.faults ≡ failures_after result self.old.faults }
        ensures faults_stay { self.old.faults ≤ self.new.faults }
        ensures faults_fit { self.new.faults < 2 ^ 64 }
    {
        let faults = self.faults;
        match write_again(&mut self.writer, piece) {
            Ok(count) if count > 0 => Pushed::Took(count),
            _ => {
                self.faults = faults.saturating_add(1);
                Pushed::Failed
            }
        }
    }
}

/// Writes once, and again after each interruption. More of them than are borne are another error.
fn write_again<W: Write>(writer: &mut W, piece: &[u8]) -> io::Result<usize>
    ensures bound { WritesAtMost result piece.now }
    ensures bytes { WriteAppends (W.contents writer.old) (W.contents writer.new) result piece.now }
    ensures retried { IfErr result (λ e. error_kind e ≢ ErrorKind.Interrupted) }
{
    for _ in 0..RETRIES {
        match writer.write(piece) {
            Err(error) if error.kind() == ErrorKind::Interrupted => {}
            outcome => return outcome,
        }
    }
    Err(io::Error::from(ErrorKind::Other))
}
