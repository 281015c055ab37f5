ghost use Rattle.std.specs.Prelude.{◌≡◌, ◌≢◌, ℕ, ◌^◌, ◌<◌, ◌≤◌, None, length, IfSome, IfErr, []};
ghost use Rattle.std.specs.Io.KnownBytes.{Consumes, IsAtEnd, ReadConsumes};
ghost use Rattle.std.specs.Io.{ReadsAtMost};
ghost use Rattle.std.specs.IoError.{error_kind};
ghost use Rattle.outside.specs.Source.{Gives, IsPiece, pulled, failures_after};
ghost use Rattle.outside.specs.Faults.{Rose};

use crate::source::{Pulled, Source};
use std::io;
use std::io::{ErrorKind, Read};

/// How often one call of a source or a sink asks, where each time it is interrupted, before that counts as a fault.
pub(crate) const RETRIES: u64 = 1 << 32;

/// A source over a reader, as standard input. It tells no bytes.
#[derive(Drop)]
pub struct StdSource<R> {
    pub reader: R,
    pub faults: u64,
}

impl<R> StdSource<R> {
    pub fn new(reader: R) -> Self
        ensures reader { result.reader ≡ reader }
        ensures faults { result.faults ≡ 0 }
    {
        StdSource { reader, faults: 0 }
    }
}

impl<R: Read> Source for StdSource<R> {
    ghost left = { λ _. None };

    ghost faults = { λ s. s.faults };

    ghost failures = { λ s. s.faults };

    /// Gives what the reader gives. An interruption is no fault: the reader is asked again.
    fn read(&mut self, buf: &mut [u8]) -> Pulled
        requires { 0 < length buf.old }
        ensures piece { IsPiece result (length buf.new) }
        ensures read { Consumes (R.remaining self.old.reader) (R.remaining self.new.reader)
            (pulled result buf.new) }
        ensures end { result ≡ Pulled.End → IsAtEnd (R.remaining self.new.reader) }
        ensures faults { self.new.faults ≡ failures_after result self.old.faults }
        ensures faults_stay { self.old.faults ≤ self.new.faults }
        ensures faults_fit { self.new.faults < 2 ^ 64 }
    {
        let faults = self.faults;
        match read_again(&mut self.reader, buf) {
            Ok(0) => Pulled::End,
            Ok(count) => Pulled::Got(count),
            Err(_) => {
                self.faults = faults.saturating_add(1);
                Pulled::Failed
            }
        }
    }
}

/// Reads once, and again after each interruption. More of them than are borne are another error.
fn read_again<R: Read>(reader: &mut R, buf: &mut [u8]) -> io::Result<usize>
    ensures bound { ReadsAtMost result buf.new }
    ensures bytes { ReadConsumes (R.remaining reader.old) (R.remaining reader.new) result buf.new }
    ensures retried { IfErr result (λ e. error_kind e ≢ ErrorKind.Interrupted) }
{
    for _ in 0..RETRIES {
        match reader.read(buf) {
            Err(error) if error.kind() == ErrorKind::Interrupted => {}
            outcome => return outcome,
        }
    }
    Err(io::Error::from(ErrorKind::Other))
}
