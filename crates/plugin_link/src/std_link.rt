ghost use Rattle.std.specs.Prelude.{◌≡◌, ◌^◌, ◌<◌, ◌≤◌, None, length, IfSome, []};
ghost use Rattle.std.specs.Io.KnownBytes.{Appends, Consumes, IsAtEnd};
ghost use Rattle.outside.specs.Source.{Gives, IsPiece, pulled};
ghost use Rattle.outside.specs.Sink.{Gains, IsPart, pushed};
ghost use Rattle.outside.specs.Faults.{Rose};
ghost use Rattle.plugin_link.specs.StdLink.{faults_after_pull, faults_after_push};

use crate::link::Link;
use outside::{Pulled, Pushed, Sink, Source, StdSink, StdSource};
use std::io::{Read, Write};

/// A link over a reader and a writer, as the two ends of a pipe. It tells no bytes.
#[derive(Drop)]
pub struct StdLink<R, W> {
    pub source: StdSource<R>,
    pub sink: StdSink<W>,
    /// How many of its calls failed. The count stands still at the end of `u64`.
    pub faults: u64,
}

impl<R, W> StdLink<R, W> {
    /// The writer is not flushed: hand in one that passes each piece on at once, and none with a buffer.
    pub fn new(reader: R, writer: W) -> StdLink<R, W>
        ensures reader { result.source.reader ≡ reader }
        ensures writer { result.sink.writer ≡ writer }
        ensures faults { result.faults ≡ 0 }
    {
        StdLink {
            source: StdSource::new(reader),
            sink: StdSink::new(writer),
            faults: 0,
        }
    }
}

impl<R: Read, W: Write> Link for StdLink<R, W> {
    ghost left = { λ _. None };

    ghost held = { λ _. None };

    ghost faults = { λ s. s.faults };

    /// Gives what the reader gives. An interruption is no fault: the reader is asked again.
    fn pull(&mut self, buf: &mut [u8]) -> Pulled
        requires { 0 < length buf.old }
        ensures piece { IsPiece result (length buf.new) }
        ensures read { Consumes (R.remaining self.old.source.reader) (R.remaining self.new.source.reader)
            (pulled result buf.new) }
        ensures end { result ≡ Pulled.End → IsAtEnd (R.remaining self.new.source.reader) }
        ensures sink { self.new.sink ≡ self.old.sink }
        ensures faults { self.new.faults ≡ faults_after_pull result self.old.faults }
        ensures faults_stay { self.old.faults ≤ self.new.faults }
        ensures faults_fit { self.new.faults < 2 ^ 64 }
    {
        let faults = self.faults;
        let answer = self.source.read(buf);
        if let Pulled::Failed = answer {
            self.faults = faults.saturating_add(1);
        }
        answer
    }

    /// Takes what the writer takes. An interruption is no fault, and taking nothing is one.
    fn push(&mut self, piece: &[u8]) -> Pushed
        requires { 0 < length piece.now }
        ensures part { IsPart result (length piece.now) }
        ensures written { Appends (W.contents self.old.sink.writer) (W.contents self.new.sink.writer)
            (pushed result piece.now) }
        ensures source { self.new.source ≡ self.old.source }
        ensures faults { self.new.faults ≡ faults_after_push result self.old.faults }
        ensures faults_stay { self.old.faults ≤ self.new.faults }
        ensures faults_fit { self.new.faults < 2 ^ 64 }
    {
        let faults = self.faults;
        let answer = self.sink.write(piece);
        if let Pushed::Failed = answer {
            self.faults = faults.saturating_add(1);
        }
        answer
    }
}
