ghost use Rattle.std.specs.Prelude.{◌≡◌, ◌^◌, ◌<◌, ◌≤◌, Some, min, length, [], IfSome};
ghost use Rattle.std.specs.Option.{option_map};
ghost use Rattle.outside.specs.Source.{Gives, IsPiece, pulled, filled};
ghost use Rattle.outside.specs.Sink.{Gains, IsPart, pushed};
ghost use Rattle.outside.specs.CalmSink.{KeepsUnlessRefused};
ghost use Rattle.outside.specs.Faults.{Rose};
ghost use Rattle.outside.specs.Schedule.{next, schedule_of};
ghost use Rattle.plugin_link.specs.MemLink.{given_len, pull_answer, pulled_from, push_answer};

use crate::calls::CallList;
use crate::link::Link;
use outside::{CalmSink, CalmSource, Pulled, Pushed, Sink, Source};
use std::alloc::Global;
use std::marker::Model;

/// A link in memory, which gives and takes small pieces, and fails at the calls that it is told to.
///
/// Where it is refused memory to keep a piece, it takes the piece, and from then on tells no more what was pushed.
#[derive(Drop)]
pub struct MemLink {
    source: CalmSource,
    sink: CalmSink,
    most_pulled: usize,
    most_pushed: usize,
    calls: CallList,
}

impl Model for MemLink {
    ghost use Rattle.std.specs.Prelude.{◌<◌};
    ghost use Rattle.plugin_link.specs.MemLink.{Pipe};

    ghost Value = { Pipe };

    ghost view = { λ m. record {
      left = m.source;
      kept = m.sink;
      most_pulled = m.most_pulled;
      most_pushed = m.most_pushed;
      calls = m.calls;
    } };

    ghost invariant = { λ m. (0 < m.most_pulled) × (0 < m.most_pushed) };
}

impl MemLink {
    /// A link that has these bytes to pull, of which one pull gives at most `most_pulled`; one push takes at most `most_pushed`. The calls
    /// with the numbers `failing` fail, pulls and pushes counted together from 1.
    pub fn new(
        alloc: Global,
        bytes: Vec<u8>,
        most_pulled: usize,
        most_pushed: usize,
        failing: Vec<u64>,
    ) -> MemLink
        requires pulled { 0 < most_pulled }
        requires pushed { 0 < most_pushed }
        ensures left { result.left ≡ bytes.items }
        ensures kept { result.kept ≡ record { held = Some []; refused = 0 } }
        ensures most { (result.most_pulled ≡ most_pulled) × (result.most_pushed ≡ most_pushed) }
        ensures calls { result.calls ≡ schedule_of failing.items }
    {
        MemLink {
            source: CalmSource::new(bytes),
            sink: CalmSink::new(alloc),
            most_pulled,
            most_pushed,
            calls: CallList::new(failing),
        }
    }

    /// The bytes that are left to pull.
    pub fn left(&self) -> &[u8]
        ensures { result.now ≡ self.now.left }
    {
        self.source.left()
    }

    /// The bytes that were pushed, where it still tells them.
    pub fn held(&self) -> Option<&[u8]>
        ensures { option_map (λ bytes. bytes.now) result ≡ self.now.kept.held }
    {
        self.sink.bytes()
    }

    /// How many calls were made. The count stands still at the end of `u64`.
    pub fn calls(&self) -> u64
        ensures { result ≡ self.now.calls.calls }
    {
        self.calls.calls()
    }

    /// How many calls failed.
    pub fn faults(&self) -> u64
        ensures { result ≡ self.now.calls.faults }
    {
        self.calls.faults()
    }
}

impl Link for MemLink {
    ghost left = { λ m. Some m.left };

    ghost held = { λ m. m.kept.held };

    ghost faults = { λ m. m.calls.faults };

    fn pull(&mut self, buf: &mut [u8]) -> Pulled
        requires { 0 < length buf.old }
        ensures answer { result ≡ pull_answer self.old (length buf.old) }
        ensures given { buf.new ≡ filled buf.old self.old.left (given_len self.old (length buf.old)) }
        ensures after { self.new ≡ pulled_from self.old (length buf.old) }
        ensures piece { IsPiece result (length buf.new) }
        ensures end { result ≡ Pulled.End → self.old.left ≡ [] }
        ensures faults_stay { self.old.calls.faults ≤ self.new.calls.faults }
        ensures faults_fit { self.new.calls.faults < 2 ^ 64 }
    {
        if self.calls.enter() {
            return Pulled::Failed;
        }
        let room = buf.len().min(self.most_pulled);
        self.source.read(&mut buf[..room])
    }

    fn push(&mut self, piece: &[u8]) -> Pushed
        requires { 0 < length piece.now }
        ensures answer { result ≡ push_answer self.old (length piece.now) }
        ensures keeps { KeepsUnlessRefused self.old.kept self.new.kept (pushed result piece.now) }
        ensures left { self.new.left ≡ self.old.left }
        ensures calls { self.new.calls ≡ next self.old.calls }
        ensures part { IsPart result (length piece.now) }
        ensures gains { Gains self.old.kept.held self.new.kept.held (pushed result piece.now) }
        ensures faults_stay { self.old.calls.faults ≤ self.new.calls.faults }
        ensures faults_fit { self.new.calls.faults < 2 ^ 64 }
    {
        if self.calls.enter() {
            return Pushed::Failed;
        }
        let part = piece.len().min(self.most_pushed);
        self.sink.write(&piece[..part])
    }
}
