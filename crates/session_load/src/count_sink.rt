ghost use Rattle.std.specs.Prelude.{◌≡◌, ◌<◌, ◌≤◌, ◌^◌, length};
ghost use Rattle.outside.specs.Sink.{IsPart, failures_after};
ghost use Rattle.outside.specs.Faults.{Rose};
ghost use Rattle.session_load.specs.Count.{answered, counting_after, counts_of, counts_with, is_refusal, no_pieces};

use crate::count::Count;
use outside::{Pushed, Sink};
use std::marker::Model;

/// A sink that counts the pieces that it takes, and keeps none. It takes each whole, up to 2^40 bytes in all, and tells nothing of them but their counts.
#[derive(Drop)]
pub struct CountSink {
    count: Count,
    failures: u64,
}

impl Model for CountSink {
    ghost use Rattle.session_load.specs.Count.{Counting, counts_of};

    ghost Value = { Counting };

    ghost view = { λ s. record { counts = counts_of s.count; failures = s.failures } };
}

impl CountSink {
    pub fn new() -> CountSink
        ensures { result ≡ record { counts = no_pieces; failures = 0 } }
    {
        CountSink {
            count: Count::new(),
            failures: 0,
        }
    }

    /// What the pieces so far came to.
    pub fn count(&self) -> Count
        ensures { counts_of result ≡ self.now.counts }
    {
        self.count
    }
}

impl Sink for CountSink {
    ghost use Rattle.std.specs.Prelude.{None};

    ghost held = { λ _. None };

    ghost faults = { λ s. s.failures };

    ghost failures = { λ s. s.failures };

    fn write(&mut self, piece: &[u8]) -> Pushed
        requires { 0 < length piece.now }
        ensures answer { result ≡ answered (counts_with self.old piece.now) (length piece.now) }
        ensures count { self.new ≡ counting_after self.old (counts_with self.old piece.now) }
        ensures part { IsPart result (length piece.now) }
        ensures faults_stay { self.old.failures ≤ self.new.failures }
        ensures faults_fit { self.new.failures < 2 ^ 64 }
        ensures failed { result ≡ Pushed.Failed → Rose self.old.failures self.new.failures }
        ensures failures { self.new.failures ≡ failures_after result self.old.failures }
    {
        let len = piece.len();
        let failures = self.failures;
        match self.count.with_piece(len as u64, is_refusal(piece)) {
            Some(count) => {
                self.count = count;
                Pushed::Took(len)
            }
            None => {
                self.failures = failures.saturating_add(1);
                Pushed::Failed
            }
        }
    }
}

/// Whether a piece tells a refusal.
fn is_refusal(piece: &[u8]) -> bool
    ensures { result ≡ is_refusal piece.now }
{
    piece.starts_with(b"{\"error\":") || piece.starts_with(b"{\"method\":\"alert\"")
}
