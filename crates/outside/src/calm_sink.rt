ghost use Rattle.std.specs.Prelude.{◌≡◌, ◌↔◌, ℕ, ◌^◌, ◌<◌, ◌≤◌, Some, length, IfSome, IsSome, [], Option};
ghost use Rattle.std.specs.Option.{option_map};
ghost use Rattle.outside.specs.CalmSink.{KeepsUnlessRefused};
ghost use Rattle.outside.specs.Sink.{Gains, IsPart, pushed, failures_after};
ghost use Rattle.outside.specs.Faults.{Rose};

use crate::sink::{Pushed, Sink};
use std::alloc::Global;
use std::marker::Model;

/// A sink in memory that never fails: the bytes that it holds, while it tells them.
///
/// Where it is refused memory to keep a piece, it takes the piece, counts that, and from then on tells nothing.
#[derive(Drop)]
pub struct CalmSink {
    bytes: Vec<u8>,
    refused: u64,
}

impl Model for CalmSink {
    ghost use Rattle.std.specs.Prelude.{◌==◌, Some, None, if◌then◌else◌};
    ghost use Rattle.outside.specs.CalmSink.{Kept};

    ghost Value = { Kept };

    ghost view = { λ s. record {
      held = if s.refused == 0 then Some s.bytes.items else None;
      refused = s.refused;
    } };
}

impl CalmSink {
    pub fn new(alloc: Global) -> Self
        ensures { result ≡ record { held = Some []; refused = 0 } }
    {
        CalmSink {
            bytes: Vec::new(alloc),
            refused: 0,
        }
    }

    /// The bytes that it holds, where it still tells them.
    pub fn bytes(&self) -> Option<&[u8]>
        ensures { option_map (λ bytes. bytes.now) result ≡ self.now.held }
    {
        if self.refused == 0 {
            Some(self.bytes.as_slice())
        } else {
            None
        }
    }

    /// Gives up the bytes that it holds, where it still tells them.
    pub fn into_bytes(self) -> Option<Vec<u8>>
        ensures { option_map (λ bytes. bytes.items) result ≡ self.held }
    {
        let CalmSink { bytes, refused } = self;
        if refused == 0 { Some(bytes) } else { None }
    }

    /// How often it was refused memory to keep a piece. It tells what it holds while that is 0.
    pub fn refused(&self) -> u64
        ensures count { result ≡ self.now.refused }
        ensures tells { (result ≡ 0) ↔ IsSome self.now.held }
    {
        self.refused
    }
}

impl Sink for CalmSink {
    ghost held = { λ s. s.held };

    ghost faults = { λ _. 0 };

    ghost failures = { λ _. 0 };

    /// Takes the whole piece.
    fn write(&mut self, piece: &[u8]) -> Pushed
        requires { 0 < length piece.now }
        ensures answer { result ≡ Pushed.Took (length piece.now) }
        ensures keeps { KeepsUnlessRefused self.old self.new piece.now }
        ensures gains { Gains self.old.held self.new.held piece.now }
    {
        if self.refused == 0 && self.bytes.extend_from_slice(piece).is_err() {
            self.refused = 1;
        }
        Pushed::Took(piece.len())
    }
}
