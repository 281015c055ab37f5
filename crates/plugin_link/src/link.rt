ghost use Rattle.std.specs.Prelude.{◌≡◌, ℕ, ◌^◌, ◌<◌, ◌≤◌, List, Option, length, IfSome, []};
ghost use Rattle.outside.specs.Source.{Gives, IsPiece, pulled};
ghost use Rattle.outside.specs.Sink.{Gains, IsPart, pushed};
ghost use Rattle.outside.specs.Faults.{Rose};

use outside::{Pulled, Pushed};

/// Where bytes come from and go to: a pipe, a socket, or what is behind them.
pub trait Link {
    /// The bytes that are left to pull, where the link tells them.
    ghost left: { Self → Option (List ℕ) };

    /// The bytes that were pushed, where the link tells them. It may stop telling, and never starts again.
    ghost held: { Self → Option (List ℕ) };

    /// The faults so far, of pulls and pushes. The count stands still at the end of `u64`.
    ghost faults: { Self → ℕ };

    /// Gives the first bytes that are left. It may give fewer than there is room for, and may wait for them.
    fn pull(&mut self, buf: &mut [u8]) -> Pulled
        requires { 0 < length buf.old }
        ensures piece { IsPiece result (length buf.new) }
        ensures gives { Gives (left self.old) (left self.new) (pulled result buf.new) }
        ensures end { result ≡ Pulled.End → IfSome (left self.old) (λ bytes. bytes ≡ []) }
        ensures held_stay { held self.new ≡ held self.old }
        ensures faults_stay { faults self.old ≤ faults self.new }
        ensures faults_fit { faults self.new < 2 ^ 64 }
        ensures failed { result ≡ Pulled.Failed → Rose (faults self.old) (faults self.new) };

    /// Takes the first bytes of the piece. It may take fewer than all, and may wait until it can.
    fn push(&mut self, piece: &[u8]) -> Pushed
        requires { 0 < length piece.now }
        ensures part { IsPart result (length piece.now) }
        ensures gains { Gains (held self.old) (held self.new) (pushed result piece.now) }
        ensures left_stay { left self.new ≡ left self.old }
        ensures faults_stay { faults self.old ≤ faults self.new }
        ensures faults_fit { faults self.new < 2 ^ 64 }
        ensures failed { result ≡ Pushed.Failed → Rose (faults self.old) (faults self.new) };
}
