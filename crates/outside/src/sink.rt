ghost use Rattle.std.specs.Prelude.{◌≡◌, ℕ, ◌^◌, ◌<◌, ◌≤◌, List, Option, length};
ghost use Rattle.outside.specs.Sink.{Gains, IsPart, pushed, failures_after};
ghost use Rattle.outside.specs.Faults.{Rose};

/// What a call of a sink answers.
#[derive(Clone, Copy, Debug, PartialEq, Eq)]
pub enum Pushed {
    /// The sink took so many bytes from the front of the piece, at least one.
    Took(usize),
    /// A fault, which the sink counted. It took nothing.
    Failed,
}

/// Where bytes go.
pub trait Sink {
    /// The bytes that the sink holds, where it tells them. It may stop telling, and never starts again.
    ghost held: { Self → Option (List ℕ) };

    /// The faults so far. The count stands still at the end of `u64`.
    ghost faults: { Self → ℕ };

    /// How often it answered `Failed` so far. The count stands still at the end of `u64`.
    ghost failures: { Self → ℕ };

    /// Takes the first bytes of the piece. It may take fewer than all, and may wait until it can.
    fn write(&mut self, piece: &[u8]) -> Pushed
        requires { 0 < length piece.now }
        ensures part { IsPart result (length piece.now) }
        ensures gains { Gains (held self.old) (held self.new) (pushed result piece.now) }
        ensures faults_stay { faults self.old ≤ faults self.new }
        ensures faults_fit { faults self.new < 2 ^ 64 }
        ensures failed { result ≡ Pushed.Failed → Rose (faults self.old) (faults self.new) }
        ensures failures { failures self.new ≡ failures_after result (failures self.old) }
        ensures failures_fit { failures self.new < 2 ^ 64 };
}
