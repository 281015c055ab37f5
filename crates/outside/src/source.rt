ghost use Rattle.std.specs.Prelude.{◌≡◌, ℕ, ◌^◌, ◌<◌, ◌≤◌, List, Option, None, length, IfSome, []};
ghost use Rattle.outside.specs.Source.{Gives, IsPiece, pulled, failures_after, reads_after};
ghost use Rattle.outside.specs.Faults.{Rose};

/// What a call of a source answers.
#[derive(Clone, Copy, Debug, PartialEq, Eq)]
pub enum Pulled {
    /// So many bytes stand at the front of the buffer, at least one.
    Got(usize),
    /// Nothing is left.
    End,
    /// A fault, which the source counted.
    Failed,
}

/// Where bytes come from.
pub trait Source {
    /// The bytes that are left, where the source tells them.
    ghost left: { Self → Option (List ℕ) };

    /// The faults so far. The count stands still at the end of `u64`.
    ghost faults: { Self → ℕ };

    /// How often it answered `Failed` so far. The count stands still at the end of `u64`.
    ghost failures: { Self → ℕ };

    /// How often it was asked so far, where it tells that. The count stands still at the end of `u64`.
    ghost reads: { Self → Option ℕ } = { λ _. None };

    /// Gives the first bytes that are left. It may give fewer than there is room for, and may wait for them.
    fn read(&mut self, buf: &mut [u8]) -> Pulled
        requires { 0 < length buf.old }
        ensures piece { IsPiece result (length buf.new) }
        ensures gives { Gives (left self.old) (left self.new) (pulled result buf.new) }
        ensures end { result ≡ Pulled.End → IfSome (left self.old) (λ bytes. bytes ≡ []) }
        ensures faults_stay { faults self.old ≤ faults self.new }
        ensures faults_fit { faults self.new < 2 ^ 64 }
        ensures failed { result ≡ Pulled.Failed → Rose (faults self.old) (faults self.new) }
        ensures failures { failures self.new ≡ failures_after result (failures self.old) }
        ensures failures_fit { failures self.new < 2 ^ 64 }
        ensures reads { reads self.new ≡ reads_after (reads self.old) };
}
