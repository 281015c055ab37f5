ghost use Rattle.std.specs.Prelude.{◌≡◌, ◌<◌, ◌≤◌, length, take};
ghost use Rattle.outside.specs.Faults.{Rose, counted};
ghost use Rattle.outside.specs.Sink.{Gains};

use outside::{Pushed, Sink};

/// Writes a piece, and answers how many of its bytes the sink took: fewer than all only where it failed, after which it is called no
/// more.
pub fn write_piece<K: Sink>(sink: &mut K, piece: &[u8]) -> usize
    ensures within { result ≤ length piece.now }
    ensures gains { Gains (K.held sink.old) (K.held sink.new) (take result piece.now) }
    ensures failed { result < length piece.now → Rose (K.faults sink.old) (K.faults sink.new) }
    ensures once { result < length piece.now → K.failures sink.new ≡ counted (K.failures sink.old) }
    ensures never { result ≡ length piece.now → K.failures sink.new ≡ K.failures sink.old }
{
    let mut taken = 0;
    while taken < piece.len() {
        match sink.write(&piece[taken..]) {
            Pushed::Took(n) => taken += n,
            Pushed::Failed => return taken,
        }
    }
    taken
}
