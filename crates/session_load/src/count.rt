ghost use Rattle.std.specs.Prelude.{◌≡◌, option_map};
ghost use Rattle.session_load.specs.Count.{counts_of, no_pieces, with_piece};

/// The greatest that a number of a count becomes.
const MOST: u64 = 1 << 40;

/// What pieces came to.
#[derive(Clone, Copy)]
pub struct Count {
    pub pieces: u64,
    /// Those of them that tell a refusal.
    pub refusals: u64,
    pub bytes: u64,
    /// The bytes of the greatest piece.
    pub greatest: u64,
}

impl Count {
    /// Nothing.
    pub fn new() -> Count
        ensures { counts_of result ≡ no_pieces }
    {
        Count {
            pieces: 0,
            refusals: 0,
            bytes: 0,
            greatest: 0,
        }
    }

    /// With one piece more, where no number passes 2^40 by that.
    pub fn with_piece(self, len: u64, is_refusal: bool) -> Option<Count>
        ensures { option_map counts_of result ≡ with_piece (counts_of self) len is_refusal }
    {
        let bytes = self.bytes.checked_add(len)?;
        if MOST <= self.pieces || MOST <= self.refusals || MOST < bytes {
            return None;
        }
        Some(Count {
            pieces: self.pieces + 1,
            refusals: self.refusals + u64::from(is_refusal),
            bytes,
            greatest: self.greatest.max(len),
        })
    }
}
