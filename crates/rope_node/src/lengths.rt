ghost use Rattle.std.specs.Prelude.{◌≡◌};
ghost use Rattle.rope_node.specs.Lengths.{changed, IsChanged};

use shared_tree::Summary;

/// The length of a text in each unit.
#[derive(Drop)]
pub struct Lengths {
    pub chars: u64,
    pub bytes: u64,
    pub utf16: u64,
    /// How many LFs.
    pub lines: u64,
}

impl Lengths {
    pub(crate) fn copy(&self) -> Lengths
        ensures { result ≡ self.now }
    {
        Lengths {
            chars: self.chars,
            bytes: self.bytes,
            utf16: self.utf16,
            lines: self.lines,
        }
    }

    /// Without the lengths of what goes, and with those of what comes.
    pub(crate) fn changed(&self, gone: &Lengths, come: &Lengths) -> Lengths
        requires { IsChanged self.now gone.now come.now }
        ensures { result ≡ changed self.now gone.now come.now }
    {
        Lengths {
            chars: self.chars - gone.chars + come.chars,
            bytes: self.bytes - gone.bytes + come.bytes,
            utf16: self.utf16 - gone.utf16 + come.utf16,
            lines: self.lines - gone.lines + come.lines,
        }
    }
}

impl Summary for Lengths {
    ghost use Rattle.rope_node.specs.Lengths.{is_countable, lengths_add, no_lengths, together};

    ghost zero = { no_lengths };

    ghost plus = { together };

    ghost fits = { is_countable };

    ghost count = { λ lengths. lengths.chars };

    ghost adds = { lengths_add };

    fn zero() -> Self {
        Lengths {
            chars: 0,
            bytes: 0,
            utf16: 0,
            lines: 0,
        }
    }

    fn plus(&self, other: &Self) -> Self {
        Lengths {
            chars: self.chars + other.chars,
            bytes: self.bytes + other.bytes,
            utf16: self.utf16 + other.utf16,
            lines: self.lines + other.lines,
        }
    }

    fn count(&self) -> u64 {
        self.chars
    }
}
