ghost use Rattle.std.specs.Prelude.{◌≡◌, ◌∷◌, []};
ghost use Rattle.rope_metrics.specs.Measure.{is_plain, long};

use rope_node::Lengths;

/// A unit in which a text is measured.
#[derive(Clone, Copy, Debug, PartialEq, Eq)]
pub enum Measure {
    Chars,
    /// Of UTF-8.
    Bytes,
    /// Units of UTF-16.
    Utf16,
    /// LFs: an offset k is the gap after the k-th LF.
    Lines,
}

impl shared_tree::Measure<Lengths> for Measure {
    ghost use Rattle.rope_metrics.specs.Measure.{long_by, starts_at_none};

    ghost width = { long_by };

    ghost starts = { starts_at_none };

    fn width(&self, summary: &Lengths) -> u64 {
        match self {
            Measure::Chars => summary.chars,
            Measure::Bytes => summary.bytes,
            Measure::Utf16 => summary.utf16,
            Measure::Lines => summary.lines,
        }
    }
}

impl Measure {
    /// Whether it is one of characters, of bytes or of units of UTF-16, which are the same where each character takes one byte.
    pub(crate) fn is_plain(self) -> bool
        ensures { result ≡ is_plain self }
    {
        match self {
            Measure::Chars | Measure::Bytes | Measure::Utf16 => true,
            Measure::Lines => false,
        }
    }

    /// How long one character is.
    pub(crate) fn of_char(self, c: char) -> u64
        ensures { result ≡ long self (c ∷ []) }
    {
        match self {
            Measure::Chars => 1,
            Measure::Bytes => c.len_utf8() as u64,
            Measure::Utf16 => c.len_utf16() as u64,
            Measure::Lines => u64::from(c == '\n'),
        }
    }
}
