//! Worked rows of ranges and spans in bytes, each the contract of a function.

ghost use Rattle.stale_spans.specs.Rows.{MeantSpans, MisplacedSpans};

/// The first that is no place is told.
pub fn misplaced_spans()
    ensures { MisplacedSpans }
{}

/// Offsets count from the start of the range, in bytes.
pub fn meant_spans()
    ensures { MeantSpans }
{}
