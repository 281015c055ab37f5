use plain_text::NoMemory;

/// What of a range with spans is no place of the text.
#[derive(Clone, Copy, Debug, PartialEq, Eq)]
pub enum Misplaced {
    Start,
    /// The end of the range.
    Len,
    /// An end of a span.
    Spans,
}

/// Why spans are refused.
#[derive(Clone, Copy, Debug, PartialEq, Eq)]
pub enum SpansFault {
    /// This is the first that is no place of the text of the revision.
    Misplaced(Misplaced),
    NoMemory,
}

impl From<NoMemory> for SpansFault {
    ghost use Rattle.std.specs.Prelude.{◌≡◌};
    ghost use Rattle.stale_spans.specs.declared.fault.SpansFault.TheVariants;

    ghost from_gives = { λ _ fault. fault ≡ TheVariants.NoMemory };

    fn from(_: NoMemory) -> Self {
        SpansFault::NoMemory
    }
}
