//! A worked row, the contract of a function: what the definitions give in small lines.

ghost use Rattle.span_runs.specs.Rows.{TriplesAreInBytes};

/// Triples count bytes, each from the end of the one before.
pub fn triples_are_in_bytes()
    ensures { TriplesAreInBytes }
{}
