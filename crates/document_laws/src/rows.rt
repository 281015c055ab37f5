//! Worked rows, each the contract of a function: what the definitions give in small cases.

ghost use Rattle.document_laws.specs.Rows.{Collects, Configures, JoinsUndone, SpansOnDocuments, Steps};

/// Insertions that follow each other are one step, and a new line is another.
pub fn steps()
    ensures { Steps }
{}

/// Another configuration lays the text out anew and ends a run of typing.
pub fn configures()
    ensures { Configures }
{}

/// An edit that joins an undone group is hidden on arrival.
pub fn hidden_on_arrival()
    ensures { JoinsUndone }
{}

/// What is collected, and what waits for a session.
pub fn collects()
    ensures { Collects }
{}

/// Spans against an old revision come to their characters, and no style comes back with a redo.
pub fn stale_spans()
    ensures { SpansOnDocuments }
{}
