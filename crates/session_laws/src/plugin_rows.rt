//! Worked rows, each the contract of a function: what lines of plugins come to in small sessions.

ghost use Rattle.session_laws.specs.PluginRows.{Answers, Collected, Refusals, StaleEdit, Styled};

/// Why lines are refused.
pub fn refusals()
    ensures { Refusals }
{}

/// What lines are answered, and what the front end is told by them.
pub fn answers()
    ensures { Answers }
{}

/// A style has its number from its first use on, also where that is of no characters.
pub fn styles()
    ensures { Styled }
{}

/// An edit against an old revision keeps what came since.
pub fn stale_edit()
    ensures { StaleEdit }
{}

/// What was collected is refused, also once a session is over.
pub fn collected()
    ensures { Collected }
{}
