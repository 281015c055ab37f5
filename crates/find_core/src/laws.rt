//! Laws of the definitions, each the contract of a function: they hold of all texts.

ghost use Rattle.find_core.specs.Laws.{MatchesAreFromTheLeft, MatchesGoOn};

/// Matches are the runs from the left that are what is looked for, and nothing else is.
pub fn matches_are_from_the_left()
    ensures { MatchesAreFromTheLeft }
{}

/// A search may begin anew at the end of any match.
pub fn matches_go_on()
    ensures { MatchesGoOn }
{}
