//! Worked rows, each the contract of a function: what the definitions give in small cases.

ghost use Rattle.find_core.specs.Rows.{MatchesOfLetters};

/// What is found among letters, in one case and in both.
pub fn matches_of_letters()
    ensures { MatchesOfLetters }
{}
