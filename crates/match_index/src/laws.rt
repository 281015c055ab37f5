//! Laws of matches, each the contract of a function: they hold of all texts.

ghost use Rattle.match_index.specs.Laws.{FrontsStay, MatchingGoesOn};

/// From a gap on across which no match stands, the matches do not depend on what stands left of it.
pub fn matching_goes_on()
    ensures { MatchingGoesOn }
{}

/// The matches that end in a front do not depend on what stands right of it.
pub fn fronts_stay()
    ensures { FrontsStay }
{}
