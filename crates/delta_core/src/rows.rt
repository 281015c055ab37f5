//! Worked rows, each the contract of a function: what the definitions give in small cases.

ghost use Rattle.delta_core.specs.Rows.{GapsAreKept};

/// Texts beside a dropped character each stand at their gap.
pub fn gaps_are_kept()
    ensures { GapsAreKept }
{}
