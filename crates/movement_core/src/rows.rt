//! Worked rows, each the contract of a function: what the definitions give in small cases.

ghost use Rattle.movement_core.specs.Rows.{Steps, UpAndDown, Words};

/// Boundaries beside a gap, across a cluster of two characters and an LF.
pub fn steps()
    ensures { Steps }
{}

/// Words across classes and lines, and outward from inside a cluster.
pub fn words()
    ensures { Words }
{}

/// Lines up and down, over a short one.
pub fn up_and_down()
    ensures { UpAndDown }
{}
