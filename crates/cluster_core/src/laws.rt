//! Laws of the definitions, each the contract of a function: they hold of all lines.

ghost use Rattle.cluster_core.specs.Laws.{LinesGoOn, WalksTell};
ghost use Rattle.cluster_core.specs.Plain.{PlainStandAlone};

/// A walk gives each cluster with the columns from where it began to count.
pub fn walks_tell()
    ensures { WalksTell }
{}

/// A line from the end of its first cluster on has its other clusters, whatever stands before.
pub fn lines_go_on()
    ensures { LinesGoOn }
{}

/// Behind a plain character a cluster ends where another one, LF or CR comes next.
pub fn plain_stand_alone()
    ensures { PlainStandAlone }
{}
