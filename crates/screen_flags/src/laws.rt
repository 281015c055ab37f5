//! Laws of flags on data alone, each the contract of a function.

ghost use Rattle.screen_flags.specs.Laws.{FlagsCount, FlagsFollow, OthersTellNone, UpdatesTellChanges};

/// The flags of a screen after operations are what these make of its flags before.
pub fn flags_follow()
    ensures { FlagsFollow }
{}

/// The line of an update tells what its operations do to the lines of its view.
pub fn updates_tell_changes()
    ensures { UpdatesTellChanges }
{}

/// A line that is no update tells nothing of them.
pub fn others_tell_none()
    ensures { OthersTellNone }
{}

/// The flags of a screen count its valid lines.
pub fn flags_count()
    ensures { FlagsCount }
{}
