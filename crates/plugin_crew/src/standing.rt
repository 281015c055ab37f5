ghost use Rattle.std.specs.Prelude.{◌≡◌, not};
ghost use Rattle.plugin_crew.specs.Standing.{is_going, is_served, standing_after};

use plugin_session::After;

/// How the session of a plugin stands.
#[derive(Clone, Copy, Debug, PartialEq, Eq)]
pub enum Standing {
    /// It goes on.
    Going,
    /// It ended of itself.
    Over,
    /// It ended for want of memory.
    Short,
}

// How it stands after a visit that came to this.
pub(crate) fn standing_after(after: After) -> Standing
    ensures { result ≡ standing_after after }
{
    match after {
        After::Turned | After::Idle => Standing::Going,
        After::Over => Standing::Over,
        After::NoMemory => Standing::Short,
    }
}

impl Standing {
    // Whether it goes on.
    pub(crate) fn is_going(self) -> bool
        ensures { result ≡ is_going self }
    {
        matches!(self, Standing::Going)
    }

    // Whether it ended for want of memory.
    pub(crate) fn is_short(self) -> bool
        ensures { result ≡ not (is_served self) }
    {
        matches!(self, Standing::Short)
    }
}
