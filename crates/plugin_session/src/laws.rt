//! Laws on the definitions alone.
ghost use Rattle.plugin_session.specs.Short.{ShortIsNotWhole};
ghost use Rattle.plugin_session.specs.Visit.{ServedStays};
ghost use Rattle.plugin_session.specs.Worker.{ServedAtClose};

use xi_plain::Object;

/// The journal that serves the turns of a plugin may be longer at the end: every journal that begins with it and has no further entry of the
/// caller serves them too.
pub fn served_stays<O: Object>(first: &O)
    ensures { ServedStays (O.serves first.now) (O.answers first.now) }
{
    let _ = first;
}

/// What the pass of a plugin has seen serves the plugin's visits; so does the journal of the closed room, which has of each caller exactly what
/// its pass has.
pub fn served_at_close<O: Object>(first: &O)
    ensures { ServedAtClose (O.serves first.now) (O.answers first.now) }
{
    let _ = first;
}

/// A session whose last visit lacked memory is not whole, even where a look said that all is over, and its end was answered `Closed`.
pub fn short_is_not_whole<O: Object>(first: &O)
    ensures { ShortIsNotWhole (O.serves first.now) (O.answers first.now) }
{
    let _ = first;
}
