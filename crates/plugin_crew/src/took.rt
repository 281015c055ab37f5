ghost use Rattle.std.specs.Prelude.{◌≡◌};
ghost use Rattle.plugin_crew.specs.Taker.{adds_entry, is_sent, took_of};

use xi_plain::Reply;

/// What came of a line of the front end.
#[derive(Clone, Copy, Debug, PartialEq, Eq)]
pub enum Took {
    /// It has an entry, which was sent.
    Taken,
    /// It has an entry, which was not sent.
    Fault,
    /// It has no entry: no more lines are taken.
    Closed,
    /// It has no entry, for want of memory.
    NoMemory,
}

// What a reply comes to.
pub(crate) fn took_of(reply: &Reply) -> Took
    ensures { result ≡ took_of reply.now }
{
    match reply {
        Reply::Taken(_) => Took::Taken,
        Reply::SinkFault => Took::Fault,
        Reply::Refused(_) | Reply::Closed => Took::Closed,
        Reply::NoMemory => Took::NoMemory,
    }
}

impl Took {
    // Whether it has an entry that was sent.
    pub(crate) fn is_sent(self) -> bool
        ensures { result ≡ is_sent self }
    {
        matches!(self, Took::Taken)
    }

    // Whether it has an entry.
    pub(crate) fn adds_entry(self) -> bool
        ensures { result ≡ adds_entry self }
    {
        matches!(self, Took::Taken | Took::Fault)
    }
}
