ghost use Rattle.std.specs.Prelude.{◌≡◌, IfOk};
ghost use Rattle.shipped_plugins.specs.Storm.{sized_of};
ghost use Rattle.shipped_plugins.specs.Todo.{ack_ask, version_of};
ghost use Rattle.plugin_side.specs.Range.{IsTakenCommand};

use plain_text::{NoMemory, Text, TryClone};
use std::alloc::Global;
use std::marker::Model;
use xi_plain::{Act, Command, Id, Notice};

/// A revision of a view, of a number that the core takes from a line.
#[derive(Drop)]
pub struct Version {
    pub view: Text,
    pub rev: u64,
}

impl Model for Version {
    ghost use Rattle.std.specs.Prelude.{◌^◌, ◌<◌};
    ghost use Rattle.shipped_plugins.specs.Todo as todo;

    ghost Value = { todo.Version };

    ghost view = { λ v. record { view = v.view; rev = v.rev } };

    ghost invariant = { λ v. v.rev < 2 ^ 63 };
}

// Numbers from here on are none that the core takes from a line.
const NUMBER_LIMIT: u64 = 1 << 63;

/// A version, and the length of its text in bytes, a number that the core takes too.
#[derive(Drop)]
pub struct SizedVersion {
    pub version: Version,
    pub len: u64,
}

impl Model for SizedVersion {
    ghost use Rattle.std.specs.Prelude.{◌^◌, ◌<◌};
    ghost use Rattle.shipped_plugins.specs.Storm as storm;

    ghost Value = { storm.SizedVersion };

    ghost view = { λ v. record { version = v.version; len = v.len } };

    ghost invariant = { λ v. v.len < 2 ^ 63 };
}

impl SizedVersion {
    /// The version that a notice tells of; `None` exactly where the core takes no such numbers.
    pub fn of(notice: Notice) -> Option<SizedVersion>
        ensures { result ≡ sized_of notice }
    {
        let len = notice.new_len;
        let version = Version::new(notice.view, notice.rev)?;
        if len < NUMBER_LIMIT {
            Some(SizedVersion { version, len })
        } else {
            None
        }
    }
}

impl Version {
    /// The version of this number; `None` exactly where the core takes no such number.
    pub fn new(view: Text, rev: u64) -> Option<Version>
        ensures { result ≡ version_of view rev }
    {
        if rev < NUMBER_LIMIT {
            Some(Version { view, rev })
        } else {
            None
        }
    }

    /// Its acknowledgement.
    pub fn ack(&self, alloc: Global) -> Result<Command, NoMemory>
        ensures command { IfOk result (λ command. command ≡ ack_ask self.now) }
        ensures taken { IfOk result (λ command. IsTakenCommand command) }
    {
        Ok(Command {
            id: Id::NoId,
            act: Act::Ack {
                view: self.view.copy(alloc)?,
                rev: self.rev,
            },
        })
    }
}
