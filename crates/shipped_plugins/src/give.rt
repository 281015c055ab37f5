ghost use Rattle.std.specs.Prelude.{◌≡◌, [], ◌∷◌, OnOk, OnErr};
ghost use Rattle.plugin_side.specs.Asking.{IsAsk};
ghost use Rattle.plugin_side.specs.Range.{IsTakenCommand};
ghost use Rattle.shipped_plugins.specs.Todo.{ack_ask};
ghost use Rattle.shipped_plugins.specs.Turns.{Gives, GivesFirst, utf8_of};

use crate::version::Version;
use plain_text::{NoMemory, Texts};
use plugin_side::turn_line;
use std::alloc::Global;
use xi_plain::Command;

/// Puts the line of a command at the end. After want of memory the lines are as before.
fn give(alloc: Global, command: &Command, given: &mut Texts) -> Result<(), NoMemory>
    requires ask { IsAsk command.now.act }
    requires taken { IsTakenCommand command.now }
    ensures gives { OnOk result (Gives (command.now ∷ []) (utf8_of given.old) (utf8_of given.new)) }
    ensures unchanged { OnErr result (given.new ≡ given.old) }
{
    let line = turn_line(alloc, command)?;
    given.push(line)
}

/// Puts the line of a command at the end, and behind it that of the acknowledgement of a version.
pub fn give_with_ack(
    alloc: Global,
    command: &Command,
    version: &Version,
    given: &mut Texts,
) -> Result<(), NoMemory>
    requires ask { IsAsk command.now.act }
    requires taken { IsTakenCommand command.now }
    ensures all { OnOk result (Gives (command.now ∷ ack_ask version.now ∷ [])
        (utf8_of given.old) (utf8_of given.new)) }
    ensures first { OnErr result (GivesFirst (command.now ∷ ack_ask version.now ∷ [])
        (utf8_of given.old) (utf8_of given.new)) }
{
    give(alloc, command, given)?;
    let ack = version.ack(alloc)?;
    give(alloc, &ack, given)
}
