ghost use Rattle.std.specs.Prelude.{◌≡◌, IfOk};
ghost use Rattle.xi_plain.specs.declared.command.Id.TheVariants.{NoId};
ghost use Rattle.xi_plain.specs.declared.command.Act.TheVariants.{Bad};
ghost use Rattle.front_wire.specs.Front.{command_of, request_command};
ghost use Rattle.json_rpc.specs.Request.{request, IsWireId, IsTextId};
ghost use Rattle.front_wire.specs.Fair.{IsFair};

use crate::act::act_of;
use json_rpc::{Rpc, RpcFault, read_line};
use plain_text::NoMemory;
use std::alloc::Global;
use xi_plain::{Act, Command, Fault, Id};

/// What a line of the front end asks, with or without its LF. A line that is refused by itself is `Act::Bad` with its fault, and keeps
/// its id where it is a request. The cost is linear in the line; the characters of an insertion are moved.
#[tactic(auto, unfolding(crate::specs::Front::command_of))]
pub fn command_of(alloc: Global, line: &[u8]) -> Result<Command, NoMemory>
    ensures command { IfOk result (λ command. command ≡ command_of line.now) }
    ensures fair { IfOk result IsFair }
{
    match read_line(alloc, line) {
        Ok(rpc) => request_command(alloc, rpc),
        Err(RpcFault::Parse) => Ok(refused(Fault::Parse)),
        Err(RpcFault::Invalid) => Ok(refused(Fault::Invalid)),
        Err(RpcFault::NoMemory) => Err(NoMemory),
    }
}

fn request_command(alloc: Global, rpc: Rpc) -> Result<Command, NoMemory>
    requires number { IsWireId rpc.id }
    requires word { IsTextId rpc.id }
    ensures command { IfOk result (λ command. command ≡ request_command (request rpc)) }
    ensures fair { IfOk result IsFair }
{
    let Rpc { id, method, params } = rpc;
    let act = act_of(alloc, &method, params)?;
    Ok(Command { id, act })
}

fn refused(fault: Fault) -> Command
    ensures { result ≡ record { id = NoId; act = Bad fault } }
{
    Command {
        id: Id::NoId,
        act: Act::Bad(fault),
    }
}
