ghost use Rattle.std.specs.Prelude.{◌≡◌, IfOk};
ghost use Rattle.json_rpc.specs.Request.{request, IsAsked};
ghost use Rattle.plugin_wire.specs.Asked.{request_ask, refused_line, ask_of};
ghost use Rattle.plugin_wire.specs.FairAsk.{IsFairCommand};

use crate::acts::plugin_act;
use json_rpc::{Rpc, RpcFault, read_line};
use plain_text::NoMemory;
use std::alloc::Global;
use xi_plain::{Act, Command, Fault, Id};

/// What a line of a plugin asks, with or without its LF. A line that asks nothing is `Act::Bad` with its fault, and keeps its id where it
/// has one. The cost is linear in the line.
#[tactic(auto, unfolding(crate::specs::Asked::ask_of))]
pub fn ask_of(alloc: Global, line: &[u8]) -> Result<Command, NoMemory>
    ensures command { IfOk result (λ command. command ≡ ask_of line.now) }
    ensures fair { IfOk result IsFairCommand }
{
    match read_line(alloc, line) {
        Ok(rpc) => request_ask(alloc, rpc),
        Err(RpcFault::Parse) => Ok(refused_line(Fault::Parse)),
        Err(RpcFault::Invalid) => Ok(refused_line(Fault::Invalid)),
        Err(RpcFault::NoMemory) => Err(NoMemory),
    }
}

fn request_ask(alloc: Global, rpc: Rpc) -> Result<Command, NoMemory>
    requires { IsAsked (request rpc) }
    ensures command { IfOk result (λ command. command ≡ request_ask (request rpc)) }
    ensures fair { IfOk result IsFairCommand }
{
    let Rpc { id, method, params } = rpc;
    let act = plugin_act(alloc, method, params)?;
    Ok(Command { id, act })
}

fn refused_line(fault: Fault) -> Command
    ensures { result ≡ refused_line fault }
{
    Command {
        id: Id::NoId,
        act: Act::Bad(fault),
    }
}
