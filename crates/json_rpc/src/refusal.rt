ghost use Rattle.std.specs.Prelude.{◌≡◌, ◌++◌, IfOk};
ghost use Rattle.std.specs.Str.{IsAscii};
ghost use Rattle.json_rpc.specs.Refusal.{code_of, message_of};

use plain_text::{NoMemory, Text};
use std::alloc::Global;
use xi_plain::Fault;

/// The number of a fault, as JSON-RPC 2.0 has it.
pub fn code_of(fault: &Fault) -> i64
    ensures { result ≡ code_of fault.now }
{
    match fault {
        Fault::Parse => -32700,
        Fault::Invalid => -32600,
        Fault::NoMethod(_) => -32601,
        Fault::BadParams(_) => -32602,
    }
}

/// What a fault says to the one who sent the line.
pub fn message_of(alloc: Global, fault: &Fault) -> Result<Text, NoMemory>
    ensures { IfOk result (λ message. message ≡ message_of fault.now) }
{
    match fault {
        Fault::Parse => Text::from_ascii(alloc, "parse error"),
        Fault::Invalid => Text::from_ascii(alloc, "invalid request"),
        Fault::NoMethod(name) => joined(alloc, "method not found: ", name),
        Fault::BadParams(member) => joined(alloc, "invalid params: ", member),
    }
}

fn joined(alloc: Global, front: &str, name: &Text) -> Result<Text, NoMemory>
    requires { IsAscii front.now }
    ensures { IfOk result (λ text. text ≡ front.now ++ name.now) }
{
    let mut text = Text::from_ascii(alloc, front)?;
    text.push_text(name)?;
    Ok(text)
}
