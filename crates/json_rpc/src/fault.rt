ghost use Rattle.std.specs.Prelude.{Some};
ghost use Rattle.json_rpc.specs.Fault.{refusal_text};

use plain_text::NoMemory;
use std::alloc::AllocError;
use std::error::Error;
use std::fmt;

/// Why a line gives no request.
#[derive(Clone, Copy, Debug, PartialEq, Eq)]
pub enum RpcFault {
    /// The line has no reading as JSON.
    Parse,

    /// It has one, but is no object with a text `method` and, if any, an `id` that is a whole number or a text.
    Invalid,

    /// No memory was left for the reading.
    NoMemory,
}

impl fmt::Display for RpcFault {
    ghost output = { λ fault. Some (refusal_text fault) };

    fn fmt<W: fmt::Write>(&self, f: &mut fmt::Formatter<W>) -> fmt::Result {
        f.write_str(match self {
            RpcFault::Parse => "parse error",
            RpcFault::Invalid => "invalid request",
            RpcFault::NoMemory => "out of memory",
        })
    }
}

impl Error for RpcFault {}
