ghost use Rattle.std.specs.Prelude.{IfOk};
ghost use Rattle.plugin_session.specs.Start.{IsStart};

use std::alloc::Global;
use xi_plain::{NoMemory, Text};

// The line that the first turn is given, without its LF.
pub(crate) fn start_line(alloc: Global, caller: u32) -> Result<Text, NoMemory>
    ensures { IfOk result (λ line. IsStart caller line) }
{
    let mut line = plugin_wire::start_line(alloc, caller)?.into_string();
    line.truncate(line.len() - 1);
    Ok(Text::from_string(line))
}
