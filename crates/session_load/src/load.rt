ghost use Rattle.std.specs.Prelude.{◌≡◌, IfOk};
ghost use Rattle.std.specs.Str.Lines.{lines};
ghost use Rattle.core_session.specs.Core.{sink_of};
ghost use Rattle.session_load.specs.Table.{IsTable, IsTableOf, tallies_of, written_between};

use crate::count_sink::CountSink;
use crate::kind::kind_of;
use crate::table::{Table, Written};
use crate::text::typing_of;
use crate::words::Size;
use anyhow::bail;
use core_session::{Core, Reply};
use outside::CalmShelf;
use std::alloc::Global;

/// The most characters that may be inserted into a document.
const TEXT_LIMIT: u64 = 1 << 40;

const OPENING: &[u8] = b"{\"id\":0,\"method\":\"new_view\",\"params\":{}}";

/// Enters the lines of a script into a session with a text of this size, and counts what they write.
pub fn run_script(alloc: Global, size: Size, script: &str) -> anyhow::Result<Table>
    ensures { IfOk result (λ table. IsTable script.now (tallies_of table)) }
{
    let Ok(mut core) = Core::make(
        alloc,
        CountSink::new(),
        CalmShelf::new(alloc),
        0,
        TEXT_LIMIT,
    ) else {
        bail!("no memory");
    };
    enter(&mut core, OPENING)?;
    let typing = typing_of(alloc, size)?;
    enter(&mut core, typing.as_bytes())?;
    enter_lines(alloc, &mut core, script)
}

fn enter_lines(
    alloc: Global,
    core: &mut Core<CountSink, CalmShelf>,
    script: &str,
) -> anyhow::Result<Table>
    ensures { IfOk result (λ table. IsTableOf (lines script.now) (sink_of core.old).counts (sink_of core.new).counts (tallies_of table)) }
{
    let mut table = Table::new(alloc)?;
    for line in script.lines() {
        let written = enter(core, line.as_bytes())?;
        table.take(kind_of(alloc, line)?, written)?;
    }
    Ok(table)
}

/// Enters a line, and says what it made the core write.
fn enter(core: &mut Core<CountSink, CalmShelf>, line: &[u8]) -> anyhow::Result<Written>
    ensures { IfOk result (λ written. written ≡ written_between (sink_of core.old).counts (sink_of core.new).counts) }
{
    let before = core.sink().count();
    let reply = core.front_line(line);
    taken(&reply)?;
    let after = core.sink().count();
    Ok(Written {
        len: after.bytes.saturating_sub(before.bytes),
        is_refusal: before.refusals < after.refusals,
    })
}

/// Whether the line was taken, and why it was not.
fn taken(reply: &Reply) -> anyhow::Result<()> {
    match reply {
        Reply::Taken(_) => Ok(()),
        Reply::SinkFault => bail!("the session would write more than 2^40 bytes"),
        Reply::NoMemory => bail!("no memory"),
        Reply::Refused(_) | Reply::Closed => bail!("the session is over"),
    }
}
