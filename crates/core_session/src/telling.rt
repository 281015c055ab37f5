ghost use Rattle.std.specs.Prelude.{◌≡◌, ◌++◌, ◌∷◌, [], IfOk, OnOk};
ghost use Rattle.plugin_wire.specs.Told.{stopped};
ghost use Rattle.entry_lines.specs.Notices.{AreNoticeTexts};
ghost use Rattle.core_session.specs.Notes.{lines_in};

use entry_lines::{PluginNews, notices_of};
use plain_text::{List, NoMemory, Texts, TryClone};
use std::alloc::Global;

/// The lines that tell plugins of an entry, each without its LF.
#[derive(Drop)]
pub struct EntryNews {
    pub lines: Texts,
}

/// Those of the closing entry.
pub(crate) fn stop_lines(alloc: Global) -> Result<Texts, NoMemory>
    ensures { IfOk result (AreNoticeTexts (stopped ∷ [])) }
{
    notices_of(alloc, &[PluginNews::Stopped])
}

/// The lines of entries, one after the other.
pub(crate) fn lines_of(alloc: Global, told: &[EntryNews]) -> Result<Texts, NoMemory>
    ensures { IfOk result (λ lines. lines ≡ lines_in told.now) }
{
    let mut lines = List::new(alloc);
    for news in told {
        push_all(&mut lines, alloc, &news.lines)?;
    }
    Ok(lines)
}

fn push_all(lines: &mut Texts, alloc: Global, more: &Texts) -> Result<(), NoMemory>
    ensures { OnOk result (lines.new ≡ lines.old ++ more.now) }
{
    for line in more.as_slice() {
        lines.push(line.copy(alloc)?)?;
    }
    Ok(())
}
