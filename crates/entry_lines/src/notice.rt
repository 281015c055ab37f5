ghost use Rattle.std.specs.Prelude.{IfOk, map};
ghost use Rattle.std.specs.Str.{encode_utf8_all};
ghost use Rattle.plugin_wire.specs.Laws.{IsNoticeOf};
ghost use Rattle.entry_lines.specs.Notices.{AreNoticeTexts, told_of};

use crate::cut::without_lf;
use plain_text::{List, NoMemory, Text, Texts};
use plugin_wire::{buffer_line, close_line, notice_line, stop_line};
use std::alloc::Global;
use xi_plain::Notice;

/// What plugins are told of an entry.
#[derive(Drop)]
pub enum PluginNews {
    /// A view was opened on a text of `len` bytes.
    Opened { view: Text, len: u64 },
    /// A revision came.
    Changed(Notice),
    Closed { view: Text },
    /// The entry is the closing one.
    Stopped,
}

/// The lines, without their LF, that tell plugins of an entry. The cost is that of the lines.
pub fn notices_of(alloc: Global, news: &[PluginNews]) -> Result<Texts, NoMemory>
    ensures { IfOk result (λ texts. AreNoticeTexts (map told_of news.now) texts) }
{
    let mut texts = List::new(alloc);
    for told in news {
        texts.push(without_lf(notice_of(alloc, told)?))?;
    }
    Ok(texts)
}

fn notice_of(alloc: Global, told: &PluginNews) -> Result<Text, NoMemory>
    ensures { IfOk result (λ line. IsNoticeOf (told_of told.now) (encode_utf8_all line)) }
{
    match told {
        PluginNews::Opened { view, len } => buffer_line(alloc, view, *len),
        PluginNews::Changed(notice) => notice_line(alloc, notice),
        PluginNews::Closed { view } => close_line(alloc, view),
        PluginNews::Stopped => stop_line(alloc),
    }
}
