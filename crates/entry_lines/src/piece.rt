ghost use Rattle.std.specs.Prelude.{IfOk, OnOk};
ghost use Rattle.std.specs.Str.{encode_utf8_all};
ghost use Rattle.json_rpc.specs.Request.{IsWireId};
ghost use Rattle.entry_lines.specs.Piece.{AddsLines, AreLinesOf, UpdatesReadBack, news_messages, scroll_notes, style_notes, update_notes};

use crate::answer::answer_lines;
use crate::reply::FrontReply;
use plain_text::{List, NoMemory, Text};
use std::alloc::Global;
use view_update::{NumberedStyle, Scroll, ViewUpdate, write_scroll, write_style, write_update};
use xi_plain::Id;

/// What an entry tells the front end.
#[derive(Drop)]
pub struct FrontNews {
    pub reply: FrontReply,
    /// The styles that it is the first to use, in rising order of their numbers.
    pub styles: List<NumberedStyle>,
    /// In the order of the views.
    pub updates: List<ViewUpdate>,
    pub scroll: Option<Scroll>,
}

/// The lines of an entry: its answer, the styles, the updates, and then the place to scroll to. The cost is that of the lines: each is made
/// and put at the end once.
pub fn piece_of(alloc: Global, id: &Id, news: &FrontNews) -> Result<Text, NoMemory>
    requires { IsWireId id.now }
    ensures reads_back { IfOk result (λ _. UpdatesReadBack news.now.updates) }
    ensures lines { IfOk result (λ piece. AreLinesOf (news_messages id.now news.now) (encode_utf8_all piece)) }
{
    let mut piece = answer_lines(alloc, id, &news.reply)?;
    push_styles(&mut piece, alloc, news.styles.as_slice())?;
    push_updates(&mut piece, alloc, news.updates.as_slice())?;
    push_scroll(&mut piece, alloc, &news.scroll)?;
    Ok(piece)
}

fn push_styles(piece: &mut Text, alloc: Global, styles: &[NumberedStyle]) -> Result<(), NoMemory>
    ensures { OnOk result (AddsLines (style_notes styles.now) piece.old piece.new) }
{
    for numbered in styles {
        piece.push_text(&write_style(alloc, numbered.id, numbered.style)?)?;
    }
    Ok(())
}

fn push_updates(piece: &mut Text, alloc: Global, updates: &[ViewUpdate]) -> Result<(), NoMemory>
    ensures reads_back { OnOk result (UpdatesReadBack updates.now) }
    ensures lines { OnOk result (AddsLines (update_notes updates.now) piece.old piece.new) }
{
    for told in updates {
        piece.push_text(&write_update(alloc, &told.view, &told.update)?)?;
    }
    Ok(())
}

fn push_scroll(piece: &mut Text, alloc: Global, scroll: &Option<Scroll>) -> Result<(), NoMemory>
    ensures { OnOk result (AddsLines (scroll_notes scroll.now) piece.old piece.new) }
{
    match scroll {
        Some(place) => {
            piece.push_text(&write_scroll(alloc, &place.view, place.line, place.col)?)
        }
        None => Ok(()),
    }
}
