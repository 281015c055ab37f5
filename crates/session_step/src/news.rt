ghost use Rattle.std.specs.Prelude.{◌≡◌, ◌∷◌, [], map, IfOk};
ghost use Rattle.entry_lines.specs.Notices.{told_of};
ghost use Rattle.session_step.specs.News.{news_for};

use entry_lines::PluginNews;
use plain_text::{List, NoMemory, Text, TryClone};
use std::alloc::Global;
use xi_plain::Notice;

/// What plugins are told of a step of the view with this id, by the notice of its document, if there is one.
pub fn news_of(
    alloc: Global,
    id: &Text,
    notice: Option<Notice>,
) -> Result<List<PluginNews>, NoMemory>
    ensures { IfOk result (λ news. map told_of news ≡ news_for id.now notice) }
{
    match notice {
        Some(notice) => one(alloc, PluginNews::Changed(of_view(notice, id.copy(alloc)?))),
        None => Ok(List::new(alloc)),
    }
}

/// The same notice with the id of its view.
fn of_view(notice: Notice, view: Text) -> Notice
    ensures { result ≡ record notice { view = view } }
{
    let Notice {
        view: empty,
        author,
        rev,
        new_len,
        delta,
    } = notice;
    drop(empty);
    Notice {
        view,
        author,
        rev,
        new_len,
        delta,
    }
}

/// The news that are this alone.
pub(crate) fn one(alloc: Global, told: PluginNews) -> Result<List<PluginNews>, NoMemory>
    ensures { IfOk result (λ news. news ≡ told ∷ []) }
{
    let mut news = List::new(alloc);
    news.push(told)?;
    Ok(news)
}
