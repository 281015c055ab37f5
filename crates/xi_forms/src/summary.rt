ghost use Rattle.std.specs.Prelude.{◌≡◌, ℕ, List, IfOk, Some};
ghost use Rattle.plain_screen.specs.Screen.{Screen};
ghost use Rattle.core_session.specs.Core.{journal_of, sink_of, terms_of};
ghost use Rattle.core_session.specs.Shows.{rebuilt};
ghost use Rattle.screen_flags.specs.Flags.{valid_lines};
ghost use Rattle.xi_forms.specs.InnerStorm.{AreNumbers};
ghost use Rattle.xi_forms.specs.Summary.{IsSummaryOf, storm_view};

use core_session::Core;
use doc_session::Doc;
use outside::{CalmShelf, CalmSink};
use plain_text::{NoMemory, Text};
use screen_flags::count_valid;
use std::alloc::Global;
use storm_lines::Summary;

const VIEW: &str = "view-id-1";

/// The summary of a session that ran a storm. `Err` for want of memory, where its sink does not tell what it holds, or the view is not open.
pub fn summary_of(alloc: Global, core: &Core<CalmSink, CalmShelf>) -> Result<Summary, NoMemory>
    ensures { IfOk result (λ summary. (bytes : List ℕ) × ((sink_of core.now).held ≡ Some bytes)
        × ∥ IsSummaryOf (terms_of core.now) (journal_of core.now) bytes summary ∥₁) }
{
    let view = Text::from_ascii(alloc, VIEW)?;
    match (core.doc(&view), core.sink().bytes()) {
        (Some(doc), Some(bytes)) => numbers(alloc, core.len(), doc, bytes),
        _ => Err(NoMemory),
    }
}

/// The numbers of so many entries, a document, and the bytes that were written.
fn numbers(alloc: Global, entries: u64, doc: &Doc, bytes: &[u8]) -> Result<Summary, NoMemory>
    ensures { IfOk result (AreNumbers entries doc.now bytes.now) }
{
    let text = doc.head_text(alloc)?;
    let valid = valid_in(alloc, bytes)?;
    Ok(Summary {
        entries,
        revision: doc.head(),
        characters: text.char_count(),
        kept: doc.kept(),
        lines: doc.lines(),
        valid,
    })
}

/// How many lines are valid of the screen that is rebuilt from these bytes.
fn valid_in(alloc: Global, bytes: &[u8]) -> Result<u64, NoMemory>
    ensures { (screen : Screen) → rebuilt storm_view bytes.now ≡ Some screen → IfOk result (λ valid. valid ≡ valid_lines screen) }
{
    count_valid(alloc, bytes, VIEW)
}
