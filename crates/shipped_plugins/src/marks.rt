ghost use Rattle.std.specs.Prelude.{◌≡◌, IfOk, codes};
ghost use Rattle.shipped_plugins.specs.Marks.{spans_of};

use memchr::memmem;
use plain_text::{NoMemory, Text};
use std::alloc::Global;
use xi_plain::{Style, WireSpan, WireSpans};

const MARK: &str = "TODO";

const MARK_LEN: u64 = 4;

const BOLD: Style = Style {
    fg_color: None,
    bg_color: None,
    weight: Some(700),
    italic: None,
    underline: None,
};

/// The spans of a chunk. It takes the time of the chunk, and memory for what it gives.
pub fn spans_of(alloc: Global, chunk: &Text) -> Result<WireSpans, NoMemory>
    ensures { IfOk result (λ spans. spans ≡ spans_of chunk.now) }
{
    let mut spans = WireSpans::new(alloc);
    for at in memmem::find_iter(chunk.as_str().as_bytes(), MARK.as_bytes()) {
        let start = at as u64;
        spans.push(WireSpan {
            start,
            end: start + MARK_LEN,
            style: BOLD,
        })?;
    }
    Ok(spans)
}
