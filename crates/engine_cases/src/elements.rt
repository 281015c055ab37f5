//! Deltas that put a text in the place of a range.

use plain_edits::{Delta, El, Els};
use plain_text::{NoMemory, Text};
use std::alloc::Global;

fn insertion(alloc: Global, text: &str) -> Result<El, NoMemory> {
    let text = Text::from_str(alloc, text)?;
    Ok(El::Insert { text })
}

// The text in the place of the bytes from `from` up to `to` of a base of `len` bytes.
pub(crate) fn replacing(
    alloc: Global,
    from: u64,
    to: u64,
    len: u64,
    added: &str,
) -> Result<Delta, NoMemory> {
    let added = insertion(alloc, added)?;
    let mut els = Els::new(alloc);
    els.push(El::Copy { a: 0, b: from })?;
    els.push(added)?;
    els.push(El::Copy { a: to, b: len })?;
    Ok(Delta { els, base_len: len })
}
