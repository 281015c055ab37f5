//! Lines of bytes.

ghost use Rattle.std.specs.Prelude.{◌≡◌, ◌<◌, ◌≤◌, length, take};
ghost use Rattle.plugin_link.specs.Turns.{HasNoLf};
ghost use Rattle.plugin_link.specs.Pulling.{TextBy};
ghost use Rattle.plugin_link.specs.Cut.{IsLfAt};

use crate::link_end::LinkEnd;
use memchr::memchr;
use plain_text::Text;
use std::alloc::Global;

/// The bytes without LF at which a line is too long.
pub(crate) const TOO_LONG: usize = 16_777_216;

/// Where the first LF stands, of which none stands among the bytes that were seen.
pub(crate) fn find_lf(bytes: &[u8], seen: usize) -> Option<usize>
    requires inside { seen ≤ length bytes.now }
    requires none { HasNoLf (take seen bytes.now) }
    ensures { IsLfAt bytes.now result }
{
    let (_seen, rest) = bytes.split_at(seen);
    match memchr(b'\n', rest) {
        Some(at) => Some(seen + at),
        None => None,
    }
}

/// The bytes of a line, without LF, as a text of its own.
pub(crate) fn text_of(alloc: Global, line: &[u8]) -> Result<Text, LinkEnd>
    ensures { TextBy result line.now }
{
    if line.len() >= TOO_LONG {
        return Err(LinkEnd::TooLong);
    }
    let mut bytes = Vec::new(alloc);
    if bytes.extend_from_slice(line).is_err() {
        return Err(LinkEnd::NoMemory);
    }
    match Text::from_utf8(bytes) {
        Ok(text) => Ok(text),
        Err(_) => Err(LinkEnd::NotText),
    }
}
