//! The lines of a turn, pulled one after the other.

ghost use Rattle.std.specs.Prelude.{◌≡◌, ◌+◌, ◌<◌, ◌≤◌, [], length, take, drop};
ghost use Rattle.plugin_link.specs.Turns.{utf8_of};
ghost use Rattle.plugin_link.specs.Link.{link_told};
ghost use Rattle.plugin_link.specs.Cut.{HasLfAt};
ghost use Rattle.plugin_link.specs.Pulling.{Comes, NextBy, Reads, end_of};

use crate::cut::{TOO_LONG, find_lf, text_of};
use crate::kept::Kept;
use crate::link::Link;
use crate::link_end::LinkEnd;
use plain_text::{Text, Texts};
use std::alloc::Global;

/// The lines at which a turn has too many.
const TOO_MANY: u64 = 65_536;

/// Pulls lines up to an empty one, and puts them into the list.
pub(crate) fn pull_turn<L: Link>(
    alloc: Global,
    link: &mut L,
    kept: &mut Kept,
    lines: &mut Texts,
) -> Result<(), LinkEnd>
    requires { lines.old ≡ [] }
    ensures { Reads (link_told L.left L.held L.faults link.old) (link_told L.left L.held L.faults link.new)
        kept.old kept.new (utf8_of lines.new) (end_of result) }
{
    for _ in 0..TOO_MANY {
        let line = pull_line(alloc, link, kept)?;
        if line.is_empty() {
            return Ok(());
        }
        if lines.push(line).is_err() {
            return Err(LinkEnd::NoMemory);
        }
    }
    Err(LinkEnd::TooMany)
}

/// The next line without its LF, after as many pulls as it needs. No byte is searched twice.
fn pull_line<L: Link>(alloc: Global, link: &mut L, kept: &mut Kept) -> Result<Text, LinkEnd>
    ensures { Comes (link_told L.left L.held L.faults link.old) (link_told L.left L.held L.faults link.new)
        kept.old kept.new result }
{
    let mut seen = 0;
    loop {
        if let Some(at) = find_lf(kept.bytes(), seen) {
            return take_line(alloc, kept, at);
        }
        seen = kept.bytes().len();
        if seen >= TOO_LONG {
            return Err(LinkEnd::TooLong);
        }
        kept.pull(link)?;
    }
}

/// Takes the line off that ends at this place.
fn take_line(alloc: Global, kept: &mut Kept, at: usize) -> Result<Text, LinkEnd>
    requires { HasLfAt kept.old at }
    ensures { NextBy result kept.old kept.new }
{
    match text_of(alloc, &kept.bytes()[..at]) {
        Ok(text) => {
            kept.pass(at + 1);
            Ok(text)
        }
        Err(end) => Err(end),
    }
}
