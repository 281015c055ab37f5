//! Rows of limits: long lines, and many lines.

use plain_text::NoMemory;
use plugin_link::{LinkEnd, LinkPlugin, MemLink, Plugin};
use std::alloc::Global;

// How many lines a turn gives that has so many lines of one byte, and how the link ended.
fn many(alloc: Global, lines: usize) -> Result<(usize, Option<LinkEnd>), NoMemory> {
    let mut bytes = Vec::new(alloc);
    for _ in 0..lines {
        bytes.extend_from_slice(b"a\n")?;
    }
    bytes.push(b'\n')?;
    let link = MemLink::new(alloc, bytes, 65_536, 9, Vec::new(alloc));
    let mut plugin = LinkPlugin::new(alloc, link);
    let turn = plugin.turn(&[]);
    Ok((turn.lines.len(), plugin.end()))
}

// How long the one line of a turn is that has a line of so many bytes, and how the link ended.
fn long(alloc: Global, length: usize) -> Result<(u64, Option<LinkEnd>), NoMemory> {
    let mut bytes = Vec::new(alloc);
    bytes.resize(length, b'a')?;
    bytes.extend_from_slice(b"\n\n")?;
    let link = MemLink::new(alloc, bytes, 65_536, 9, Vec::new(alloc));
    let mut plugin = LinkPlugin::new(alloc, link);
    let turn = plugin.turn(&[]);
    let given = match turn.lines.get(0) {
        Some(line) => line.byte_len(),
        None => 0,
    };
    Ok((given, plugin.end()))
}

// Whether so many lines and this end come of it.
fn gives_lines(alloc: Global, lines: usize, given: usize, end: Option<LinkEnd>) -> bool {
    match many(alloc, lines) {
        Ok((had, ended)) => had == given && ended == end,
        Err(_) => false,
    }
}

// Whether a line of this length and this end come of it.
fn gives_line(alloc: Global, length: usize, given: u64, end: Option<LinkEnd>) -> bool {
    match long(alloc, length) {
        Ok((had, ended)) => had == given && ended == end,
        Err(_) => false,
    }
}

#[test]
fn a_turn_has_fewer_lines_than_the_limit(rt: HostRuntime) {
    let alloc = rt.alloc();
    assert!(rt; gives_lines(alloc, 65_535, 65_535, None));
    assert!(rt; gives_lines(alloc, 65_536, 65_536, Some(LinkEnd::TooMany)));
}

#[test]
fn a_line_has_fewer_bytes_than_the_limit(rt: HostRuntime) {
    let alloc = rt.alloc();
    assert!(rt; gives_line(alloc, 16_777_215, 16_777_215, None));
    assert!(rt; gives_line(alloc, 16_777_216, 0, Some(LinkEnd::TooLong)));
}
