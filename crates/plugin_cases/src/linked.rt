//! Rows of a plugin behind a link: what it asks at the door of a small object, and what its link holds.

use crate::turns::{is, played};
use plugin_link::{LinkPlugin, MemLink};
use std::alloc::Global;

const START: &str = "{\"method\":\"initialize\",\"params\":{\"plugin_id\":1}}\n\n";

// A link that has these bytes, and gives and takes two at a time.
fn link(alloc: Global, bytes: &[u8]) -> Option<MemLink> {
    let mut left = Vec::with_capacity(alloc, bytes.len()).ok()?;
    left.extend_from_slice(bytes).ok()?;
    Some(MemLink::new(alloc, left, 2, 2, Vec::new(alloc)))
}

// Whether the link holds the first line that a plugin is handed, and this behind it.
fn holds_after_start(held: Option<&[u8]>, more: &str) -> bool {
    match held {
        Some(held) => held.strip_prefix(START.as_bytes()) == Some(more.as_bytes()),
        None => false,
    }
}

// Whether this comes of it, and the link holds this behind the first turn.
fn shows(alloc: Global, looks: &str, bytes: &[u8], held: &str, told: &str) -> bool {
    let Some(link) = link(alloc, bytes) else {
        return false;
    };
    let mut plugin = LinkPlugin::new(alloc, link);
    is(played(alloc, looks, looks.len() + 1, &mut plugin), told)
        && holds_after_start(plugin.into_link().held(), held)
}

#[test]
fn a_plugin_behind_a_link_is_asked_and_ends(rt: HostRuntime) {
    let alloc = rt.alloc();
    assert!(rt; shows(alloc, "-", b"hi\nno\n\n", "hi\nno\n\n", "TO+-0."));
    assert!(rt; shows(alloc, "-", b"hi\n\nyes\n\n", "hi\n\n", "TT+0+"));
    assert!(rt; shows(alloc, "-", b"\n\n", "", "TI0"));
    assert!(rt; shows(alloc, "-", b"hi\nno", "", "O+."));
    assert!(rt; shows(alloc, "-", b"", "", "O."));
}
