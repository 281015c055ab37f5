//! Rows of turns: bytes in pieces, what is handed in, what is given, and what the link holds.

use crate::script::{is, link, turns};
use plugin_link::{LinkPlugin, StdLink};
use std::alloc::Global;

// Whether these turns are given, in pieces of these greatest lengths.
fn gives(alloc: Global, bytes: &[u8], piece: usize, most: u64, expected: &str) -> bool {
    match link(alloc, bytes, [piece, 9], &[]) {
        Ok(link) => {
            let mut plugin = LinkPlugin::new(alloc, link);
            is(turns(alloc, &mut plugin, "", most), expected)
        }
        Err(_) => false,
    }
}

// Whether they are, a byte at a time, two at a time and all at once.
fn gives_in_pieces(alloc: Global, bytes: &[u8], most: u64, expected: &str) -> bool {
    gives(alloc, bytes, 1, most, expected)
        && gives(alloc, bytes, 2, most, expected)
        && gives(alloc, bytes, bytes.len(), most, expected)
}

#[test]
fn turns_are_cut_in_whatever_pieces_they_come(rt: HostRuntime) {
    let alloc = rt.alloc();
    assert!(rt; gives_in_pieces(alloc, b"a\nb\n\nc\n\n", 3, "a b /c /.E"));
    assert!(rt; gives_in_pieces(alloc, b"a\nb\n\nc\n\n", 2, "a b /c /-"));
    assert!(rt; gives_in_pieces(alloc, b"\n\n", 3, "//.E"));
    assert!(rt; gives_in_pieces(alloc, b"\na\n\n", 3, "/a /.E"));
    assert!(rt; gives_in_pieces(alloc, b"a\r\n\r\n\nb\n\n", 2, "a\r \r /b /-"));
    assert!(rt; gives_in_pieces(alloc, b"", 2, "..E"));
}

#[test]
fn an_end_drops_what_is_no_line(rt: HostRuntime) {
    let alloc = rt.alloc();
    assert!(rt; gives_in_pieces(alloc, b"a\nb", 2, "a ..E"));
    assert!(rt; gives_in_pieces(alloc, b"a\nb\n", 2, "a b ..E"));
    assert!(rt; gives_in_pieces(alloc, b"a\n\xff\nb\n\n", 2, "a ..T"));
    assert!(rt; gives_in_pieces(alloc, b"\xc3\xa9\n\n\xc3\n\n", 2, "\u{e9} /.T"));
}

// Whether these turns are given and these bytes are held, where a call fails.
fn holds(
    alloc: Global,
    bytes: &[u8],
    most: [usize; 2],
    failing: &[u64],
    handed: &str,
    expected: &str,
    held: &[u8],
) -> bool {
    let Ok(link) = link(alloc, bytes, most, failing) else {
        return false;
    };
    let mut plugin = LinkPlugin::new(alloc, link);
    let told = turns(alloc, &mut plugin, handed, 2);
    is(told, expected) && plugin.into_link().held() == Some(held)
}

#[test]
fn a_call_that_fails_ends_the_link(rt: HostRuntime) {
    let alloc = rt.alloc();
    assert!(rt; holds(alloc, b"a\n\n", [9, 2], &[2], "ab", "..s", b"ab"));
    assert!(rt; holds(alloc, b"a\n\n", [9, 2], &[1], "ab", "..s", b""));
    assert!(rt; holds(alloc, b"a\n\n", [9, 2], &[4], "ab", "..l", b"ab\n\n"));
    assert!(rt; holds(alloc, b"a\n\n", [2, 9], &[5], "ab", "a ..l", b"ab\n\n"));
    assert!(rt; holds(alloc, b"ab\n\n", [1, 9], &[5], "ab", "..l", b"ab\n\n"));
    assert!(rt;
        holds(
            alloc,
            b"a\n\n",
            [9, 9],
            &[8],
            "ab",
            "a /.l",
            b"ab\n\nab\n\n"
        )
    );
    assert!(rt; holds(alloc, b"a\n\nb\n\n", [9, 9], &[], "", "a /b /-", b"\n\n"));
}

// What a reader and a writer in memory make of two turns.
fn streams(alloc: Global, expected: &str) -> bool {
    let mut written = Vec::new(alloc);
    let reader: &[u8] = b"a\nb\n\nc\n\n";
    let mut plugin = LinkPlugin::new(alloc, StdLink::new(reader, &mut written));
    let told = turns(alloc, &mut plugin, "x", 3);
    is(told, expected)
}

#[test]
fn a_reader_and_a_writer_are_a_link(rt: HostRuntime) {
    assert!(rt; streams(rt.alloc(), "a b /c /.E"));
}
