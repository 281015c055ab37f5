//! Which lines a storm has.

use outside::{Pulled, Source};
use plain_text::NoMemory;
use std::alloc::Global;
use storm_lines::StormSource;

/// How many bytes a call may give.
#[derive(Clone, Copy)]
enum Room {
    One,
    Seven,
    Page,
}

fn read_by<S: Source>(source: &mut S, room: Room, into: &mut Vec<u8>) -> Result<bool, NoMemory> {
    match room {
        Room::One => read_into(source, &mut [0; 1], into),
        Room::Seven => read_into(source, &mut [0; 7], into),
        Room::Page => read_into(source, &mut [0; 4096], into),
    }
}

/// Puts what one call gives at the end, and says whether there was something.
fn read_into<S: Source>(
    source: &mut S,
    buf: &mut [u8],
    into: &mut Vec<u8>,
) -> Result<bool, NoMemory> {
    if buf.is_empty() {
        return Ok(false);
    }
    match source.read(buf) {
        Pulled::Got(n) => {
            into.extend_from_slice(&buf[..n])?;
            Ok(true)
        }
        Pulled::End | Pulled::Failed => Ok(false),
    }
}

/// The text of a storm, read so.
fn typed(alloc: Global, count: u32, seed: u64, room: Room) -> Result<Vec<u8>, NoMemory> {
    let mut source = StormSource::new(count, seed);
    let mut bytes = Vec::new(alloc);
    for _ in 0..10_000 {
        if !read_by(&mut source, room, &mut bytes)? {
            break;
        }
    }
    Ok(bytes)
}

/// Whether a storm is this, however it is read.
fn types(alloc: Global, count: u32, seed: u64, expected: &str) -> bool {
    for room in [Room::One, Room::Seven, Room::Page] {
        match typed(alloc, count, seed, room) {
            Ok(bytes) if bytes.as_slice() == expected.as_bytes() => {}
            _ => return false,
        }
    }
    true
}

const NONE: &str = "{\"id\":0,\"method\":\"new_view\",\"params\":{}}
";

// The words that seed 1 gives begin with 866585574, 2109535214 and 3403630417.
const SEVEN_OF_SEED_1: &str = r#"{"id":0,"method":"new_view","params":{}}
{"method":"edit","params":{"method":"insert","params":{"chars":"k"},"view_id":"view-id-1"}}
{"method":"edit","params":{"method":"undo","params":[],"view_id":"view-id-1"}}
{"method":"edit","params":{"method":"insert","params":{"chars":"x"},"view_id":"view-id-1"}}
{"method":"edit","params":{"method":"insert","params":{"chars":"a"},"view_id":"view-id-1"}}
{"method":"edit","params":{"method":"move_left","params":[],"view_id":"view-id-1"}}
{"method":"edit","params":{"method":"insert_newline","params":[],"view_id":"view-id-1"}}
{"method":"edit","params":{"method":"insert_newline","params":[],"view_id":"view-id-1"}}
"#;

// Those of seed 7 with 2442223337, 414063806 and 2743600285.
const FOUR_OF_SEED_7: &str = r#"{"id":0,"method":"new_view","params":{}}
{"method":"edit","params":{"method":"delete_backward","params":[],"view_id":"view-id-1"}}
{"method":"edit","params":{"method":"undo","params":[],"view_id":"view-id-1"}}
{"method":"edit","params":{"method":"move_right","params":[],"view_id":"view-id-1"}}
{"method":"edit","params":{"method":"insert","params":{"chars":"i"},"view_id":"view-id-1"}}
"#;

#[test]
fn a_storm_without_words_opens_a_view(rt: HostRuntime) {
    assert!(rt; types(rt.alloc(), 0, 7, NONE));
    assert!(rt; types(rt.alloc(), 0, 18446744073709551615, NONE));
}

#[test]
fn each_word_is_a_line(rt: HostRuntime) {
    assert!(rt; types(rt.alloc(), 7, 1, SEVEN_OF_SEED_1));
    assert!(rt; types(rt.alloc(), 4, 7, FOUR_OF_SEED_7));
}

#[test]
fn a_source_at_its_end_stays_there(rt: HostRuntime) {
    let mut source = StormSource::new(0, 1);
    let mut buf = [0; 64];
    assert!(rt; source.read(&mut buf) == Pulled::Got(41));
    assert!(rt; source.read(&mut buf) == Pulled::End);
    assert!(rt; source.read(&mut buf) == Pulled::End);
}
