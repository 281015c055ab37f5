//! Edits of one base, merged by the plain history.

use crate::elements::replacing;
use plain_edits::Rank;
use plain_history::{UnitEdit, merged};
use plain_text::{NoMemory, Text};
use std::alloc::Global;

// One more edit of `ac`: it puts a text in after the first character, with this rank, in the place of what goes up to `to`.
fn put(
    alloc: Global,
    edits: &mut Vec<UnitEdit>,
    to: u64,
    added: &str,
    rank: Rank,
) -> Result<(), NoMemory> {
    let text = Text::from_str(alloc, "ac")?;
    let delta = replacing(alloc, 1, to, 2, added)?;
    let edit = UnitEdit::of_delta(alloc, 0, &text, &delta, 1, rank.priority, rank.author)?;
    edits.push(edit)?;
    Ok(())
}

fn by(priority: u32, author: u32) -> Rank {
    Rank { priority, author }
}

// The text of all four.
fn all(alloc: Global) -> Result<Text, NoMemory> {
    let mut edits = Vec::new(alloc);
    put(alloc, &mut edits, 1, "X", by(2, 1))?;
    put(alloc, &mut edits, 1, "Y", by(1, 2))?;
    put(alloc, &mut edits, 1, "W", by(1, 1))?;
    put(alloc, &mut edits, 2, "Z", by(3, 0))?;
    let text = Text::from_str(alloc, "ac")?;
    merged(alloc, &text, &edits)
}

#[test]
fn edits_of_one_base_are_merged_by_rank(rt: HostRuntime) {
    assert!(rt; all(rt.alloc()).is_ok_and(|text| text.as_str() == "aWYXZ"));
}
