//! Ropes: offsets from one unit to another.

ghost use Rattle.std.specs.Prelude.{◌≡◌, ◌<◌};

use Measure::{Bytes, Chars, Lines, Utf16};
use plain_text::{NoMemory, Steps, Text};
use rope_metrics::{Measure, convert, gap_within, total};
use rope_node::Node;
use rope_tree::Rope;
use std::alloc::Global;
use std::marker::Brand;
use std::sync::ledger::{Blank, Ledger};

// Two texts of at most one leaf each, joined; none of longer ones.
#[tactic(auto, using(crate::proofs::Fits::joined_few))]
fn node_of(alloc: Global, left: &str, right: &str) -> Result<Node, NoMemory> {
    let left = Text::from_str(alloc, left)?;
    let right = Text::from_str(alloc, right)?;
    if left.byte_len() > 1024 || right.byte_len() > 1024 {
        return Node::leaf(alloc, Text::new(alloc));
    }
    let left = Node::leaf(alloc, left)?;
    let right = Node::leaf(alloc, right)?;
    Node::join(alloc, left, right)
}

fn counted<L: Ledger>(blank: Blank, node: &Node, from: Measure, to: Measure, at: u64) -> Option<u64>
    requires name { blank.name ≡ L.name }
    requires parts { blank.parts ≡ L.parts }
    requires some { 0 < blank.parts }
{
    let mut steps = Steps::<L>::new(blank);
    convert(node, from, to, at, &mut steps)
}

fn offset(node: &Node, from: Measure, to: Measure, at: u64) -> Option<u64> {
    counted::<Brand>(Blank::new(1), node, from, to, at)
}

fn counted_gap<L: Ledger>(blank: Blank, node: &Node, m: Measure, at: u64) -> u64
    requires name { blank.name ≡ L.name }
    requires parts { blank.parts ≡ L.parts }
    requires some { 0 < blank.parts }
{
    let mut steps = Steps::<L>::new(blank);
    gap_within(node, m, at, &mut steps)
}

fn gap(node: &Node, m: Measure, at: u64) -> u64 {
    counted_gap::<Brand>(Blank::new(1), node, m, at)
}

// Whether the node is so long in characters, bytes, UTF-16 units and LFs.
fn is_long(node: &Node, lengths: (u64, u64, u64, u64)) -> bool {
    (
        total(node, Chars),
        total(node, Bytes),
        total(node, Utf16),
        total(node, Lines),
    ) == lengths
}

// Whether the offsets of `aé\n𝄞` are as they are on paper.
fn has_offsets(node: &Node) -> bool {
    offset(node, Bytes, Chars, 3) == Some(2)
        && offset(node, Bytes, Chars, 2) == None
        && offset(node, Lines, Chars, 1) == Some(3)
        && offset(node, Lines, Chars, 2) == None
        && offset(node, Chars, Lines, 4) == Some(1)
        && offset(node, Utf16, Bytes, 5) == Some(8)
        && offset(node, Utf16, Bytes, 4) == None
}

// Whether the greatest gaps within offsets of it are.
fn has_gaps(node: &Node) -> bool {
    gap(node, Bytes, 0) == 0
        && gap(node, Bytes, 2) == 1
        && gap(node, Bytes, 3) == 2
        && gap(node, Bytes, 7) == 3
        && gap(node, Bytes, 8) == 4
        && gap(node, Bytes, u64::MAX) == 4
        && gap(node, Utf16, 4) == 3
        && gap(node, Chars, 3) == 3
        && gap(node, Lines, 0) == 2
        && gap(node, Lines, 1) == 4
}

fn counts(alloc: Global, left: &str, right: &str) -> bool {
    match node_of(alloc, left, right) {
        Ok(node) => is_long(&node, (4, 8, 5, 1)) && has_offsets(&node) && has_gaps(&node),
        Err(_) => false,
    }
}

#[test]
fn offsets_in_each_unit(rt: HostRuntime) {
    let alloc = rt.alloc();
    assert!(rt; counts(alloc, "aé\n", "𝄞"));
    assert!(rt; counts(alloc, "", "aé\n𝄞"));
}

// The rope of so many letters.
fn letters_of(alloc: Global, letters: u64) -> Result<Rope, NoMemory> {
    let mut text = Text::new(alloc);
    for _ in 0..letters {
        text.push_str("x")?;
    }
    Rope::of_text(alloc, &text)
}

// Whether offsets of one measure reach this far in another, and no further, and the gaps within them too.
fn end_at(node: &Node, letters: u64, from: Measure, to: Measure) -> bool {
    offset(node, from, to, letters) == Some(letters)
        && offset(node, from, to, letters.wrapping_add(1)).is_none()
        && gap(node, from, letters) == letters
        && gap(node, from, letters.wrapping_add(1)) == letters
        && gap(node, to, letters.saturating_sub(1)) == letters.saturating_sub(1)
}

// Whether they do so in the rope of so many letters.
fn ends(alloc: Global, letters: u64, from: Measure, to: Measure) -> bool {
    match letters_of(alloc, letters) {
        Ok(rope) => end_at(rope.node(), letters, from, to),
        Err(_) => false,
    }
}

#[test]
fn offsets_at_the_ends(rt: HostRuntime) {
    let alloc = rt.alloc();
    assert!(rt; ends(alloc, 1025, Chars, Bytes));
    assert!(rt; ends(alloc, 0, Bytes, Utf16));
}
