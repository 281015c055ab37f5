ghost use Rattle.std.specs.Prelude.{◌≡◌, ◌+◌, ◌<◌, ◌≤◌, length, true, IfNone, IfSome, IsTrue};
ghost use Rattle.std.specs.Str.{chars};
ghost use Rattle.rope_node.specs.Lengths.{is_countable, lengths_of, together};
ghost use Rattle.rope_node.specs.Node.{text_of};
ghost use Rattle.rope_metrics.specs.Measure.{long, long_by, HasNone, IsConverted};
ghost use Rattle.rope_metrics.specs.Inner.{HasNoneIn, IsChunkAt, IsConvertedIn};
ghost use Rattle.plain_text.specs.Text.{byte_len};

use crate::Measure;
use crate::plain::{long, split_at_offset};
use plain_text::Steps;
use rope_node::{Chunk, Lengths, Node};
use shared_tree::{Leaf, Measure as _};
use std::sync::ledger::Ledger;

/// How long the text is, in O(1).
pub fn total(node: &Node, m: Measure) -> u64
    ensures { result ≡ long m (text_of node.now) }
{
    m.width(&node.tree().summary())
}

/// The offset in another measure of the first gap that has this one; `None` where there is no such gap. One step a node on the way,
/// and a walk over the characters of one leaf. Where each of them takes one byte, LFs alone are looked for, and nothing is where neither
/// measure is of lines.
pub fn convert<L: Ledger>(
    node: &Node,
    from: Measure,
    to: Measure,
    at: u64,
    steps: &mut Steps<L>,
) -> Option<u64>
    ensures some { IfSome result (λ offset. IsConverted from to (text_of node.now) at offset) }
    ensures none { IfNone result (HasNone from (text_of node.now) at) }
    ensures steps { steps.new ≤ steps.old + (node.now.height + 1) }
{
    if at == 0 {
        return Some(0);
    }
    if at > total(node, from) {
        return None;
    }
    let (chunk, before) = chunk_at(node, from, at, steps);
    in_chunk(chunk, from, to, at, &before)
}

/// The leaf in which the measure passes `at`, and the lengths of all before it.
pub(crate) fn chunk_at<'a, L: Ledger>(
    node: &'a Node,
    from: Measure,
    at: u64,
    steps: &mut Steps<L>,
) -> (&'a Chunk, Lengths)
    requires some { 0 < at }
    requires within { at ≤ long from (text_of node.now) }
    ensures found { IsChunkAt from (text_of node.now) at result.0.now result.1 }
    ensures steps { steps.new ≤ steps.old + (node.now.height + 1) }
{
    steps.tick();
    let (top, lengths) = node.tree().top(&from, at);
    let mut here = top;
    let mut before = lengths;
    loop {
        match here.leaf() {
            Some(chunk) => return (chunk, before),
            None => {
                steps.tick();
                let (next, lengths) = here.child(&from, at, before);
                here = next;
                before = lengths;
            }
        }
    }
}

/// The same of a leaf, where `before` are the lengths of all before it.
pub(crate) fn in_chunk(
    chunk: &Chunk,
    from: Measure,
    to: Measure,
    at: u64,
    before: &Lengths,
) -> Option<u64>
    requires passed { long_by from before.now < at }
    requires reached { at ≤ long_by from (together before.now (lengths_of chunk.now)) }
    requires fits { IsTrue (is_countable (together before.now (lengths_of chunk.now))) }
    ensures some { IfSome result (λ offset. IsConvertedIn from to before.now chunk.now at offset) }
    ensures none { IfNone result (HasNoneIn from before.now chunk.now at) }
{
    if is_plain(chunk) {
        return Some(plain_offset(chunk, from, to, at, before));
    }
    within(chunk.text().as_str(), from, to, at, before)
}

/// Whether each character takes one byte.
pub(crate) fn is_plain(chunk: &Chunk) -> bool
    ensures { IsTrue result → byte_len chunk.now ≡ length chunk.now }
{
    chunk.text().byte_len() == chunk.len()
}

/// The offset in the other measure, where each character takes one byte.
fn plain_offset(chunk: &Chunk, from: Measure, to: Measure, at: u64, before: &Lengths) -> u64
    requires passed { long_by from before.now < at }
    requires reached { at ≤ long_by from (together before.now (lengths_of chunk.now)) }
    requires fits { IsTrue (is_countable (together before.now (lengths_of chunk.now))) }
    requires plain { byte_len chunk.now ≡ length chunk.now }
    ensures { IsConvertedIn from to before.now chunk.now at result }
{
    let text = chunk.text().as_str().as_bytes();
    let (front, _back) = split_at_offset(text, from, at - from.width(before));
    to.width(before) + long(front, to)
}

/// The same of the text of a leaf, character by character.
fn within(text: &str, from: Measure, to: Measure, at: u64, before: &Lengths) -> Option<u64>
    requires passed { long_by from before.now < at }
    requires reached { at ≤ long_by from (together before.now (lengths_of (chars text.now))) }
    requires fits { IsTrue (is_countable (together before.now (lengths_of (chars text.now)))) }
    ensures some { IfSome result (λ offset. IsConvertedIn from to before.now (chars text.now) at offset) }
    ensures none { IfNone result (HasNoneIn from before.now (chars text.now) at) }
{
    let mut here = from.width(before);
    let mut there = to.width(before);
    for c in text.chars() {
        here += from.of_char(c);
        there += to.of_char(c);
        if here == at {
            return Some(there);
        }
        if here > at {
            return None;
        }
    }
    None
}
