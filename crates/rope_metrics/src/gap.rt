// The greatest gap of a text within an offset.
ghost use Rattle.std.specs.Prelude.{◌≡◌, ◌+◌, ◌<◌, ◌≤◌, length, true, IsTrue};
ghost use Rattle.std.specs.Str.{chars};
ghost use Rattle.rope_node.specs.Lengths.{is_countable, lengths_of, together};
ghost use Rattle.rope_node.specs.Node.{text_of};
ghost use Rattle.rope_metrics.specs.Measure.{is_plain, long_by, IsGapWithin};
ghost use Rattle.rope_metrics.specs.Inner.{IsGapWithinIn};
ghost use Rattle.plain_text.specs.Text.{byte_len};

use crate::Measure;
use crate::offset::{chunk_at, is_plain, total};
use plain_text::Steps;
use rope_node::{Chunk, Lengths, Node};
use shared_tree::{Leaf, Measure as _};
use std::sync::ledger::Ledger;

/// The greatest gap of the text whose offset in the measure is at most `at`; it is always there, since the first gap has 0. It takes no
/// memory and costs what [`crate::convert`] does.
pub fn gap_within<L: Ledger>(node: &Node, m: Measure, at: u64, steps: &mut Steps<L>) -> u64
    ensures gap { IsGapWithin m (text_of node.now) at result }
    ensures steps { steps.new ≤ steps.old + (node.now.height + 1) }
{
    if total(node, m) <= at {
        return total(node, Measure::Chars);
    }
    let (chunk, before) = chunk_at(node, m, at + 1, steps);
    in_chunk(chunk, m, at, &before)
}

/// The same of the leaf in which the measure passes `at`, where `before` are the lengths of all before it.
fn in_chunk(chunk: &Chunk, m: Measure, at: u64, before: &Lengths) -> u64
    requires reached { long_by m before.now ≤ at }
    requires passed { at < long_by m (together before.now (lengths_of chunk.now)) }
    requires fits { IsTrue (is_countable (together before.now (lengths_of chunk.now))) }
    ensures { IsGapWithinIn m before.now chunk.now at result }
{
    if m.is_plain() && is_plain(chunk) {
        return plain_gap(chunk, m, at, before);
    }
    within(chunk.text().as_str(), m, at, before)
}

/// The same, where each character takes one byte.
fn plain_gap(chunk: &Chunk, m: Measure, at: u64, before: &Lengths) -> u64
    requires reached { long_by m before.now ≤ at }
    requires passed { at < long_by m (together before.now (lengths_of chunk.now)) }
    requires fits { IsTrue (is_countable (together before.now (lengths_of chunk.now))) }
    requires plain { byte_len chunk.now ≡ length chunk.now }
    requires measure { is_plain m ≡ true }
    ensures { IsGapWithinIn m before.now chunk.now at result }
{
    let _chunk = chunk;
    before.chars + (at - m.width(before))
}

/// The same of the text of a leaf, character by character.
fn within(text: &str, m: Measure, at: u64, before: &Lengths) -> u64
    requires reached { long_by m before.now ≤ at }
    requires passed { at < long_by m (together before.now (lengths_of (chars text.now))) }
    requires fits { IsTrue (is_countable (together before.now (lengths_of (chars text.now)))) }
    ensures { IsGapWithinIn m before.now (chars text.now) at result }
{
    let mut here = m.width(before);
    let mut gap = before.chars;
    for c in text.chars() {
        here += m.of_char(c);
        if at < here {
            return gap;
        }
        gap += 1;
    }
    gap
}
