// What is read of a rope: a chunk of it, and how many lines it has. Nothing walks over its text.
ghost use Rattle.std.specs.Prelude.{◌≡◌, ◌^◌, ◌<◌, length, Some, IfOk};
ghost use Rattle.plain_text.specs.Lines.{logical_lines};
ghost use Rattle.plain_text.specs.Text.{gap_at};
ghost use Rattle.rope_metrics.specs.Measure.{IsGapWithin};
ghost use Rattle.rope_metrics.specs.declared.measure.Measure.TheVariants as Measures;
ghost use Rattle.xi_plain.specs.Chunk.{chunk_at};

use plain_text::{NoMemory, Steps, Text};
use rope_metrics::{Measure, gap_within, total};
use rope_tree::Rope;
use std::alloc::Global;
use std::marker::Brand;
use std::sync::ledger::{Blank, Ledger};

/// The most bytes of a chunk.
const MOST_BYTES: u64 = 1_048_576;

/// The chunk from this offset on, where this gap stands: it costs what it gives and the height of the rope.
pub(crate) fn chunk_of(
    alloc: Global,
    text: &Rope,
    start: u64,
    gap: u64,
    max: u64,
) -> Result<Text, NoMemory>
    requires { gap_at text.now start ≡ Some gap }
    ensures { IfOk result (λ chunk. chunk ≡ chunk_at text.now start max) }
{
    let room = max.min(MOST_BYTES).min(text.byte_len() - start);
    let end = last_gap(text, start + room);
    text.slice(alloc, gap, end)
}

// The greatest gap whose place is at most this byte offset.
fn last_gap(text: &Rope, at: u64) -> u64
    ensures { IsGapWithin Measures.Bytes text.now at result }
{
    last_gap_by::<Brand>(text, at, Blank::new(1))
}

fn last_gap_by<L: Ledger>(text: &Rope, at: u64, blank: Blank) -> u64
    requires blank { (blank.name ≡ L.name) × ((blank.parts ≡ L.parts) × (0 < blank.parts)) }
    ensures { IsGapWithin Measures.Bytes text.now at result }
{
    let mut steps = Steps::<L>::new(blank);
    gap_within(text.node(), Measure::Bytes, at, &mut steps)
}

/// How many logical lines the text has: one more than LFs, in O(1).
pub(crate) fn line_count(text: &Rope) -> u64
    requires { length (logical_lines text.now) < 2 ^ 64 }
    ensures { result ≡ length (logical_lines text.now) }
{
    total(text.node(), Measure::Lines) + 1
}
