// Where gaps and logical lines of a rope stand: each answer costs the height of the rope, and no walk over its text.
ghost use Rattle.std.specs.Prelude.{◌≡◌, ◌+◌, ◌^◌, ◌<◌, ◌≤◌, ◌↔◌, length, IfNone, IfSome, IsNone};
ghost use Rattle.plain_text.specs.Text.{place_of};
ghost use Rattle.plain_screen.specs.View.{layout_line_of, whole_lines};
ghost use Rattle.rope_metrics.specs.Measure.{HasNone, IsConverted};
ghost use Rattle.rope_metrics.specs.declared.measure.Measure.TheVariants.{Bytes, Chars, Lines};
ghost use Rattle.rope_node.specs.Lengths.{lf_count};
ghost use Rattle.line_index.specs.Whole.{line_start};

use plain_text::{Run, Steps};
use rope_metrics::{InLine, Measure, convert, convert_both, total};
use rope_tree::Rope;
use std::marker::Brand;
use std::sync::ledger::{Blank, Ledger};

/// How many LFs the text has.
pub(crate) fn lf_count(text: &Rope) -> u64
    ensures value { result ≡ lf_count text.now }
    ensures few { result ≤ length text.now }
{
    total(text.node(), Measure::Lines)
}

/// The gap where the logical line with this index starts; the text's end behind the last line.
pub(crate) fn line_start(text: &Rope, index: u64) -> u64
    ensures { result ≡ line_start text.now index }
{
    match converted(text, Measure::Lines, Measure::Chars, index) {
        Some(gap) => gap,
        None => text.len(),
    }
}

/// The logical line of a gap, counted from 0; the last one past the text's end.
pub(crate) fn line_at(text: &Rope, gap: u64) -> u64
    ensures { result ≡ layout_line_of (whole_lines text.now) gap }
{
    match converted(text, Measure::Chars, Measure::Lines, gap) {
        Some(index) => index,
        None => lf_count(text),
    }
}

/// The byte offset of a gap, or of the end where there is no such gap.
pub(crate) fn place_of(text: &Rope, gap: u64) -> u64
    ensures { result ≡ place_of text.now gap }
{
    match converted(text, Measure::Chars, Measure::Bytes, gap) {
        Some(place) => place,
        None => text.byte_len(),
    }
}

/// Where the logical line with this index starts and where the next one does: the text's end behind the last line.
pub(crate) fn line_run(text: &Rope, index: u64) -> Run
    requires { index + 1 < 2 ^ 64 }
    ensures { result ≡ record { start = line_start text.now index; end = line_start text.now (index + 1) } }
{
    let (start, end) = starts_by::<Brand>(text, index, Blank::new(1));
    Run {
        start: start.unwrap_or(text.len()),
        end: end.unwrap_or(text.len()),
    }
}

fn starts_by<L: Ledger>(text: &Rope, index: u64, blank: Blank) -> (Option<u64>, Option<u64>)
    requires room { index + 1 < 2 ^ 64 }
    requires blank { (blank.name ≡ L.name) × ((blank.parts ≡ L.parts) × (0 < blank.parts)) }
    ensures first { IfSome result.0 (λ offset. IsConverted Lines Chars text.now index offset) }
    ensures no_first { IfNone result.0 (HasNone Lines text.now index) }
    ensures second { IfSome result.1 (λ offset. IsConverted Lines Chars text.now (index + 1) offset) }
    ensures no_second { IfNone result.1 (HasNone Lines text.now (index + 1)) }
{
    let mut steps = Steps::<L>::new(blank);
    convert_both(
        text.node(),
        Measure::Lines,
        Measure::Chars,
        index,
        &mut steps,
    )
}

/// Where a gap stands in its logical line; `None` exactly where there is no such gap.
pub(crate) fn in_line(text: &Rope, gap: u64) -> Option<InLine>
    ensures line { IfSome result (λ at. at.line ≡ layout_line_of (whole_lines text.now) gap) }
    ensures start { IfSome result (λ at. at.start ≡ place_of text.now (line_start text.now at.line)) }
    ensures place { IfSome result (λ at. at.place ≡ place_of text.now gap) }
    ensures none { IsNone result ↔ (length text.now < gap) }
{
    in_line_by::<Brand>(text, gap, Blank::new(1))
}

fn in_line_by<L: Ledger>(text: &Rope, gap: u64, blank: Blank) -> Option<InLine>
    requires blank { (blank.name ≡ L.name) × ((blank.parts ≡ L.parts) × (0 < blank.parts)) }
    ensures line { IfSome result (λ at. IsConverted Chars Lines text.now gap at.line) }
    ensures start { IfSome result (λ at. IsConverted Lines Bytes text.now at.line at.start) }
    ensures place { IfSome result (λ at. IsConverted Chars Bytes text.now gap at.place) }
    ensures none { IfNone result (HasNone Chars text.now gap) }
{
    let mut steps = Steps::<L>::new(blank);
    rope_metrics::in_line(text.node(), gap, &mut steps)
}

fn converted(text: &Rope, from: Measure, to: Measure, at: u64) -> Option<u64>
    ensures some { IfSome result (λ offset. IsConverted from to text.now at offset) }
    ensures none { IfNone result (HasNone from text.now at) }
{
    converted_by::<Brand>(text, from, to, at, Blank::new(1))
}

fn converted_by<L: Ledger>(
    text: &Rope,
    from: Measure,
    to: Measure,
    at: u64,
    blank: Blank,
) -> Option<u64>
    requires blank { (blank.name ≡ L.name) × ((blank.parts ≡ L.parts) × (0 < blank.parts)) }
    ensures some { IfSome result (λ offset. IsConverted from to text.now at offset) }
    ensures none { IfNone result (HasNone from text.now at) }
{
    let mut steps = Steps::<L>::new(blank);
    convert(text.node(), from, to, at, &mut steps)
}
