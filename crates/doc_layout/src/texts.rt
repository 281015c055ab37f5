// Where gaps of a rope stand: each answer costs the height of the rope, and no walk over its text.
ghost use Rattle.std.specs.Prelude.{◌≡◌, ◌<◌, IfNone, IfSome};
ghost use Rattle.plain_text.specs.Text.{place_of};
ghost use Rattle.rope_metrics.specs.Measure.{HasNone, IsConverted};

use plain_text::Steps;
use rope_metrics::{Measure, convert};
use rope_tree::Rope;
use std::marker::Brand;
use std::sync::ledger::{Blank, Ledger};

/// The byte offset of a gap, or of the end where there is no such gap.
pub(crate) fn place_of(text: &Rope, gap: u64) -> u64
    ensures { result ≡ place_of text.now gap }
{
    match converted(text, Measure::Chars, Measure::Bytes, gap) {
        Some(place) => place,
        None => text.byte_len(),
    }
}

fn converted(text: &Rope, from: Measure, to: Measure, at: u64) -> Option<u64>
    ensures some { IfSome result (λ offset. IsConverted from to text.now at offset) }
    ensures none { IfNone result (HasNone from text.now at) }
{
    converted_by::<Brand>(text, from, to, at, Blank::new(1))
}

fn converted_by<L: Ledger>(
    text: &Rope,
    from: Measure,
    to: Measure,
    at: u64,
    blank: Blank,
) -> Option<u64>
    requires blank { (blank.name ≡ L.name) × ((blank.parts ≡ L.parts) × (0 < blank.parts)) }
    ensures some { IfSome result (λ offset. IsConverted from to text.now at offset) }
    ensures none { IfNone result (HasNone from text.now at) }
{
    let mut steps = Steps::<L>::new(blank);
    convert(text.node(), from, to, at, &mut steps)
}
