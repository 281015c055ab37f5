// Whether two lists are the same, of elements of deltas or of spans, and two deltas.
ghost use Rattle.std.specs.Prelude.{◌≡◌, ◌↔◌, IsTrue};

use crate::part::{is_same_span, is_same_text};
use plain_edits::{Delta, El};
use xi_plain::WireSpan;

/// What can be compared.
pub(crate) trait Same {
    /// Whether it is the same as another one.
    fn is_same(&self, other: &Self) -> bool
        ensures { IsTrue result ↔ (self.now ≡ other.now) };
}

impl Same for El {
    fn is_same(&self, other: &El) -> bool {
        is_same_el(self, other)
    }
}

impl Same for WireSpan {
    fn is_same(&self, other: &WireSpan) -> bool {
        is_same_span(self, other)
    }
}

pub(crate) fn are_same<T: Same>(items: &[T], others: &[T]) -> bool
    ensures { IsTrue result ↔ (items.now ≡ others.now) }
{
    if items.len() != others.len() {
        return false;
    }
    for at in 0..items.len() {
        if !items[at].is_same(&others[at]) {
            return false;
        }
    }
    true
}

pub(crate) fn is_same_delta(one: &Delta, other: &Delta) -> bool
    ensures { IsTrue result ↔ (one.now ≡ other.now) }
{
    one.base_len == other.base_len && are_same(one.els.as_slice(), other.els.as_slice())
}

fn is_same_el(one: &El, other: &El) -> bool
    ensures { IsTrue result ↔ (one.now ≡ other.now) }
{
    match one {
        El::Copy { a, b } => match other {
            El::Copy { a: from, b: to } => a == from && b == to,
            El::Insert { .. } => false,
        },
        El::Insert { text } => match other {
            El::Insert { text: next } => is_same_text(text, next),
            El::Copy { .. } => false,
        },
    }
}
