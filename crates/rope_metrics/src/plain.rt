// Offsets in a text in which each character takes one byte, so that its bytes are its characters.
ghost use Rattle.std.specs.Prelude.{◌≡◌, ◌<◌, ◌≤◌, length};
ghost use Rattle.plain_text.specs.Text.{byte_len};
ghost use Rattle.rope_node.specs.Lengths.{lf_count};
ghost use Rattle.rope_metrics.specs.declared.measure.Measure.TheVariants.{Lines};
ghost use Rattle.rope_metrics.specs.Measure.{long, IsCut};
ghost use Rattle.rope_metrics.specs.Inner.{IsPastLf};

use crate::Measure;
use memchr::{memchr, memchr_iter};

/// How long the text is.
pub(crate) fn long(text: &[u8], m: Measure) -> u64
    requires { byte_len text.now ≡ length text.now }
    ensures { result ≡ long m text.now }
{
    if m.is_plain() {
        return text.len() as u64;
    }
    let mut count: u64 = 0;
    for _ in memchr_iter(b'\n', text) {
        count += 1;
    }
    count
}

/// The text, cut at the first gap with this offset. No byte is read but where LFs are counted.
pub(crate) fn split_at_offset(text: &[u8], m: Measure, at: u64) -> (&[u8], &[u8])
    requires plain { byte_len text.now ≡ length text.now }
    requires some { 0 < at }
    requires inside { at ≤ long m text.now }
    ensures { IsCut m text.now at result.0.now result.1.now }
{
    if m.is_plain() {
        return text.split_at(at as usize);
    }
    split_past_lf(text, at)
}

/// The text, cut behind the LF with this number.
fn split_past_lf(text: &[u8], number: u64) -> (&[u8], &[u8])
    requires some { 0 < number }
    requires inside { number ≤ lf_count text.now }
    ensures { IsCut Lines text.now number result.0.now result.1.now }
{
    let mut rest = text;
    let mut left = number;
    while left > 0 {
        rest = past_lf(rest);
        left -= 1;
    }
    text.split_at(text.len() - rest.len())
}

/// What stands behind the first LF.
fn past_lf(text: &[u8]) -> &[u8]
    requires { 0 < lf_count text.now }
    ensures { IsPastLf text.now result.now }
{
    match memchr(b'\n', text) {
        Some(at) => text.split_at(at + 1).1,
        None => text,
    }
}
