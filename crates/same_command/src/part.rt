// Whether two parts of commands are the same: texts, and values that may be left out.
ghost use Rattle.std.specs.Prelude.{◌≡◌, ◌↔◌, IsTrue};

use plain_edits::Style;
use plain_text::{Bytes, Text};
use xi_plain::{Changes, Motion, Touch, WireSpan};

pub(crate) fn is_same_text(one: &Text, other: &Text) -> bool
    ensures { IsTrue result ↔ (one.now ≡ other.now) }
{
    one.as_str() == other.as_str()
}

pub(crate) fn is_same_path(one: &Option<Text>, other: &Option<Text>) -> bool
    ensures { IsTrue result ↔ (one.now ≡ other.now) }
{
    match one {
        None => other.is_none(),
        Some(path) => match other {
            None => false,
            Some(next) => is_same_text(path, next),
        },
    }
}

pub(crate) fn are_same_bytes(one: &Bytes, other: &Bytes) -> bool
    ensures { IsTrue result ↔ (one.now ≡ other.now) }
{
    one.as_slice() == other.as_slice()
}

pub(crate) fn is_same_number(one: Option<u64>, other: Option<u64>) -> bool
    ensures { IsTrue result ↔ (one ≡ other) }
{
    match one {
        None => other.is_none(),
        Some(number) => match other {
            None => false,
            Some(next) => number == next,
        },
    }
}

fn is_same_short(one: Option<u32>, other: Option<u32>) -> bool
    ensures { IsTrue result ↔ (one ≡ other) }
{
    match one {
        None => other.is_none(),
        Some(number) => match other {
            None => false,
            Some(next) => number == next,
        },
    }
}

pub(crate) fn is_same_truth(one: Option<bool>, other: Option<bool>) -> bool
    ensures { IsTrue result ↔ (one ≡ other) }
{
    match one {
        None => other.is_none(),
        Some(truth) => match other {
            None => false,
            Some(next) => truth == next,
        },
    }
}

pub(crate) fn are_same_changes(one: Changes, other: Changes) -> bool
    ensures { IsTrue result ↔ (one ≡ other) }
{
    is_same_short(one.tab, other.tab)
        && is_same_short(one.width, other.width)
        && is_same_truth(one.spaces, other.spaces)
}

fn is_same_style(one: Style, other: Style) -> bool
    ensures { IsTrue result ↔ (one ≡ other) }
{
    is_same_short(one.fg_color, other.fg_color)
        && is_same_short(one.bg_color, other.bg_color)
        && is_same_short(one.weight, other.weight)
        && is_same_truth(one.italic, other.italic)
        && is_same_truth(one.underline, other.underline)
}

pub(crate) fn is_same_span(one: &WireSpan, other: &WireSpan) -> bool
    ensures { IsTrue result ↔ (one.now ≡ other.now) }
{
    one.start == other.start && one.end == other.end && is_same_style(one.style, other.style)
}

pub(crate) fn is_same_motion(one: Motion, other: Motion) -> bool
    ensures { IsTrue result ↔ (one ≡ other) }
{
    one == other
}

pub(crate) fn is_same_touch(one: Touch, other: Touch) -> bool
    ensures { IsTrue result ↔ (one ≡ other) }
{
    one == other
}
