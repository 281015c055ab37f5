// Where layers begin to style characters in another way than others.
ghost use Rattle.std.specs.Prelude.{◌≡◌, take};
ghost use Rattle.span_styles.specs.Layers.{AreApartFrom, unstyled};
ghost use Rattle.span_styles.specs.Inner.{IsApartFrom, least_of};

use crate::layer::StyleLayer;
use crate::run::StyleRuns;

/// A gap left of which the layers style no character in another way than others, where they are not the same.
pub(crate) fn layers_apart(layers: &[StyleLayer], others: &[StyleLayer]) -> Option<u64>
    ensures { AreApartFrom result layers.now others.now }
{
    match layers {
        [] => match others {
            [] => None,
            _ => Some(0),
        },
        [layer, rest @ ..] => match others {
            [] => Some(0),
            [other, more @ ..] => least(layer.apart_from(other), layers_apart(rest, more)),
        },
    }
}

// The lesser of two gaps, of which there may be one, or none.
fn least(one: Option<u64>, other: Option<u64>) -> Option<u64>
    ensures { result ≡ least_of one other }
{
    match (one, other) {
        (None, None) => None,
        (Some(at), None) => Some(at),
        (None, Some(at)) => Some(at),
        (Some(at), Some(gap)) => Some(at.min(gap)),
    }
}

/// Where the one layer first styles a character in another way than the other, in the time of the runs up to there.
pub(crate) fn runs_apart(layer: &StyleRuns, other: &StyleRuns) -> Option<u64>
    ensures { IsApartFrom result layer.now other.now }
{
    let _characters = layer.len();
    let mut walk = layer.walk_from(0);
    let mut counterpart = other.walk_from(0);
    let mut at = 0;
    while !walk.is_empty() && !counterpart.is_empty() {
        let front = walk.front();
        let next = counterpart.front();
        if front.style != next.style {
            return Some(at);
        }
        let len = front.len.min(next.len);
        if front.len != next.len {
            return Some(at + len);
        }
        walk.skip(len);
        counterpart.skip(len);
        at += len;
    }
    if walk.is_empty() && counterpart.is_empty() {
        None
    } else {
        Some(at)
    }
}

/// A gap left of which no character of a layer has a style, where so many characters without one are compared with it.
pub(crate) fn bare_front(layer: &StyleRuns, len: u64) -> u64
    ensures { take result (unstyled len) ≡ take result layer.now }
{
    let walk = layer.walk_from(0);
    if walk.is_empty() {
        return 0;
    }
    let front = walk.front();
    if front.style.is_some() {
        return 0;
    }
    front.len.min(len)
}
