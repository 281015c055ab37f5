// Reads of a tree of strides: each costs the height of the tree, and a walk in one leaf.
ghost use Rattle.std.specs.Prelude.{◌≡◌, ◌<◌, ◌≤◌, ◌++◌, length, take, slice_get, IsTrue, OnOk, Some};
ghost use Rattle.std.specs.List.{AllByRecursion};
ghost use Rattle.match_index.specs.Inner.{strides_under, IsLastBy};
ghost use Rattle.match_index.specs.Strides.{reach_of, is_countable, runs_behind, span};

use crate::stride::{Chars, Strides};
use plain_text::{NoMemory, Run};
use shared_tree::Tree;
use std::alloc::Global;

/// How many of the strides end by a gap, and how many characters these have.
pub(crate) fn ending_by(strides: &Tree<Strides>, gap: u64) -> (u64, u64)
    ensures { IsLastBy (strides_under strides.now) gap result.0 result.1 }
{
    let all = strides.summary();
    if gap >= all.chars {
        return (all.matches, all.chars);
    }
    let (leaf, before) = strides.find(&Chars, gap + 1);
    let (count, end) = leaf.ending_by(gap - before.chars);
    (before.matches + count, before.chars + end)
}

/// The stride with this index.
pub(crate) fn stride_at(strides: &Tree<Strides>, index: u64) -> u64
    requires { index < length (strides_under strides.now) }
    ensures { slice_get (strides_under strides.now) index ≡ Some result }
{
    let (leaf, place) = strides.get(index);
    leaf.get(place)
}

/// The match with this index, where the one before it ends at this gap, and each has so many characters; `None` where there are not so
/// many.
pub(crate) fn run_behind(strides: &Tree<Strides>, len: u64, index: u64, end: u64) -> Option<Run>
    requires long { AllByRecursion (λ stride. len ≤ stride) (strides_under strides.now) }
    requires behind { end ≡ span (take index (strides_under strides.now)) }
    ensures { result ≡ slice_get (runs_behind len 0 (strides_under strides.now)) index }
{
    let all = strides.summary();
    if index >= all.matches {
        return None;
    }
    let end = end + stride_at(strides, index);
    Some(Run {
        start: end - len,
        end,
    })
}

/// Puts strides behind those of the tree, 128 in a leaf.
pub(crate) fn put(tree: &mut Tree<Strides>, alloc: Global, numbers: &[u64]) -> Result<(), NoMemory>
    requires { IsTrue (is_countable (reach_of (strides_under tree.old ++ numbers.now))) }
    ensures { OnOk result (strides_under tree.new ≡ strides_under tree.old ++ numbers.now) }
{
    let mut rest = numbers;
    while !rest.is_empty() {
        let (leaf, later) = rest.split_at(rest.len().min(128));
        tree.push_leaf(alloc, Strides::of_numbers(alloc, leaf)?)?;
        rest = later;
    }
    Ok(())
}
