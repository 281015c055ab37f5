// The way down to where a measure passes a number.
ghost use Rattle.std.specs.Prelude.{◌≡◌, ◌+◌, ◌<◌, ◌≤◌, [], ◌∷◌, length, take, IsTrue};
ghost use Rattle.shared_tree.specs.Row.{items_in, items_of, shapes, IsFit};
ghost use Rattle.shared_tree.specs.Places.{sum_over, IsFound};

use crate::node::Node;
use crate::row::Link;
use crate::{Count, Leaf, Measure, Summary};
use std::alloc::Global;
use std::sync::Arc;

/// The index of the first node at whose end the measure has reached `at`, and the sum of all before it.
pub(crate) fn seek<L: Leaf, M: Measure<L::Sum>>(
    row: &[Link<L>],
    measure: &M,
    at: u64,
    before: L::Sum,
) -> (usize, L::Sum)
    requires some { 1 ≤ length row.now }
    requires fits { IsTrue (L.Sum.fits (L.Sum.plus before (L.summed (items_in L.Leaf (shapes row.now))))) }
    requires passed { M.width measure.now before < at }
    requires reached { at ≤ M.width measure.now (L.Sum.plus before (L.summed (items_in L.Leaf (shapes row.now)))) }
    ensures inside { result.0 < length row.now }
    ensures sum { result.1 ≡ L.Sum.plus before
        (L.summed (items_in L.Leaf (shapes (take result.0 row.now)))) }
    ensures passed { M.width measure.now result.1 < at }
    ensures reached { at ≤ M.width measure.now (L.Sum.plus before
        (L.summed (items_in L.Leaf (shapes (take (result.0 + 1) row.now))))) }
{
    let last = row.len() - 1;
    let mut sum = before;
    for i in 0..last {
        let end = sum.plus(row[i].summary());
        if at <= measure.width(&end) {
            return (i, sum);
        }
        sum = end;
    }
    (last, sum)
}

/// The index of the node that has item `at` - 1, and how many items stand before that node.
pub(crate) fn child_at<L: Leaf>(row: &[Link<L>], at: u64) -> (usize, u64)
    requires fits { IsFit L.Leaf L.Sum.Summary (items_in L.Leaf (shapes row.now)) }
    requires some { 0 < at }
    requires reached { at ≤ length (items_in L.Leaf (shapes row.now)) }
    ensures inside { result.0 < length row.now }
    ensures start { result.1 ≡ length (items_in L.Leaf (shapes (take result.0 row.now))) }
    ensures passed { result.1 < at }
    ensures reached { at ≤ length (items_in L.Leaf (shapes (take (result.0 + 1) row.now))) }
{
    let (i, sum) = seek(row, &Count, at, L::Sum::zero());
    (i, sum.count())
}

impl<L: Leaf> Node<L> {
    /// The child in which the measure passes `at`, and the sum of all before it; `before` is the sum of all before this node.
    pub fn child<M: Measure<L::Sum>>(
        &self,
        measure: &M,
        at: u64,
        before: L::Sum,
    ) -> (&Node<L>, L::Sum)
        requires above { 1 ≤ self.now.height }
        requires fits { IsTrue (L.Sum.fits (L.Sum.plus before (sum_over L.Leaf self.now.leaves))) }
        requires passed { M.width measure.now before < at }
        requires reached { at ≤ M.width measure.now (L.Sum.plus before (sum_over L.Leaf self.now.leaves)) }
        ensures below { result.0.now.height + 1 ≡ self.now.height }
        ensures found { IsFound L.Leaf L.Sum.Summary (M.width measure.now) before self.now.leaves
            at result.0.now.leaves result.1 }
        ensures fits { IsTrue (L.Sum.fits (L.Sum.plus result.1 (sum_over L.Leaf result.0.now.leaves))) }
    {
        let kids = self.kids();
        let (i, sum) = seek(kids, measure, at, before);
        (&kids[i], sum)
    }
}

/// The leaf below a node in which the measure passes `at`, and the sum of all before it.
pub(crate) fn leaf_at<'a, L: Leaf, M: Measure<L::Sum>>(
    node: &'a Node<L>,
    measure: &M,
    at: u64,
    before: L::Sum,
) -> (&'a L, L::Sum)
    requires fits { IsTrue (L.Sum.fits (L.Sum.plus before (sum_over L.Leaf node.now.leaves))) }
    requires passed { M.width measure.now before < at }
    requires reached { at ≤ M.width measure.now (L.Sum.plus before (sum_over L.Leaf node.now.leaves)) }
    ensures { IsFound L.Leaf L.Sum.Summary (M.width measure.now) before node.now.leaves
        at (result.0.now ∷ []) result.1 }
{
    let mut here = node;
    let mut sum = before;
    loop {
        match here.leaf() {
            Some(leaf) => return (leaf, sum),
            None => {
                let (next, all) = here.child(measure, at, sum);
                here = next;
                sum = all;
            }
        }
    }
}
