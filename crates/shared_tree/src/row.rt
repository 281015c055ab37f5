// Rows of nodes side by side: their sum, two rows with the seam glued, and a row put under one node or two.
ghost use Rattle.std.specs.Prelude.{◌≡◌, ℕ, ◌+◌, ◌-◌, ◌^◌, ◌<◌, ◌≤◌, [], ◌∷◌, ◌++◌, length, max, IfOk, IfSome, OnOk};
ghost use Rattle.std.specs.Arc.{arc_value};
ghost use Rattle.shared_tree.specs.Row.{items_in, items_of, leaves_of, shapes, IsFit, IsLevel, IsRow, IsRowOf};

use crate::node::{Body, Node};
use crate::shared::{copied, joined, pair, single, with_between};
use crate::{Leaf, Summary};
use std::alloc::{AllocError, Global};
use std::sync::Arc;

pub(crate) type Link<L> = Arc<Node<L>, Global>;

pub(crate) fn sum_of<L: Leaf>(row: &[Link<L>]) -> L::Sum
    requires { IsFit L.Leaf L.Sum.Summary (items_in L.Leaf (shapes row.now)) }
    ensures { result ≡ L.summed (items_in L.Leaf (shapes row.now)) }
{
    let mut sum = L::Sum::zero();
    for node in row {
        sum = sum.plus(node.summary());
    }
    sum
}

/// Two leaves as one, where they fit.
pub(crate) fn glued<L: Leaf>(
    alloc: Global,
    left: &Node<L>,
    right: &Node<L>,
) -> Result<Option<Link<L>>, AllocError>
    requires left { IsLevel L.Leaf 0 left.now }
    requires right { IsLevel L.Leaf 0 right.now }
    requires fits { IsFit L.Leaf L.Sum.Summary (items_of L.Leaf left.now ++ items_of L.Leaf right.now) }
    ensures level { IfOk result (λ both. IfSome both (λ node. IsLevel L.Leaf 0 (arc_value node))) }
    ensures items { IfOk result (λ both. IfSome both (λ node. items_of L.Leaf (arc_value node)
        ≡ items_of L.Leaf left.now ++ items_of L.Leaf right.now)) }
{
    match (&left.body, &right.body) {
        (Body::Tip(first), Body::Tip(second)) => match first.glued(alloc, second)? {
            Some(both) => Ok(Some(Arc::new(alloc, Node::tip(both))?)),
            None => Ok(None),
        },
        _ => Ok(None),
    }
}

/// Two rows of one height, one after the other; leaves that meet and fit into one become one.
pub(crate) fn seamed<L: Leaf>(
    alloc: Global,
    height: u64,
    left: &[Link<L>],
    right: &[Link<L>],
) -> Result<Vec<Link<L>>, AllocError>
    requires left { IsRow L.Leaf height (shapes left.now) }
    requires right { IsRow L.Leaf height (shapes right.now) }
    requires few { length left.now + length right.now ≤ 32 }
    requires fits { IsFit L.Leaf L.Sum.Summary
        (items_in L.Leaf (shapes left.now) ++ items_in L.Leaf (shapes right.now)) }
    ensures { IfOk result (λ made. IsRowOf L.Leaf height
        (items_in L.Leaf (shapes left.now) ++ items_in L.Leaf (shapes right.now))
        (max (length left.now) (length right.now)) (length left.now + length right.now)
        (shapes made.items)) }
{
    if height > 0 || left.is_empty() || right.is_empty() {
        return joined(alloc, left, right);
    }
    let last = left.len() - 1;
    let (front, _) = left.split_at(last);
    let (_, back) = right.split_at(1);
    match glued(alloc, &left[last], &right[0])? {
        Some(both) => with_between(alloc, front, both, back),
        None => joined(alloc, left, right),
    }
}

/// The row under one node, or under two where it is too long for one. The left one is filled first.
pub(crate) fn grouped<L: Leaf>(
    alloc: Global,
    height: u64,
    row: Vec<Link<L>>,
) -> Result<Vec<Link<L>>, AllocError>
    requires above { 1 ≤ height }
    requires levels { IsRow L.Leaf (height - 1) (shapes row.items) }
    requires low { 4 ≤ length row.items }
    requires high { length row.items ≤ 16 }
    requires fits { IsFit L.Leaf L.Sum.Summary (items_in L.Leaf (shapes row.items)) }
    ensures row { IfOk result (λ made. IsRowOf L.Leaf height (items_in L.Leaf (shapes row.items)) 1 2
        (shapes made.items)) }
    ensures two { 8 < length row.items → IfOk result (λ made. length made.items ≡ 2) }
{
    if row.len() <= 8 {
        return single(alloc, Node::inner(height, row));
    }
    let (left, right) = row.split_at((row.len() - 4).min(8));
    let left = copied(alloc, left)?;
    let right = copied(alloc, right)?;
    pair(alloc, Node::inner(height, left), Node::inner(height, right))
}
