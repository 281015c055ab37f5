// The front and the back of a row, cut at an item: whole nodes are shared, and one leaf is cut.
ghost use Rattle.std.specs.Prelude.{◌≡◌, ◌+◌, ◌-◌, ◌<◌, ◌≤◌, length, take, drop, IfOk};
ghost use Rattle.shared_tree.specs.Row.{items_in, items_of, shapes, IsBunch, IsFit};

use crate::node::{Body, Node};
use crate::row::Link;
use crate::seek::child_at;
use crate::{Leaf, Summary, Tree};
use std::alloc::{AllocError, Global};

/// The items of a leaf from one index up to another.
fn leaf_part<L: Leaf>(alloc: Global, leaf: &L, from: u64, to: u64) -> Result<Tree<L>, AllocError>
    requires some { from < to }
    requires inside { to ≤ length (L.items leaf.now) }
    requires fits { IsFit L.Leaf L.Sum.Summary (L.items leaf.now) }
    ensures { IfOk result (λ made. items_of L.Leaf made
        ≡ take (to - from) (drop from (L.items leaf.now))) }
{
    Tree::of_leaf(alloc, leaf.part(alloc, from, to)?)
}

#[cycle(front)]
fn front_in<L: Leaf>(alloc: Global, node: &Node<L>, to: u64) -> Result<Tree<L>, AllocError>
    requires some { 0 < to }
    requires inside { to ≤ length (items_of L.Leaf node.now) }
    requires fits { IsFit L.Leaf L.Sum.Summary (items_of L.Leaf node.now) }
    ensures { IfOk result (λ made. items_of L.Leaf made ≡ take to (items_of L.Leaf node.now)) }
{
    match &node.body {
        Body::Tip(leaf) => leaf_part(alloc, leaf, 0, to),
        Body::Inner(kids) => front_of(alloc, kids, node.height - 1, to),
    }
}

#[cycle(back)]
fn back_in<L: Leaf>(alloc: Global, node: &Node<L>, from: u64) -> Result<Tree<L>, AllocError>
    requires inside { from < length (items_of L.Leaf node.now) }
    requires fits { IsFit L.Leaf L.Sum.Summary (items_of L.Leaf node.now) }
    ensures { IfOk result (λ made. items_of L.Leaf made ≡ drop from (items_of L.Leaf node.now)) }
{
    match &node.body {
        Body::Tip(leaf) => leaf_part(alloc, leaf, from, node.len()),
        Body::Inner(kids) => back_of(alloc, kids, node.height - 1, from),
    }
}

/// The first `to` items.
#[cycle(front)]
pub(crate) fn front_of<L: Leaf>(
    alloc: Global,
    nodes: &[Link<L>],
    height: u64,
    to: u64,
) -> Result<Tree<L>, AllocError>
    requires nodes { IsBunch L.Leaf height (shapes nodes.now) }
    requires fits { IsFit L.Leaf L.Sum.Summary (items_in L.Leaf (shapes nodes.now)) }
    requires some { 0 < to }
    requires inside { to ≤ length (items_in L.Leaf (shapes nodes.now)) }
    ensures { IfOk result (λ made. items_of L.Leaf made ≡ take to (items_in L.Leaf (shapes nodes.now))) }
{
    let (i, start) = child_at(nodes, to);
    let part = front_in(alloc, &nodes[i], to - start)?;
    let (front, _) = nodes.split_at(i);
    part.after_row(alloc, front, height)
}

/// The items from index `from` on.
#[cycle(back)]
pub(crate) fn back_of<L: Leaf>(
    alloc: Global,
    nodes: &[Link<L>],
    height: u64,
    from: u64,
) -> Result<Tree<L>, AllocError>
    requires nodes { IsBunch L.Leaf height (shapes nodes.now) }
    requires fits { IsFit L.Leaf L.Sum.Summary (items_in L.Leaf (shapes nodes.now)) }
    requires inside { from < length (items_in L.Leaf (shapes nodes.now)) }
    ensures { IfOk result (λ made. items_of L.Leaf made ≡ drop from (items_in L.Leaf (shapes nodes.now))) }
{
    let (i, start) = child_at(nodes, from + 1);
    let part = back_in(alloc, &nodes[i], from - start)?;
    let (_, back) = nodes.split_at(i + 1);
    part.before_row(alloc, back, height)
}
