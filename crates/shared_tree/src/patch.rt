// An edit that falls into one leaf: one path is copied, and all beside it is shared.
ghost use Rattle.std.specs.Prelude.{◌≡◌, ◌+◌, ◌-◌, ◌<◌, ◌≤◌, [], ◌∷◌, ◌++◌, length, max, take, drop, IfOk, IfSome};
ghost use Rattle.std.specs.Arc.{arc_value};
ghost use Rattle.shared_tree.specs.Row.{items_in, items_of, shapes, IsBunch, IsFit, IsLevel, IsRow, IsRowOf};
ghost use Rattle.shared_tree.specs.Replaced.{replaced};

use crate::Leaf;
use crate::node::{Body, Node};
use crate::row::{Link, glued, grouped, seamed};
use crate::seek::child_at;
use crate::shared::{copied, joined_three, single, with_between};
use std::alloc::{AllocError, Global};
use std::sync::Arc;

/// One node or more: the first, and the others.
type Few<L> = (Link<L>, Vec<Link<L>>);

/// One to three leaves: the items of a leaf before `from`, those of `others`, and those from `to` on. `None` where there are none.
fn pieces<L: Leaf>(
    alloc: Global,
    leaf: &L,
    from: u64,
    to: u64,
    others: &[Link<L>],
) -> Result<Option<Vec<Link<L>>>, AllocError>
    requires ordered { from ≤ to }
    requires inside { to ≤ length (L.items leaf.now) }
    requires others { IsRow L.Leaf 0 (shapes others.now) }
    requires few { length others.now ≤ 1 }
    requires whole { IsFit L.Leaf L.Sum.Summary (L.items leaf.now) }
    requires fits { IsFit L.Leaf L.Sum.Summary
        (replaced (L.items leaf.now) from to (items_in L.Leaf (shapes others.now))) }
    ensures { IfOk result (λ made. IfSome made (λ row. IsRowOf L.Leaf 0
        (replaced (L.items leaf.now) from to (items_in L.Leaf (shapes others.now))) 1 3
        (shapes row.items))) }
{
    let front = cut(alloc, leaf, 0, from)?;
    let back = cut(alloc, leaf, to, leaf.len())?;
    let rest = seamed(alloc, 0, others, &back)?;
    let row = seamed(alloc, 0, &front, &rest)?;
    if row.is_empty() {
        return Ok(None);
    }
    Ok(Some(row))
}

/// The leaf with its items from `from` up to `to` replaced by those of `others`, where all fit into one.
fn in_one<L: Leaf>(
    alloc: Global,
    leaf: &L,
    from: u64,
    to: u64,
    others: &[Link<L>],
) -> Result<Option<L>, AllocError>
    requires ordered { from ≤ to }
    requires inside { to ≤ length (L.items leaf.now) }
    requires few { length others.now ≤ 1 }
    ensures { IfOk result (λ made. IfSome made (λ own. L.items own
        ≡ replaced (L.items leaf.now) from to (items_in L.Leaf (shapes others.now)))) }
{
    if others.len() == 0 {
        return Ok(Some(leaf.without(alloc, from, to)?));
    }
    let node: &Node<L> = &others[0];
    match &node.body {
        Body::Tip(other) => leaf.spliced(alloc, from, to, other),
        Body::Inner(_) => Ok(None),
    }
}

/// The first node and the others; `None` where there is none.
fn parted<L: Leaf>(alloc: Global, row: &[Link<L>]) -> Result<Option<Few<L>>, AllocError>
    ensures { IfOk result (λ made. IfSome made (λ few.
        arc_value few.0 ∷ shapes few.1.items ≡ shapes row.now)) }
{
    if row.len() == 0 {
        return Ok(None);
    }
    let first = Arc::try_clone(&row[0])?;
    let (_, others) = row.split_at(1);
    Ok(Some((first, copied(alloc, others)?)))
}

/// One leaf where all fits into one, else as `pieces`.
fn patched_leaf<L: Leaf>(
    alloc: Global,
    leaf: &L,
    from: u64,
    to: u64,
    others: &[Link<L>],
) -> Result<Option<Few<L>>, AllocError>
    requires ordered { from ≤ to }
    requires inside { to ≤ length (L.items leaf.now) }
    requires others { IsRow L.Leaf 0 (shapes others.now) }
    requires few { length others.now ≤ 1 }
    requires whole { IsFit L.Leaf L.Sum.Summary (L.items leaf.now) }
    requires fits { IsFit L.Leaf L.Sum.Summary
        (replaced (L.items leaf.now) from to (items_in L.Leaf (shapes others.now))) }
    ensures { IfOk result (λ made. IfSome made (λ few. IsRowOf L.Leaf 0
        (replaced (L.items leaf.now) from to (items_in L.Leaf (shapes others.now))) 1 3
        (arc_value few.0 ∷ shapes few.1.items))) }
{
    match in_one(alloc, leaf, from, to, others)? {
        Some(own) if own.len() > 0 => alone(alloc, Node::tip(own)),
        Some(_) => Ok(None),
        None => match pieces(alloc, leaf, from, to, others)? {
            Some(row) => parted(alloc, &row),
            None => Ok(None),
        },
    }
}

/// The node alone.
fn alone<L: Leaf>(alloc: Global, node: Node<L>) -> Result<Option<Few<L>>, AllocError>
    ensures { IfOk result (λ made. IfSome made (λ few.
        arc_value few.0 ∷ shapes few.1.items ≡ node ∷ [])) }
{
    Ok(Some((Arc::new(alloc, node)?, Vec::new(alloc))))
}

/// The items of a leaf from one index up to another as a row: no node where there are none.
fn cut<L: Leaf>(alloc: Global, leaf: &L, from: u64, to: u64) -> Result<Vec<Link<L>>, AllocError>
    requires ordered { from ≤ to }
    requires inside { to ≤ length (L.items leaf.now) }
    requires fits { IsFit L.Leaf L.Sum.Summary (L.items leaf.now) }
    ensures { IfOk result (λ made. IsRowOf L.Leaf 0 (take (to - from) (drop from (L.items leaf.now)))
        0 1 (shapes made.items)) }
{
    if from == to {
        return Ok(Vec::new(alloc));
    }
    single(alloc, Node::tip(leaf.part(alloc, from, to)?))
}

/// The nodes with a row in place of node i, if any is left of it.
fn within<L: Leaf>(
    alloc: Global,
    nodes: &[Link<L>],
    height: u64,
    i: usize,
    row: &[Link<L>],
) -> Result<Vec<Link<L>>, AllocError>
    requires nodes { IsBunch L.Leaf height (shapes nodes.now) }
    requires row { IsRow L.Leaf height (shapes row.now) }
    requires few { length row.now ≤ 3 }
    requires inside { i < length nodes.now }
    requires fits { IsFit L.Leaf L.Sum.Summary (items_in L.Leaf (shapes (take i nodes.now))
        ++ (items_in L.Leaf (shapes row.now) ++ items_in L.Leaf (shapes (drop (i + 1) nodes.now)))) }
    ensures { IfOk result (λ made. IsRowOf L.Leaf height (items_in L.Leaf (shapes (take i nodes.now))
        ++ (items_in L.Leaf (shapes row.now) ++ items_in L.Leaf (shapes (drop (i + 1) nodes.now))))
        (length row.now) 16 (shapes made.items)) }
{
    let (front, _) = nodes.split_at(i);
    let (_, back) = nodes.split_at(i + 1);
    if height > 0 {
        return joined_three(alloc, front, row, back);
    }
    let rest = seamed(alloc, height, row, back)?;
    seamed(alloc, height, front, &rest)
}

/// A leaf after a row, glued to its last one where the two fit into one: how many of the row stay, and the leaf.
fn glued_after<L: Leaf>(
    alloc: Global,
    row: &[Link<L>],
    leaf: Link<L>,
) -> Result<(usize, Link<L>), AllocError>
    requires row { IsRow L.Leaf 0 (shapes row.now) }
    requires leaf { IsLevel L.Leaf 0 (arc_value leaf) }
    requires fits { IsFit L.Leaf L.Sum.Summary
        (items_in L.Leaf (shapes row.now) ++ items_of L.Leaf (arc_value leaf)) }
    ensures inside { IfOk result (λ made. made.0 ≤ length row.now) }
    ensures level { IfOk result (λ made. IsLevel L.Leaf 0 (arc_value made.1)) }
    ensures same { IfOk result (λ made.
        items_in L.Leaf (shapes (take made.0 row.now)) ++ items_of L.Leaf (arc_value made.1)
        ≡ items_in L.Leaf (shapes row.now) ++ items_of L.Leaf (arc_value leaf)) }
{
    if row.len() == 0 {
        return Ok((0, leaf));
    }
    let last = row.len() - 1;
    match glued(alloc, &row[last], &leaf)? {
        Some(both) => Ok((last, both)),
        None => Ok((row.len(), leaf)),
    }
}

/// A leaf before a row, glued to its first one where the two fit into one: the leaf, and how many of the row it took.
fn glued_before<L: Leaf>(
    alloc: Global,
    leaf: Link<L>,
    row: &[Link<L>],
) -> Result<(Link<L>, usize), AllocError>
    requires leaf { IsLevel L.Leaf 0 (arc_value leaf) }
    requires row { IsRow L.Leaf 0 (shapes row.now) }
    requires fits { IsFit L.Leaf L.Sum.Summary
        (items_of L.Leaf (arc_value leaf) ++ items_in L.Leaf (shapes row.now)) }
    ensures inside { IfOk result (λ made. made.1 ≤ length row.now) }
    ensures level { IfOk result (λ made. IsLevel L.Leaf 0 (arc_value made.0)) }
    ensures same { IfOk result (λ made.
        items_of L.Leaf (arc_value made.0) ++ items_in L.Leaf (shapes (drop made.1 row.now))
        ≡ items_of L.Leaf (arc_value leaf) ++ items_in L.Leaf (shapes row.now)) }
{
    if row.len() == 0 {
        return Ok((leaf, 0));
    }
    match glued(alloc, &leaf, &row[0])? {
        Some(both) => Ok((both, 1)),
        None => Ok((leaf, 0)),
    }
}

/// The nodes with another in place of node i. A leaf that fits with the one before or after it becomes one with it.
fn with_node<L: Leaf>(
    alloc: Global,
    nodes: &[Link<L>],
    height: u64,
    i: usize,
    node: Link<L>,
) -> Result<Vec<Link<L>>, AllocError>
    requires nodes { IsBunch L.Leaf height (shapes nodes.now) }
    requires node { IsLevel L.Leaf height (arc_value node) }
    requires inside { i < length nodes.now }
    requires fits { IsFit L.Leaf L.Sum.Summary (items_in L.Leaf (shapes (take i nodes.now))
        ++ (items_of L.Leaf (arc_value node) ++ items_in L.Leaf (shapes (drop (i + 1) nodes.now)))) }
    ensures { IfOk result (λ made. IsRowOf L.Leaf height (items_in L.Leaf (shapes (take i nodes.now))
        ++ (items_of L.Leaf (arc_value node) ++ items_in L.Leaf (shapes (drop (i + 1) nodes.now))))
        1 16 (shapes made.items)) }
{
    let (front, _) = nodes.split_at(i);
    let (_, back) = nodes.split_at(i + 1);
    if height > 0 {
        return with_between(alloc, front, node, back);
    }
    let (stay, node) = glued_after(alloc, front, node)?;
    let (node, gone) = glued_before(alloc, node, back)?;
    let (front, _) = front.split_at(stay);
    let (_, back) = back.split_at(gone);
    with_between(alloc, front, node, back)
}

/// The nodes with one to three others in place of node i.
fn placed<L: Leaf>(
    alloc: Global,
    nodes: &[Link<L>],
    height: u64,
    i: usize,
    few: Few<L>,
) -> Result<Vec<Link<L>>, AllocError>
    requires nodes { IsBunch L.Leaf height (shapes nodes.now) }
    requires row { IsRow L.Leaf height (arc_value few.0 ∷ shapes few.1.items) }
    requires few { length few.1.items ≤ 2 }
    requires inside { i < length nodes.now }
    requires fits { IsFit L.Leaf L.Sum.Summary (items_in L.Leaf (shapes (take i nodes.now))
        ++ (items_in L.Leaf (arc_value few.0 ∷ shapes few.1.items)
        ++ items_in L.Leaf (shapes (drop (i + 1) nodes.now)))) }
    ensures { IfOk result (λ made. IsRowOf L.Leaf height (items_in L.Leaf (shapes (take i nodes.now))
        ++ (items_in L.Leaf (arc_value few.0 ∷ shapes few.1.items)
        ++ items_in L.Leaf (shapes (drop (i + 1) nodes.now))))
        1 16 (shapes made.items)) }
{
    let (first, others) = few;
    if others.len() == 0 {
        return with_node(alloc, nodes, height, i, first);
    }
    let (none, _) = others.split_at(0);
    let row = with_between(alloc, none, first, &others)?;
    within(alloc, nodes, height, i, &row)
}

/// The row under one node or two, or `None` where it is too short for a node.
fn regrouped<L: Leaf>(
    alloc: Global,
    height: u64,
    row: Vec<Link<L>>,
) -> Result<Option<Few<L>>, AllocError>
    requires above { 1 ≤ height }
    requires levels { IsRow L.Leaf (height - 1) (shapes row.items) }
    requires high { length row.items ≤ 16 }
    requires fits { IsFit L.Leaf L.Sum.Summary (items_in L.Leaf (shapes row.items)) }
    ensures { IfOk result (λ made. IfSome made (λ few. IsRowOf L.Leaf height
        (items_in L.Leaf (shapes row.items)) 1 2 (arc_value few.0 ∷ shapes few.1.items))) }
{
    if row.len() < 4 {
        return Ok(None);
    }
    if row.len() <= 8 {
        return alone(alloc, Node::inner(height, row));
    }
    let two = grouped(alloc, height, row)?;
    parted(alloc, &two)
}

/// The node with the items from one index up to another replaced, where they fall into one leaf: one to three nodes. `None` where
/// they do not, or where too little is left for a node on the way.
#[cycle(patch)]
fn patched_in<L: Leaf>(
    alloc: Global,
    node: &Node<L>,
    from: u64,
    to: u64,
    others: &[Link<L>],
) -> Result<Option<Few<L>>, AllocError>
    requires whole { IsFit L.Leaf L.Sum.Summary (items_of L.Leaf node.now) }
    requires ordered { from ≤ to }
    requires inside { to ≤ length (items_of L.Leaf node.now) }
    requires others { IsRow L.Leaf 0 (shapes others.now) }
    requires few { length others.now ≤ 1 }
    requires fits { IsFit L.Leaf L.Sum.Summary
        (replaced (items_of L.Leaf node.now) from to (items_in L.Leaf (shapes others.now))) }
    ensures { IfOk result (λ made. IfSome made (λ few. IsRowOf L.Leaf node.now.height
        (replaced (items_of L.Leaf node.now) from to (items_in L.Leaf (shapes others.now)))
        1 3 (arc_value few.0 ∷ shapes few.1.items))) }
{
    match &node.body {
        Body::Tip(leaf) => patched_leaf(alloc, leaf, from, to, others),
        Body::Inner(kids) => {
            match patched_row(alloc, kids, node.height - 1, from, to, others)? {
                Some(row) => regrouped(alloc, node.height, row),
                None => Ok(None),
            }
        }
    }
}

/// The same of a row of nodes.
#[cycle(patch)]
pub(crate) fn patched_row<L: Leaf>(
    alloc: Global,
    nodes: &[Link<L>],
    height: u64,
    from: u64,
    to: u64,
    others: &[Link<L>],
) -> Result<Option<Vec<Link<L>>>, AllocError>
    requires nodes { IsBunch L.Leaf height (shapes nodes.now) }
    requires whole { IsFit L.Leaf L.Sum.Summary (items_in L.Leaf (shapes nodes.now)) }
    requires ordered { from ≤ to }
    requires inside { to ≤ length (items_in L.Leaf (shapes nodes.now)) }
    requires others { IsRow L.Leaf 0 (shapes others.now) }
    requires few { length others.now ≤ 1 }
    requires fits { IsFit L.Leaf L.Sum.Summary
        (replaced (items_in L.Leaf (shapes nodes.now)) from to (items_in L.Leaf (shapes others.now))) }
    ensures { IfOk result (λ made. IfSome made (λ row. IsRowOf L.Leaf height
        (replaced (items_in L.Leaf (shapes nodes.now)) from to (items_in L.Leaf (shapes others.now)))
        1 16 (shapes row.items))) }
{
    let (i, start) = child_at(nodes, passing(from, to));
    let node: &Node<L> = &nodes[i];
    if node.len() < to - start {
        return Ok(None);
    }
    match patched_in(alloc, node, from - start, to - start, others)? {
        Some(few) => Ok(Some(placed(alloc, nodes, height, i, few)?)),
        None => Ok(None),
    }
}

/// The number of items that a leaf has to reach for an edit to fall into it: what is only put in goes to the leaf before it.
fn passing(from: u64, to: u64) -> u64
    requires { from ≤ to }
    ensures some { 0 < result }
    ensures below { result ≤ from + 1 }
    ensures above { result ≤ max to 1 }
{
    if from < to { from + 1 } else { from.max(1) }
}
