// Two rows of any heights, one beside the other: the lower one goes down along the edge of the higher.
ghost use Rattle.std.specs.Prelude.{◌≡◌, ◌+◌, ◌-◌, ◌<◌, ◌≤◌, ◌++◌, length, IfOk, IfSome};
ghost use Rattle.shared_tree.specs.Row.{items_in, items_of, shapes, IsBunch, IsFit, IsRow, IsRowOf, IsTop};

use crate::row::{Link, grouped, seamed};
use crate::shared::{copied, joined};
use crate::{Leaf, Tree};
use std::alloc::{AllocError, Global};

/// The nodes with a row that is no higher on their right.
fn after<L: Leaf>(
    alloc: Global,
    nodes: &[Link<L>],
    height: u64,
    row: &[Link<L>],
    row_height: u64,
) -> Result<Vec<Link<L>>, AllocError>
    requires nodes { IsBunch L.Leaf height (shapes nodes.now) }
    requires row { IsBunch L.Leaf row_height (shapes row.now) }
    requires lower { row_height ≤ height }
    requires fits { IsFit L.Leaf L.Sum.Summary
        (items_in L.Leaf (shapes nodes.now) ++ items_in L.Leaf (shapes row.now)) }
    ensures { IfOk result (λ made. IsRowOf L.Leaf height
        (items_in L.Leaf (shapes nodes.now) ++ items_in L.Leaf (shapes row.now))
        (length nodes.now) 16 (shapes made.items)) }
{
    if height == row_height {
        return seamed(alloc, height, nodes, row);
    }
    let last = nodes.len() - 1;
    let (front, _) = nodes.split_at(last);
    let kids = after(alloc, nodes[last].kids(), height - 1, row, row_height)?;
    with_kids(alloc, front, height, kids)
}

/// The nodes, and after them one node or two above these children; the last of the nodes is filled first.
fn with_kids<L: Leaf>(
    alloc: Global,
    front: &[Link<L>],
    height: u64,
    kids: Vec<Link<L>>,
) -> Result<Vec<Link<L>>, AllocError>
    requires front { IsRow L.Leaf height (shapes front.now) }
    requires few { length front.now ≤ 7 }
    requires above { 1 ≤ height }
    requires kids { IsRow L.Leaf (height - 1) (shapes kids.items) }
    requires low { 4 ≤ length kids.items }
    requires high { length kids.items ≤ 16 }
    requires fits { IsFit L.Leaf L.Sum.Summary
        (items_in L.Leaf (shapes front.now) ++ items_in L.Leaf (shapes kids.items)) }
    ensures { IfOk result (λ made. IsRowOf L.Leaf height
        (items_in L.Leaf (shapes front.now) ++ items_in L.Leaf (shapes kids.items))
        (length front.now + 1) 16 (shapes made.items)) }
{
    match filled(alloc, front, height, &kids)? {
        Some(made) => Ok(made),
        None => {
            let grown = grouped(alloc, height, kids)?;
            joined(alloc, front, &grown)
        }
    }
}

/// The same where the children are too many for one node, and fit with those of the last of the nodes into two.
fn filled<L: Leaf>(
    alloc: Global,
    front: &[Link<L>],
    height: u64,
    kids: &[Link<L>],
) -> Result<Option<Vec<Link<L>>>, AllocError>
    requires front { IsRow L.Leaf height (shapes front.now) }
    requires few { length front.now ≤ 7 }
    requires above { 1 ≤ height }
    requires kids { IsRow L.Leaf (height - 1) (shapes kids.now) }
    requires high { length kids.now ≤ 16 }
    requires fits { IsFit L.Leaf L.Sum.Summary
        (items_in L.Leaf (shapes front.now) ++ items_in L.Leaf (shapes kids.now)) }
    ensures { IfOk result (λ made. IfSome made (λ row. IsRowOf L.Leaf height
        (items_in L.Leaf (shapes front.now) ++ items_in L.Leaf (shapes kids.now))
        (length front.now + 1) 16 (shapes row.items))) }
{
    if front.len() == 0 || kids.len() <= 8 {
        return Ok(None);
    }
    let last = front.len() - 1;
    let others = front[last].kids();
    if others.len() + kids.len() > 16 {
        return Ok(None);
    }
    let both = joined(alloc, others, kids)?;
    let grown = grouped(alloc, height, both)?;
    let (front, _) = front.split_at(last);
    Ok(Some(joined(alloc, front, &grown)?))
}

/// The nodes with a row that is no higher on their left.
fn before<L: Leaf>(
    alloc: Global,
    row: &[Link<L>],
    row_height: u64,
    nodes: &[Link<L>],
    height: u64,
) -> Result<Vec<Link<L>>, AllocError>
    requires nodes { IsBunch L.Leaf height (shapes nodes.now) }
    requires row { IsBunch L.Leaf row_height (shapes row.now) }
    requires lower { row_height ≤ height }
    requires fits { IsFit L.Leaf L.Sum.Summary
        (items_in L.Leaf (shapes row.now) ++ items_in L.Leaf (shapes nodes.now)) }
    ensures { IfOk result (λ made. IsRowOf L.Leaf height
        (items_in L.Leaf (shapes row.now) ++ items_in L.Leaf (shapes nodes.now))
        (length nodes.now) 16 (shapes made.items)) }
{
    if height == row_height {
        return seamed(alloc, height, row, nodes);
    }
    let grown = before(alloc, row, row_height, nodes[0].kids(), height - 1)?;
    let grown = grouped(alloc, height, grown)?;
    let (_, rest) = nodes.split_at(1);
    joined(alloc, &grown, rest)
}

/// Two rows of any heights as one tree; either may be empty.
pub(crate) fn beside<L: Leaf>(
    alloc: Global,
    left: &[Link<L>],
    left_height: u64,
    right: &[Link<L>],
    right_height: u64,
) -> Result<Tree<L>, AllocError>
    requires left { IsTop L.Leaf L.Sum.Summary left_height (shapes left.now) }
    requires right { IsTop L.Leaf L.Sum.Summary right_height (shapes right.now) }
    requires fits { IsFit L.Leaf L.Sum.Summary
        (items_in L.Leaf (shapes left.now) ++ items_in L.Leaf (shapes right.now)) }
    ensures { IfOk result (λ made. items_of L.Leaf made
        ≡ items_in L.Leaf (shapes left.now) ++ items_in L.Leaf (shapes right.now)) }
{
    if left.is_empty() {
        return Tree::of_row(alloc, right_height, copied(alloc, right)?);
    }
    if right.is_empty() {
        return Tree::of_row(alloc, left_height, copied(alloc, left)?);
    }
    if right_height <= left_height {
        let row = after(alloc, left, left_height, right, right_height)?;
        Tree::of_row(alloc, left_height, row)
    } else {
        let row = before(alloc, left, left_height, right, right_height)?;
        Tree::of_row(alloc, right_height, row)
    }
}
