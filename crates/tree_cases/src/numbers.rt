//! Trees of shared numbers, made and read in every way.

use shared_tree::{Batch, Leaf, Summary, Tree};
use std::alloc::{AllocError, Global};

pub(crate) type Numbers = Tree<Batch<u64>>;

const MOST: u64 = 100_000;

// Puts a number in a leaf of its own at the end.
#[tactic(auto, using(crate::proofs::Fits::few))]
fn push(alloc: Global, tree: &mut Numbers, number: u64) -> Result<(), AllocError> {
    let one = Batch::of_one(alloc, number)?;
    if tree.len() < MOST {
        tree.push_leaf(alloc, one)?;
    }
    Ok(())
}

// So many numbers from one on.
pub(crate) fn tree_of(alloc: Global, first: u64, count: u64) -> Result<Numbers, AllocError> {
    let mut tree = Tree::new(alloc);
    for i in 0..count {
        push(alloc, &mut tree, first.wrapping_add(i))?;
    }
    Ok(tree)
}

// One number in a leaf.
#[tactic(auto, using(crate::proofs::Fits::few))]
pub(crate) fn leaf_of(alloc: Global, number: u64) -> Result<Numbers, AllocError> {
    Tree::of_leaf(alloc, Batch::of_one(alloc, number)?)
}

// Both, one after the other; none where they are too long.
#[tactic(auto, using(crate::proofs::Fits::few))]
pub(crate) fn joined(
    alloc: Global,
    left: &Numbers,
    right: &Numbers,
) -> Result<Numbers, AllocError> {
    if MOST < left.len() || MOST < right.len() {
        return Ok(Tree::new(alloc));
    }
    left.joined(alloc, right)
}

// The tree with the items from one index up to another replaced; none where it has no such indices.
#[tactic(auto, using(crate::proofs::Fits::few))]
pub(crate) fn edited(
    alloc: Global,
    tree: &Numbers,
    from: u64,
    to: u64,
    other: &Numbers,
) -> Result<Numbers, AllocError> {
    if to < from || tree.len() < to || MOST < tree.len() || MOST < other.len() {
        return Ok(Tree::new(alloc));
    }
    tree.edited(alloc, from, to, other)
}

// The tree, cut there and joined again; none where it has no such place.
pub(crate) fn rejoined(alloc: Global, tree: &Numbers, at: u64) -> Result<Numbers, AllocError> {
    if tree.len() < at {
        return Ok(Tree::new(alloc));
    }
    let front = tree.front(alloc, at)?;
    let back = tree.back(alloc, at)?;
    joined(alloc, &front, &back)
}

// The number at an index.
pub(crate) fn number_at(tree: &Numbers, at: u64) -> Option<u64> {
    if tree.len() <= at {
        return None;
    }
    let (leaf, i) = tree.get(at);
    Some(*leaf.get(i))
}

// Whether the list has these of the leaf's numbers from an index on.
fn has(list: &[u64], at: u64, leaf: &Batch<u64>, from: u64, to: u64) -> bool {
    for i in from..to.min(leaf.len()) {
        let there = at.wrapping_add(i.wrapping_sub(from));
        if list.get(there as usize) != Some(leaf.get(i)) {
            return false;
        }
    }
    true
}

fn shows_items(tree: &Numbers, list: &[u64]) -> bool {
    for at in 0..tree.len() {
        if number_at(tree, at).as_ref() != list.get(at as usize) {
            return false;
        }
    }
    tree.len() == list.len() as u64
}

fn shows_leaves(tree: &Numbers, list: &[u64]) -> bool {
    let mut at = 0u64;
    for leaf in tree.leaves() {
        if !has(list, at, leaf, 0, leaf.len()) {
            return false;
        }
        at = at.wrapping_add(leaf.len());
    }
    at == list.len() as u64
}

fn shows_walk(tree: &Numbers, list: &[u64]) -> bool {
    let mut at = 0u64;
    let mut walk = tree.walk(0);
    for _ in 0..tree.len() {
        let Some((leaf, from)) = walk.next() else {
            return at == list.len() as u64;
        };
        if !has(list, at, leaf, from, leaf.len()) {
            return false;
        }
        at = at.wrapping_add(leaf.len().wrapping_sub(from));
    }
    at == list.len() as u64
}

fn shows_walk_back(tree: &Numbers, list: &[u64]) -> bool {
    let mut at = list.len() as u64;
    let mut walk = tree.walk(tree.len());
    for _ in 0..tree.len() {
        let Some((leaf, count)) = walk.back() else {
            return at == 0;
        };
        at = at.wrapping_sub(count);
        if !has(list, at, leaf, 0, count) {
            return false;
        }
    }
    at == 0
}

// Whether the tree shows this list in every way.
pub(crate) fn shows(tree: &Numbers, list: &[u64]) -> bool {
    shows_items(tree, list)
        && shows_leaves(tree, list)
        && shows_walk(tree, list)
        && shows_walk_back(tree, list)
        && tree.summary().count() == list.len() as u64
}
