//! The tree of shared nodes beside a plain list, and trees that were grown by different ways.

use crate::numbers::{Numbers, edited, joined, leaf_of, number_at, rejoined, shows, tree_of};
use rand_core::{Rng, SeedableRng};
use rand_pcg::Lcg64Xsh32;
use shared_tree::Tree;
use std::alloc::{AllocError, Global};

// So many numbers from one on.
fn list_of(alloc: Global, first: u64, count: u64) -> Result<Vec<u64>, AllocError> {
    let mut list = Vec::new(alloc);
    for i in 0..count {
        list.push(first.wrapping_add(i))?;
    }
    Ok(list)
}

// The list with the items from one index up to another replaced; as it is where it has no such indices.
fn replaced(
    alloc: Global,
    list: &[u64],
    from: u64,
    to: u64,
    other: &[u64],
) -> Result<Vec<u64>, AllocError> {
    let (from, to) = (from as usize, to as usize);
    if to < from || list.len() < to {
        return Vec::from_slice(alloc, list);
    }
    let mut made = Vec::from_slice(alloc, &list[..from])?;
    made.extend_from_slice(other)?;
    made.extend_from_slice(&list[to..])?;
    Ok(made)
}

// A tree, and the list that it is to be.
#[derive(Drop)]
struct Beside {
    tree: Numbers,
    list: Vec<u64>,
}

impl Beside {
    fn start(alloc: Global) -> Result<Beside, AllocError> {
        let tree = tree_of(alloc, 0, 100)?;
        let list = list_of(alloc, 0, 100)?;
        Ok(Beside { tree, list })
    }

    // Replaces what stands between two indices by so many numbers from a first one on.
    fn replace(
        &mut self,
        alloc: Global,
        from: u64,
        to: u64,
        first: u64,
        count: u64,
    ) -> Result<(), AllocError> {
        let other = tree_of(alloc, first, count)?;
        let list = list_of(alloc, first, count)?;
        self.tree = edited(alloc, &self.tree, from, to, &other)?;
        self.list = replaced(alloc, &self.list, from, to, &list)?;
        Ok(())
    }

    // Replaces what is drawn, and tells where.
    fn change(&mut self, alloc: Global, words: &mut Lcg64Xsh32) -> Result<u64, AllocError> {
        let first = u64::from(words.next_u32());
        let from = first % self.tree.len().max(1);
        let to = from.wrapping_add(u64::from(words.next_u32() % 40));
        let to = to.min(self.tree.len());
        let count = u64::from(words.next_u32() % 16).wrapping_mul(u64::from(words.next_u32() % 8));
        self.replace(alloc, from, to, first, count)?;
        Ok(from)
    }

    // A step that is drawn, and whether both are the same after it, also where the tree is cut and joined again, and copied.
    fn step(&mut self, alloc: Global, words: &mut Lcg64Xsh32) -> Result<bool, AllocError> {
        let from = self.change(alloc, words)?;
        let same = shows_copy(alloc, &self.tree, &self.list);
        self.tree = rejoined(alloc, &self.tree, from)?;
        Ok(same && shows(&self.tree, &self.list))
    }
}

// Whether a copy of the tree shows this list.
fn shows_copy(alloc: Global, tree: &Numbers, list: &[u64]) -> bool {
    match tree.copy(alloc) {
        Ok(copy) => shows(&copy, list),
        Err(_) => false,
    }
}

// Whether so many steps from a seed are those of a list, and the tree is high after them.
fn steps_agree(alloc: Global, seed: u64, count: u64) -> Result<bool, AllocError> {
    let mut words = Lcg64Xsh32::seed_from_u64(seed);
    let mut beside = Beside::start(alloc)?;
    for _ in 0..count {
        if !beside.step(alloc, &mut words)? {
            return Ok(false);
        }
    }
    Ok(beside.tree.height() > 1)
}

#[test]
fn steps_are_those_of_a_list(rt: HostRuntime) {
    assert!(rt; steps_agree(rt.alloc(), 7, 150).unwrap_or(false));
}

// Whether the tree has the numbers from none up to 300, in every way.
fn is_whole(alloc: Global, tree: &Numbers) -> bool {
    match list_of(alloc, 0, 300) {
        Ok(list) => shows(tree, &list),
        Err(_) => false,
    }
}

// Whether a tree was made, and has them.
fn grows(alloc: Global, made: Result<Numbers, AllocError>) -> bool {
    match made {
        Ok(tree) => is_whole(alloc, &tree),
        Err(_) => false,
    }
}

fn at_the_front(alloc: Global) -> Result<Numbers, AllocError> {
    let mut tree = Tree::new(alloc);
    for i in 0..300u64 {
        let leaf = leaf_of(alloc, 299u64.wrapping_sub(i))?;
        tree = joined(alloc, &leaf, &tree)?;
    }
    Ok(tree)
}

// The tree of the numbers from one up to another, and from a third up to a fourth.
fn of_two(alloc: Global, first: (u64, u64), second: (u64, u64)) -> Result<Numbers, AllocError> {
    let front = tree_of(alloc, first.0, first.1.wrapping_sub(first.0))?;
    let back = tree_of(alloc, second.0, second.1.wrapping_sub(second.0))?;
    joined(alloc, &front, &back)
}

fn from_the_middle(alloc: Global) -> Result<Numbers, AllocError> {
    let ends = of_two(alloc, (0, 10), (290, 300))?;
    let middle = tree_of(alloc, 10, 280)?;
    edited(alloc, &ends, 10, 10, &middle)
}

#[test]
fn trees_grown_by_different_ways_hold_the_same(rt: HostRuntime) {
    let alloc = rt.alloc();
    assert!(rt; grows(alloc, tree_of(alloc, 0, 300)));
    assert!(rt; grows(alloc, at_the_front(alloc)));
    assert!(rt; grows(alloc, of_two(alloc, (0, 150), (150, 300))));
    assert!(rt; grows(alloc, from_the_middle(alloc)));
}

// A tree of height 4 at least: 96,000 numbers, joined of parts.
fn high(alloc: Global) -> Result<Numbers, AllocError> {
    let mut tree = tree_of(alloc, 0, 3_000)?;
    for _ in 0..5 {
        tree = joined(alloc, &tree, &tree)?;
    }
    Ok(tree)
}

// Whether a high tree was made of so many numbers, with these at the ends.
fn is_joined(made: Result<Numbers, AllocError>, len: u64, first: u64, last: u64) -> bool {
    match made {
        Ok(tree) => {
            tree.height() >= 4
                && tree.len() == len
                && number_at(&tree, 0) == Some(first)
                && number_at(&tree, len.wrapping_sub(1)) == Some(last)
        }
        Err(_) => false,
    }
}

// Whether a leaf is joined at both ends.
fn takes_a_leaf(alloc: Global, high: &Numbers) -> bool {
    match leaf_of(alloc, 7) {
        Ok(leaf) => {
            is_joined(joined(alloc, high, &leaf), 96_001, 0, 7)
                && is_joined(joined(alloc, &leaf, high), 96_001, 7, 2_999)
        }
        Err(_) => false,
    }
}

// Whether none is joined at both ends.
fn takes_none(alloc: Global, high: &Numbers) -> bool {
    let none = Tree::new(alloc);
    is_joined(joined(alloc, high, &none), 96_000, 0, 2_999)
        && is_joined(joined(alloc, &none, high), 96_000, 0, 2_999)
}

fn a_high_tree_takes_both(alloc: Global) -> bool {
    match high(alloc) {
        Ok(high) => takes_a_leaf(alloc, &high) && takes_none(alloc, &high),
        Err(_) => false,
    }
}

#[test]
fn a_high_tree_is_joined_with_a_leaf_and_with_none(rt: HostRuntime) {
    assert!(rt; a_high_tree_takes_both(rt.alloc()));
}
