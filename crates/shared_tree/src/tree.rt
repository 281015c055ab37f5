ghost use Rattle.std.specs.Prelude.{◌≡◌, ◌+◌, ◌-◌, ◌*◌, ◌^◌, ◌<◌, ◌≤◌, ◌==◌, [], ◌∷◌, ◌++◌, length, take, drop, IfOk, IfSome, IsTrue, OnOk, OnErr};
ghost use Rattle.shared_tree.specs.Row.{items_in, items_of, shapes, AreFull, IsFit, IsRow, IsTop};
ghost use Rattle.shared_tree.specs.Places.{sum_over, IsAt, IsFound};
ghost use Rattle.shared_tree.specs.Replaced.{replaced};

use crate::beside::beside;
use crate::cut::{back_of, front_of};
use crate::node::Node;
use crate::patch::patched_row;
use crate::row::{Link, grouped, sum_of};
use crate::seek::{leaf_at, seek};
use crate::shared::{copied, single};
use crate::{Count, Leaf, Leaves, Measure, Summary, Walk};
use std::alloc::{AllocError, Global};
use std::marker::Model;

/// A list of items in leaves, whose copies share all that they do not change.
#[derive(Drop)]
pub struct Tree<L: Leaf> {
    height: u64,
    row: Vec<Link<L>>,
}

impl<L: Leaf> Model for Tree<L> {
    ghost use Rattle.shared_tree.specs.Shape.{Shape};

    ghost Value = { Shape L };

    ghost use Rattle.shared_tree.specs.Row.{height_over, leaves_of, shapes, IsTop};

    ghost view = { λ tree. record {
      leaves = leaves_of (shapes tree.row.items);
      height = height_over (shapes tree.row.items) tree.height;
    } };

    ghost invariant = { λ tree. IsTop L.Leaf L.Sum.Summary tree.height (shapes tree.row.items) };
}

impl<L: Leaf> Tree<L> {
    pub fn new(alloc: Global) -> Tree<L>
        ensures { result ≡ record { leaves = []; height = 0 } }
    {
        Tree {
            height: 0,
            row: Vec::new(alloc),
        }
    }

    pub fn of_leaf(alloc: Global, leaf: L) -> Result<Tree<L>, AllocError>
        requires some { 1 ≤ length (L.items leaf) }
        requires fits { IsFit L.Leaf L.Sum.Summary (L.items leaf) }
        ensures { IfOk result (λ tree. tree ≡ record { leaves = leaf ∷ []; height = 0 }) }
    {
        Ok(Tree {
            height: 0,
            row: single(alloc, Node::tip(leaf))?,
        })
    }

    /// The nodes of one height as a tree, under a root of their own where they are too many for one.
    pub(crate) fn of_row(
        alloc: Global,
        height: u64,
        row: Vec<Link<L>>,
    ) -> Result<Tree<L>, AllocError>
        requires levels { IsRow L.Leaf height (shapes row.items) }
        requires few { length row.items ≤ 16 }
        requires fits { IsFit L.Leaf L.Sum.Summary (items_in L.Leaf (shapes row.items)) }
        ensures { IfOk result (λ tree. items_of L.Leaf tree ≡ items_in L.Leaf (shapes row.items)) }
    {
        if row.len() <= 8 {
            return Ok(Tree { height, row });
        }
        Ok(Tree {
            height: height + 1,
            row: grouped(alloc, height + 1, row)?,
        })
    }

    /// The same tree, which shares all with this one, in O(1).
    pub fn copy(&self, alloc: Global) -> Result<Tree<L>, AllocError>
        ensures { IfOk result (λ made. made ≡ self.now) }
    {
        Ok(Tree {
            height: self.height,
            row: copied(alloc, &self.row)?,
        })
    }

    /// How many items, in O(1).
    pub fn len(&self) -> u64
        ensures { result ≡ length (items_of L.Leaf self.now) }
    {
        self.summary().count()
    }

    pub fn is_empty(&self) -> bool
        ensures { result ≡ (length (items_of L.Leaf self.now) == 0) }
    {
        self.len() == 0
    }

    /// How many levels of nodes stand above the leaves, of which none is empty, in O(1).
    pub fn height(&self) -> u64
        ensures height { result ≡ self.now.height }
        ensures low { result ≤ 32 }
        ensures tall { 1 ≤ self.now.height → 2 * 4 ^ (self.now.height - 1) ≤ length self.now.leaves }
        ensures full { AreFull L.Leaf self.now.leaves }
    {
        match self.row.len() {
            0 => 0,
            1 => self.height,
            _ => self.height + 1,
        }
    }

    /// The sum of all items, in O(1).
    pub fn summary(&self) -> L::Sum
        ensures sum { result ≡ L.summed (items_of L.Leaf self.now) }
        ensures fits { IsFit L.Leaf L.Sum.Summary (items_of L.Leaf self.now) }
    {
        sum_of(&self.row)
    }

    pub(crate) fn after_row(
        &self,
        alloc: Global,
        row: &[Link<L>],
        height: u64,
    ) -> Result<Tree<L>, AllocError>
        requires row { IsTop L.Leaf L.Sum.Summary height (shapes row.now) }
        requires fits { IsFit L.Leaf L.Sum.Summary
            (items_in L.Leaf (shapes row.now) ++ items_of L.Leaf self.now) }
        ensures { IfOk result (λ made. items_of L.Leaf made
            ≡ items_in L.Leaf (shapes row.now) ++ items_of L.Leaf self.now) }
    {
        beside(alloc, row, height, &self.row, self.height)
    }

    pub(crate) fn before_row(
        &self,
        alloc: Global,
        row: &[Link<L>],
        height: u64,
    ) -> Result<Tree<L>, AllocError>
        requires row { IsTop L.Leaf L.Sum.Summary height (shapes row.now) }
        requires fits { IsFit L.Leaf L.Sum.Summary
            (items_of L.Leaf self.now ++ items_in L.Leaf (shapes row.now)) }
        ensures { IfOk result (λ made. items_of L.Leaf made
            ≡ items_of L.Leaf self.now ++ items_in L.Leaf (shapes row.now)) }
    {
        beside(alloc, &self.row, self.height, row, height)
    }

    /// Both, one after the other, with the leaves as they are but where a single leaf meets another.
    fn aligned(&self, alloc: Global, other: &Tree<L>) -> Result<Tree<L>, AllocError>
        requires { IsFit L.Leaf L.Sum.Summary (items_of L.Leaf self.now ++ items_of L.Leaf other.now) }
        ensures { IfOk result (λ made. items_of L.Leaf made
            ≡ items_of L.Leaf self.now ++ items_of L.Leaf other.now) }
    {
        other.after_row(alloc, &self.row, self.height)
    }

    /// The items, and those of a leaf after them.
    fn with_leaf(&self, alloc: Global, leaf: L) -> Result<Tree<L>, AllocError>
        requires some { 1 ≤ length (L.items leaf) }
        requires fits { IsFit L.Leaf L.Sum.Summary (items_of L.Leaf self.now ++ L.items leaf) }
        ensures { IfOk result (λ made. items_of L.Leaf made ≡ items_of L.Leaf self.now ++ L.items leaf) }
    {
        let end = single(alloc, Node::tip(leaf))?;
        self.before_row(alloc, &end, 0)
    }

    fn first_leaf(&self) -> &L
        requires { 0 < length (items_of L.Leaf self.now) }
        ensures some { 1 ≤ length (L.items result.now) }
        ensures first { items_of L.Leaf self.now ≡ L.items result.now
            ++ drop (length (L.items result.now)) (items_of L.Leaf self.now) }
    {
        self.get(0).0
    }

    fn last_leaf(&self) -> &L
        requires { 0 < length (items_of L.Leaf self.now) }
        ensures some { 1 ≤ length (L.items result.now) }
        ensures last { items_of L.Leaf self.now
            ≡ take (length (items_of L.Leaf self.now) - length (L.items result.now)) (items_of L.Leaf self.now)
            ++ L.items result.now }
    {
        self.get(self.len() - 1).0
    }

    /// Both, one after the other, in O(height). Leaves that meet and fit into one become one.
    pub fn joined(&self, alloc: Global, other: &Tree<L>) -> Result<Tree<L>, AllocError>
        requires { IsFit L.Leaf L.Sum.Summary (items_of L.Leaf self.now ++ items_of L.Leaf other.now) }
        ensures { IfOk result (λ made. items_of L.Leaf made
            ≡ items_of L.Leaf self.now ++ items_of L.Leaf other.now) }
    {
        if self.len() == 0 || other.len() == 0 {
            return self.aligned(alloc, other);
        }
        let (last, first) = (self.last_leaf(), other.first_leaf());
        match last.glued(alloc, first)? {
            Some(both) => {
                let front = self.front(alloc, self.len() - last.len())?;
                let back = other.back(alloc, first.len())?;
                front.with_leaf(alloc, both)?.aligned(alloc, &back)
            }
            None => self.aligned(alloc, other),
        }
    }

    /// The first `to` items, in O(height).
    pub fn front(&self, alloc: Global, to: u64) -> Result<Tree<L>, AllocError>
        requires { to ≤ length (items_of L.Leaf self.now) }
        ensures { IfOk result (λ made. items_of L.Leaf made ≡ take to (items_of L.Leaf self.now)) }
    {
        if to == 0 {
            return Ok(Tree::new(alloc));
        }
        front_of(alloc, &self.row, self.height, to)
    }

    /// The items from index `from` on, in O(height).
    pub fn back(&self, alloc: Global, from: u64) -> Result<Tree<L>, AllocError>
        requires { from ≤ length (items_of L.Leaf self.now) }
        ensures { IfOk result (λ made. items_of L.Leaf made ≡ drop from (items_of L.Leaf self.now)) }
    {
        if from == self.len() {
            return Ok(Tree::new(alloc));
        }
        back_of(alloc, &self.row, self.height, from)
    }

    /// The items with those from one index up to another replaced by those of `other`, in O(height). Where all falls into one
    /// leaf, one path is copied.
    pub fn edited(
        &self,
        alloc: Global,
        from: u64,
        to: u64,
        other: &Tree<L>,
    ) -> Result<Tree<L>, AllocError>
        requires ordered { from ≤ to }
        requires inside { to ≤ length (items_of L.Leaf self.now) }
        requires fits { IsFit L.Leaf L.Sum.Summary
            (replaced (items_of L.Leaf self.now) from to (items_of L.Leaf other.now)) }
        ensures { IfOk result (λ made. items_of L.Leaf made
            ≡ replaced (items_of L.Leaf self.now) from to (items_of L.Leaf other.now)) }
    {
        match self.patched(alloc, from, to, other)? {
            Some(made) => Ok(made),
            None => self.rebuilt(alloc, from, to, other),
        }
    }

    fn patched(
        &self,
        alloc: Global,
        from: u64,
        to: u64,
        other: &Tree<L>,
    ) -> Result<Option<Tree<L>>, AllocError>
        requires ordered { from ≤ to }
        requires inside { to ≤ length (items_of L.Leaf self.now) }
        requires fits { IsFit L.Leaf L.Sum.Summary
            (replaced (items_of L.Leaf self.now) from to (items_of L.Leaf other.now)) }
        ensures { IfOk result (λ made. IfSome made (λ tree. items_of L.Leaf tree
            ≡ replaced (items_of L.Leaf self.now) from to (items_of L.Leaf other.now))) }
    {
        if self.row.is_empty() || other.height > 0 || other.row.len() > 1 {
            return Ok(None);
        }
        match patched_row(alloc, &self.row, self.height, from, to, &other.row)? {
            Some(row) => Ok(Some(Tree::of_row(alloc, self.height, row)?)),
            None => Ok(None),
        }
    }

    fn rebuilt(
        &self,
        alloc: Global,
        from: u64,
        to: u64,
        other: &Tree<L>,
    ) -> Result<Tree<L>, AllocError>
        requires ordered { from ≤ to }
        requires inside { to ≤ length (items_of L.Leaf self.now) }
        requires fits { IsFit L.Leaf L.Sum.Summary
            (replaced (items_of L.Leaf self.now) from to (items_of L.Leaf other.now)) }
        ensures { IfOk result (λ made. items_of L.Leaf made
            ≡ replaced (items_of L.Leaf self.now) from to (items_of L.Leaf other.now)) }
    {
        let front = self.front(alloc, from)?;
        let back = self.back(alloc, to)?;
        front.joined(alloc, other)?.joined(alloc, &back)
    }

    /// Puts a leaf at the end, in O(height). Where it fits into the last leaf, the two become one.
    pub fn push_leaf(&mut self, alloc: Global, leaf: L) -> Result<(), AllocError>
        requires some { 1 ≤ length (L.items leaf) }
        requires fits { IsFit L.Leaf L.Sum.Summary (items_of L.Leaf self.old ++ L.items leaf) }
        ensures pushed { OnOk result (items_of L.Leaf self.new ≡ items_of L.Leaf self.old ++ L.items leaf) }
        ensures unchanged { OnErr result (self.new ≡ self.old) }
    {
        *self = self.with_leaf(alloc, leaf)?;
        Ok(())
    }

    /// The node on top in which the measure passes `at`, and the sum of all before it: the first step of a way down, which
    /// [`Node::child`] goes on.
    pub fn top<M: Measure<L::Sum>>(&self, measure: &M, at: u64) -> (&Node<L>, L::Sum)
        requires some { 0 < at }
        requires within { at ≤ M.width measure.now (sum_over L.Leaf self.now.leaves) }
        ensures below { result.0.now.height ≤ self.now.height }
        ensures found { IsFound L.Leaf L.Sum.Summary (M.width measure.now) L.Sum.zero self.now.leaves
            at result.0.now.leaves result.1 }
        ensures fits { IsTrue (L.Sum.fits (L.Sum.plus result.1 (sum_over L.Leaf result.0.now.leaves))) }
    {
        let (i, before) = seek(&self.row, measure, at, L::Sum::zero());
        (&self.row[i], before)
    }

    /// The leaf in which the measure passes `at`, and the sum of all before that leaf, in O(height).
    pub fn find<M: Measure<L::Sum>>(&self, measure: &M, at: u64) -> (&L, L::Sum)
        requires some { 0 < at }
        requires within { at ≤ M.width measure.now (sum_over L.Leaf self.now.leaves) }
        ensures { IsFound L.Leaf L.Sum.Summary (M.width measure.now) L.Sum.zero self.now.leaves
            at (result.0.now ∷ []) result.1 }
    {
        let (node, before) = self.top(measure, at);
        leaf_at(node, measure, at, before)
    }

    /// The leaf that has the item of this index, and the item's index in the leaf, in O(height).
    pub fn get(&self, index: u64) -> (&L, u64)
        requires { index < length (items_of L.Leaf self.now) }
        ensures { IsAt (items_of L.Leaf self.now) index (L.items result.0.now) result.1 }
    {
        let _ = &self.row;
        let (leaf, before) = self.find(&Count, index + 1);
        (leaf, index - before.count())
    }

    /// The leaves in order, in O(height) a step.
    pub fn leaves(&self) -> Leaves<'_, L>
        ensures { result ≡ self.now.leaves }
    {
        let _ = &self.row;
        Leaves::new(self)
    }

    /// A walk over the leaves from a place between two items on, both ways, in O(height) a step.
    pub fn walk(&self, at: u64) -> Walk<'_, L>
        requires { at ≤ length (items_of L.Leaf self.now) }
        ensures { result ≡ record { tree = self.now; at = at } }
    {
        Walk::new(self, at)
    }
}
