ghost use Rattle.std.specs.Prelude.{◌≡◌, ◌+◌, ◌-◌, ◌^◌, ◌<◌, ◌≤◌, ◌↔◌, [], ◌∷◌, length, IfSome, None};
ghost use Rattle.shared_tree.specs.Row.{items_in, items_of, leaves_of, shapes, IsFit, IsLevel, IsRow};
ghost use Rattle.shared_tree.specs.Node.{AreKids};

use crate::row::sum_of;
use crate::{Leaf, Summary};
use std::alloc::Global;
use std::marker::Model;
use std::sync::Arc;

/// A leaf, or 4 to 8 nodes of one height below it, with the sum of its items.
#[cycle(node)]
#[derive(Drop)]
pub struct Node<L: Leaf> {
    pub(crate) height: u64,
    summary: L::Sum,
    pub(crate) body: Body<L>,
}

#[cycle(node)]
#[derive(Drop)]
pub(crate) enum Body<L: Leaf> {
    Tip(L),
    Inner(Vec<Arc<Node<L>, Global>>),
}

impl<L: Leaf> Model for Node<L> {
    ghost use Rattle.shared_tree.specs.Shape.{Shape};

    ghost Value = { Shape L };

    ghost use Rattle.shared_tree.specs.Node.{leaves_in, IsWellFormed};

    ghost view = { λ node. record { leaves = leaves_in node.body; height = node.height } };

    ghost invariant = { λ node. IsWellFormed L.Leaf L.Sum.Summary node.height node.summary node.body };

    ghost size = { λ shape. shape.height };

    ghost use Rattle.shared_tree.specs.Falls.{deep_falls};

    ghost size_decreases = { λ node sound. deep_falls L.Leaf L.Sum.Summary node.height node.body sound.built };
}

impl<L: Leaf> Node<L> {
    pub(crate) fn tip(leaf: L) -> Node<L>
        requires some { 1 ≤ length (L.items leaf) }
        requires fits { IsFit L.Leaf L.Sum.Summary (L.items leaf) }
        ensures { result ≡ record { leaves = leaf ∷ []; height = 0 } }
    {
        let summary = leaf.summary();
        Node {
            height: 0,
            summary,
            body: Body::Tip(leaf),
        }
    }

    pub(crate) fn inner(height: u64, kids: Vec<Arc<Node<L>, Global>>) -> Node<L>
        requires kids { AreKids L.Leaf height (shapes kids.items) }
        requires fits { IsFit L.Leaf L.Sum.Summary (items_in L.Leaf (shapes kids.items)) }
        ensures { result ≡ record { leaves = leaves_of (shapes kids.items); height = height } }
    {
        let summary = sum_of(&kids);
        Node {
            height,
            summary,
            body: Body::Inner(kids),
        }
    }

    /// How many levels of nodes stand below.
    pub fn height(&self) -> u64
        ensures { result ≡ self.now.height }
    {
        self.height
    }

    /// The leaf that the node is; `None` where it has children.
    pub fn leaf(&self) -> Option<&L>
        ensures own { IfSome result (λ leaf. self.now.leaves ≡ leaf.now ∷ []) }
        ensures inner { (result ≡ None) ↔ (1 ≤ self.now.height) }
    {
        match &self.body {
            Body::Tip(leaf) => Some(leaf),
            Body::Inner(_) => None,
        }
    }

    pub(crate) fn summary(&self) -> &L::Sum
        ensures { result.now ≡ L.summed (items_of L.Leaf self.now) }
    {
        &self.summary
    }

    pub(crate) fn len(&self) -> u64
        ensures { result ≡ length (items_of L.Leaf self.now) }
    {
        self.summary.count()
    }

    /// The children of an inner node.
    pub(crate) fn kids(&self) -> &[Arc<Node<L>, Global>]
        requires { 1 ≤ self.now.height }
        ensures leaves { leaves_of (shapes result.now) ≡ self.now.leaves }
        ensures same { items_in L.Leaf (shapes result.now) ≡ items_of L.Leaf self.now }
        ensures kids { AreKids L.Leaf self.now.height (shapes result.now) }
    {
        match &self.body {
            Body::Tip(_) => &[],
            Body::Inner(kids) => kids,
        }
    }
}
