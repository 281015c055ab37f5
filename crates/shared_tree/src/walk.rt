ghost use Rattle.std.specs.Prelude.{◌≡◌, ℕ, ◌<◌, ◌≤◌, ◌++◌, ◌↔◌, length, take, drop, IfSome};
ghost use Rattle.std.specs.Iterator.{YieldsFirstRef, item_count};
ghost use Rattle.shared_tree.specs.Row.{items_of, AreFull};

use crate::{Count, Leaf, Tree};
use std::marker::Model;

/// A place between two items of a tree, from which a walk goes leaf by leaf, both ways. A step copies nothing and takes no
/// memory.
#[derive(Drop)]
pub struct Walk<'a, L: Leaf> {
    tree: &'a Tree<L>,
    at: u64,
}

impl<'a, L: Leaf> Model for Walk<'a, L> {
    ghost use Rattle.std.specs.Prelude.{ℕ, ◌≤◌, length};
    ghost use Rattle.shared_tree.specs.Row.{items_of};
    ghost use Rattle.shared_tree.specs.Shape.{Shape, Place};

    ghost Value = { Place L };

    ghost view = { λ walk. record { tree = walk.tree.now; at = walk.at } };

    ghost invariant = { λ walk. walk.at ≤ length (items_of L.Leaf walk.tree.now) };
}

impl<'a, L: Leaf> Walk<'a, L> {
    pub(crate) fn new(tree: &'a Tree<L>, at: u64) -> Walk<'a, L>
        requires { at ≤ length (items_of L.Leaf tree.now) }
        ensures { result ≡ record { tree = tree.now; at = at } }
    {
        Walk { tree, at }
    }

    /// The leaf that has the item after the place, and the item's index in it; the place goes to the leaf's end. `None` at the end.
    pub fn next(&mut self) -> Option<(&'a L, u64)>
        ensures same { self.new.tree ≡ self.old.tree }
        ensures ended { (result ≡ None) ↔ (self.old.at ≡ length (items_of L.Leaf self.old.tree)) }
        ensures given { IfSome result (λ got. drop self.old.at (items_of L.Leaf self.old.tree)
            ≡ drop got.1 (L.items got.0.now) ++ drop self.new.at (items_of L.Leaf self.old.tree)) }
        ensures inside { IfSome result (λ got. got.1 < length (L.items got.0.now)) }
    {
        if self.at == self.tree.len() {
            return None;
        }
        let (leaf, index) = self.tree.get(self.at);
        self.at += leaf.len() - index;
        Some((leaf, index))
    }

    /// The leaf that has the item before the place, and how many of its items stand before the place, which goes to the leaf's
    /// start. `None` at the start.
    pub fn back(&mut self) -> Option<(&'a L, u64)>
        ensures same { self.new.tree ≡ self.old.tree }
        ensures ended { (result ≡ None) ↔ (self.old.at ≡ 0) }
        ensures given { IfSome result (λ got. take self.old.at (items_of L.Leaf self.old.tree)
            ≡ take self.new.at (items_of L.Leaf self.old.tree) ++ take got.1 (L.items got.0.now)) }
        ensures inside { IfSome result (λ got. (0 < got.1) × (got.1 ≤ length (L.items got.0.now))) }
    {
        if self.at == 0 {
            return None;
        }
        let (leaf, index) = self.tree.get(self.at - 1);
        self.at -= index + 1;
        Some((leaf, index + 1))
    }
}

/// The leaves of a tree that are still to come, in order. A step copies nothing and takes no memory.
#[derive(Drop)]
pub struct Leaves<'a, L: Leaf> {
    tree: &'a Tree<L>,
    // How many items stand in the leaves that came.
    at: u64,
}

impl<'a, L: Leaf> Model for Leaves<'a, L> {
    ghost use Rattle.std.specs.Prelude.{List};
    ghost use Rattle.shared_tree.specs.Row.{AreFull};
    ghost use Rattle.shared_tree.specs.Places.{leaves_from, IsSeam};

    ghost Value = { List L };

    ghost view = { λ walk. leaves_from L.Leaf walk.at walk.tree.now.leaves };

    ghost invariant = { λ walk. IsSeam L.Leaf walk.at walk.tree.now.leaves × AreFull L.Leaf walk.tree.now.leaves };
}

impl<'a, L: Leaf> Leaves<'a, L> {
    pub(crate) fn new(tree: &'a Tree<L>) -> Leaves<'a, L>
        requires { AreFull L.Leaf tree.now.leaves }
        ensures { result ≡ tree.now.leaves }
    {
        Leaves { tree, at: 0 }
    }
}

impl<'a, L: Leaf> Iterator for Leaves<'a, L> {
    type Item = &'a L;

    ghost next_gives = { YieldsFirstRef (λ leaves. leaves) };

    ghost remaining = { item_count (λ leaves. leaves) };

    fn next(&mut self) -> Option<&'a L> {
        if self.at == self.tree.len() {
            return None;
        }
        let (leaf, _) = self.tree.find(&Count, self.at + 1);
        self.at += leaf.len();
        Some(leaf)
    }
}
