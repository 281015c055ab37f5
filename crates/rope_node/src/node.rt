ghost use Rattle.std.specs.Prelude.{◌≡◌, ◌-◌, ◌*◌, ◌^◌, ◌<◌, ◌≤◌, ◌++◌, length, IfOk};
ghost use Rattle.std.specs.List.{All};
ghost use Rattle.plain_text.specs.Text.{byte_len};
ghost use Rattle.rope_node.specs.Node.{text_of};

use crate::Chunk;
use plain_text::{NoMemory, Text};
use shared_tree::Tree;
use std::alloc::Global;
use std::marker::Model;

/// A text in shared leaves.
#[derive(Drop)]
pub struct Node {
    tree: Tree<Chunk>,
}

impl Model for Node {
    ghost use Rattle.std.specs.Prelude.{ℕ, List};
    ghost use Rattle.shared_tree.specs.Shape.{Shape};

    ghost Value = { Shape (List ℕ) };

    ghost view = { λ node. node.tree };
}

impl Node {
    /// A leaf, or a node without a leaf where the text is empty.
    pub fn leaf(alloc: Global, text: Text) -> Result<Node, NoMemory>
        requires { byte_len text ≤ 1024 }
        ensures { IfOk result (λ node. text_of node ≡ text) }
    {
        if text.is_empty() {
            return Ok(Node {
                tree: Tree::new(alloc),
            });
        }
        Ok(Node {
            tree: Tree::of_leaf(alloc, Chunk::new(text))?,
        })
    }

    /// Both, one after the other, in O(height).
    pub fn join(alloc: Global, left: Node, right: Node) -> Result<Node, NoMemory>
        requires { byte_len (text_of left ++ text_of right) < 2 ^ 64 }
        ensures { IfOk result (λ node. text_of node ≡ text_of left ++ text_of right) }
    {
        Ok(Node {
            tree: left.tree.joined(alloc, &right.tree)?,
        })
    }

    /// The same node, which shares all with this one, in O(1).
    pub fn copy(&self, alloc: Global) -> Result<Node, NoMemory>
        ensures { IfOk result (λ made. made ≡ self.now) }
    {
        Ok(Node {
            tree: self.tree.copy(alloc)?,
        })
    }

    /// How many levels of nodes stand above the leaves, which all have one depth.
    pub fn height(&self) -> u32
        ensures height { result ≡ self.now.height }
        ensures tall { 1 ≤ self.now.height → 2 * 4 ^ (self.now.height - 1) ≤ length self.now.leaves }
        ensures full { All (λ leaf. 1 ≤ length leaf) self.now.leaves }
    {
        self.tree.height() as u32
    }

    /// The tree of the leaves.
    pub fn tree(&self) -> &Tree<Chunk>
        ensures { result.now ≡ self.now }
    {
        &self.tree
    }

    pub fn of_tree(tree: Tree<Chunk>) -> Node
        ensures { result ≡ tree }
    {
        Node { tree }
    }
}
