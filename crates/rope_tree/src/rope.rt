ghost use Rattle.std.specs.Prelude.{◌≡◌, ◌+◌, ◌-◌, ◌^◌, ◌<◌, ◌≤◌, ◌++◌, [], length, take, drop, true, IfOk};
ghost use Rattle.std.specs.List.{flat_map};
ghost use Rattle.std.specs.Str.{all_scalars, chars};
ghost use Rattle.plain_text.specs.Text.{byte_len};
ghost use Rattle.rope_node.specs.Node.{text_of};
ghost use Rattle.shared_tree.specs.Replaced.{replaced};

use crate::Chunks;
use plain_text::{NoMemory, Text, TryClone, split_at_gap};
use rope_node::{Chunk, Node};
use shared_tree::{Leaf, Tree};
use std::alloc::Global;
use std::marker::Model;

/// A text in leaves of at most 1,024 bytes, whose copies share all that they do not change.
#[derive(Drop)]
pub struct Rope {
    node: Node,
}

impl Model for Rope {
    ghost use Rattle.std.specs.Prelude.{◌≡◌, ℕ, List, true};
    ghost use Rattle.std.specs.Str.{all_scalars};
    ghost use Rattle.rope_node.specs.Node.{text_of};

    ghost Value = { List ℕ };

    ghost view = { λ rope. text_of rope.node };

    ghost invariant = { λ rope. all_scalars (text_of rope.node) ≡ true };
}

impl Rope {
    /// The rope of a text, in one pass; its leaves are as full as characters allow.
    pub fn of_text(alloc: Global, text: &Text) -> Result<Rope, NoMemory>
        ensures { IfOk result (λ rope. rope ≡ text.now) }
    {
        let node = node_of(alloc, text)?;
        Ok(Rope { node })
    }

    /// The same rope, which shares all with this one, in O(1).
    pub fn copy(&self, alloc: Global) -> Result<Rope, NoMemory>
        ensures { IfOk result (λ made. made ≡ self.now) }
    {
        let node = self.node.copy(alloc)?;
        Ok(Rope { node })
    }

    /// How many characters, in O(1). Each is a scalar value.
    pub fn len(&self) -> u64
        ensures count { result ≡ length self.now }
        ensures characters { all_scalars self.now ≡ true }
    {
        self.node.tree().len()
    }

    /// How many bytes in UTF-8, in O(1).
    pub fn byte_len(&self) -> u64
        ensures { result ≡ byte_len self.now }
    {
        self.node.tree().summary().bytes
    }

    /// The root.
    pub fn node(&self) -> &Node
        ensures { text_of result.now ≡ self.now }
    {
        &self.node
    }

    /// The rope with the characters between two gaps replaced, in O(height) and the characters that come.
    pub fn replaced(&self, alloc: Global, from: u64, to: u64, text: &Text) -> Result<Rope, NoMemory>
        requires ordered { from ≤ to }
        requires inside { to ≤ length self.now }
        requires fits { byte_len (replaced self.now from to text.now) < 2 ^ 64 }
        ensures { IfOk result (λ made. made ≡ replaced self.now from to text.now) }
    {
        let added = node_of(alloc, text)?;
        let made = self.node.tree().edited(alloc, from, to, added.tree())?;
        Ok(Rope {
            node: Node::of_tree(made),
        })
    }

    pub(crate) fn empty(alloc: Global) -> Rope
        ensures { result ≡ [] }
    {
        Rope {
            node: Node::of_tree(Tree::new(alloc)),
        }
    }

    /// Both, one after the other, in O(height).
    pub fn joined(&self, alloc: Global, other: &Rope) -> Result<Rope, NoMemory>
        requires { byte_len (self.now ++ other.now) < 2 ^ 64 }
        ensures { IfOk result (λ made. made ≡ self.now ++ other.now) }
    {
        let made = self.node.tree().joined(alloc, other.node.tree())?;
        Ok(Rope {
            node: Node::of_tree(made),
        })
    }

    /// The first `to` characters, in O(height).
    pub fn front(&self, alloc: Global, to: u64) -> Result<Rope, NoMemory>
        requires { to ≤ length self.now }
        ensures { IfOk result (λ made. made ≡ take to self.now) }
    {
        let made = self.node.tree().front(alloc, to)?;
        Ok(Rope {
            node: Node::of_tree(made),
        })
    }

    /// The characters from a gap on, in O(height).
    pub fn back(&self, alloc: Global, from: u64) -> Result<Rope, NoMemory>
        requires { from ≤ length self.now }
        ensures { IfOk result (λ made. made ≡ drop from self.now) }
    {
        let made = self.node.tree().back(alloc, from)?;
        Ok(Rope {
            node: Node::of_tree(made),
        })
    }

    /// The texts of the leaves in order, in one pass.
    pub fn chunks(&self) -> Result<Chunks<'_>, NoMemory>
        ensures { IfOk result (λ chunks. flat_map (λ text. text) chunks ≡ self.now) }
    {
        Ok(Chunks::new(self.node.tree().leaves()))
    }

    /// The characters between two gaps, in O(height) and what it gives: it copies them alone.
    pub fn slice(&self, alloc: Global, from: u64, to: u64) -> Result<Text, NoMemory>
        requires ordered { from ≤ to }
        requires inside { to ≤ length self.now }
        ensures { IfOk result (λ part. part ≡ take (to - from) (drop from self.now)) }
    {
        between(alloc, self.node.tree(), from, to)
    }
}

/// The characters of a tree between two gaps, in one walk over the leaves that hold them.
fn between(alloc: Global, tree: &Tree<Chunk>, from: u64, to: u64) -> Result<Text, NoMemory>
    requires ordered { from ≤ to }
    requires inside { to ≤ length (text_of tree.now) }
    ensures { IfOk result (λ part. part ≡ take (to - from) (drop from (text_of tree.now))) }
{
    let mut text = Text::new(alloc);
    let mut left = to - from;
    let mut walk = tree.walk(from);
    while let Some((chunk, start)) = walk.next() {
        let (_, rest) = chunk.cut(start);
        let count = chunk.len() - start;
        if left <= count {
            let (part, _) = split_at_gap(rest, left);
            text.push_str(part)?;
            return Ok(text);
        }
        text.push_str(rest)?;
        left -= count;
    }
    Ok(text)
}

/// The leaf of a short text, or the leaves of a longer one.
fn node_of(alloc: Global, text: &Text) -> Result<Node, NoMemory>
    ensures made { IfOk result (λ node. text_of node ≡ text.now) }
    ensures characters { all_scalars text.now ≡ true }
{
    let _characters = text.as_str();
    if text.byte_len() <= 1024 {
        return Node::leaf(alloc, text.copy(alloc)?);
    }
    Ok(Node::of_tree(tree_of(alloc, text)?))
}

/// The tree of a text, in one pass.
fn tree_of(alloc: Global, text: &Text) -> Result<Tree<Chunk>, NoMemory>
    ensures { IfOk result (λ tree. text_of tree ≡ text.now) }
{
    let mut tree = Tree::new(alloc);
    if text.byte_len() == 0 {
        return Ok(tree);
    }
    let mut rest = text.as_str();
    let mut left = text.char_count();
    while left > 0 {
        let count = fitting(rest);
        let (front, back) = split_at_gap(rest, count);
        let chunk = Chunk::new(Text::from_str(alloc, front)?);
        tree.push_leaf(alloc, chunk)?;
        rest = back;
        left -= count;
    }
    Ok(tree)
}

/// How many characters stand in the first 1,024 bytes.
fn fitting(text: &str) -> u64
    ensures inside { result ≤ length (chars text.now) }
    ensures short { byte_len (take result (chars text.now)) ≤ 1024 }
    ensures some { 0 < length (chars text.now) → 0 < result }
{
    let mut gap: u64 = 0;
    let mut place: u64 = 0;
    for c in text.chars() {
        place += c.len_utf8() as u64;
        if place > 1024 {
            return gap;
        }
        gap += 1;
    }
    gap
}
