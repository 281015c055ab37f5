ghost use Rattle.std.specs.Prelude.{◌≡◌};
ghost use Rattle.std.specs.Iterator.{YieldsFirstRef, item_count};

use plain_text::Text;
use rope_node::Chunk;
use shared_tree::Leaves;
use std::marker::Model;

/// The texts of a rope's leaves that are still to come, in order. A step copies nothing and takes no memory.
#[derive(Drop)]
pub struct Chunks<'a> {
    leaves: Leaves<'a, Chunk>,
}

impl<'a> Model for Chunks<'a> {
    ghost use Rattle.std.specs.Prelude.{ℕ, List};

    ghost Value = { List (List ℕ) };

    ghost view = { λ chunks. chunks.leaves };
}

impl<'a> Chunks<'a> {
    pub(crate) fn new(leaves: Leaves<'a, Chunk>) -> Chunks<'a>
        ensures { result ≡ leaves.entry }
    {
        Chunks { leaves }
    }
}

impl<'a> Iterator for Chunks<'a> {
    type Item = &'a Text;

    ghost next_gives = { YieldsFirstRef (λ texts. texts) };

    ghost remaining = { item_count (λ texts. texts) };

    fn next(&mut self) -> Option<&'a Text> {
        let chunk = self.leaves.next()?;
        Some(chunk.text())
    }
}
