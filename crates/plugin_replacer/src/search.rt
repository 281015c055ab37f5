//! What is looked for, and where it was looked for.

ghost use Rattle.std.specs.Prelude.{◌≡◌, [], OnOk, OnErr};
ghost use Rattle.plugin_replacer.specs.Replacing.{edits, edits_of, is_one_of, is_to_search, searched_all, searched_with};
ghost use Rattle.plugin_replacer.specs.Turns.{Puts, PutsFirst, in_utf8};

use crate::edit::put_edit;
use plain_text::{NoMemory, Text, Texts, TryClone};
use plugin_mirror::Leaf;
use regex_find::Spot;
use std::alloc::Global;
use std::marker::Model;

/// What is looked for, what comes in its place, and the views whose texts were searched.
#[derive(Drop)]
pub struct Search<M: Spot> {
    spot: M,
    with: Text,
    searched: Texts,
    alloc: Global,
}

impl<M: Spot> Model for Search<M> {
    ghost use Rattle.plugin_replacer.specs.Turns.{Searching};

    ghost Value = { Searching M };

    ghost view = { λ s. record { spot = s.spot; new = s.with; searched = s.searched } };
}

impl<M: Spot> Search<M> {
    /// It takes no memory before it looks at a page.
    pub fn new(alloc: Global, spot: M, with: Text) -> Search<M>
        ensures spot { result.spot ≡ spot }
        ensures new { result.new ≡ with }
        ensures searched { result.searched ≡ [] }
    {
        Search {
            spot,
            with,
            searched: Texts::new(alloc),
            alloc,
        }
    }

    /// Searches the pages that are due, and puts the lines of their edits at the end.
    pub fn pages(&mut self, leaves: &[Leaf], given: &mut Texts) -> Result<(), NoMemory>
        ensures found { M.found_in self.new.spot ≡ M.found_in self.old.spot }
        ensures new { self.new.new ≡ self.old.new }
        ensures searched { OnOk result (self.new.searched ≡ searched_all self.old.searched leaves.now) }
        ensures all { OnOk result (Puts (edits (M.found_in self.old.spot) self.old.new self.old.searched leaves.now)
            (in_utf8 given.old) (in_utf8 given.new)) }
        ensures first { OnErr result (PutsFirst (edits (M.found_in self.old.spot) self.old.new self.old.searched leaves.now)
            (in_utf8 given.old) (in_utf8 given.new)) }
    {
        for leaf in leaves {
            self.page(leaf, given)?;
        }
        Ok(())
    }

    /// Searches one page, if it is due.
    fn page(&mut self, leaf: &Leaf, given: &mut Texts) -> Result<(), NoMemory>
        ensures found { M.found_in self.new.spot ≡ M.found_in self.old.spot }
        ensures new { self.new.new ≡ self.old.new }
        ensures searched { OnOk result (self.new.searched ≡ searched_with self.old.searched leaf.now) }
        ensures all { OnOk result (Puts (edits_of (M.found_in self.old.spot) self.old.new self.old.searched leaf.now)
            (in_utf8 given.old) (in_utf8 given.new)) }
        ensures none { OnErr result (given.new ≡ given.old) }
    {
        if !is_to_search(&self.searched, leaf) {
            return Ok(());
        }
        let runs = self.spot.spots(&leaf.page.text)?;
        let view = leaf.view.copy(self.alloc)?;
        self.searched.push(view)?;
        put_edit(self.alloc, leaf, &runs, &self.with, given)
    }
}

fn is_to_search(searched: &Texts, leaf: &Leaf) -> bool
    ensures { result ≡ is_to_search searched.now leaf.now }
{
    leaf.page.whole && !is_one_of(searched.as_slice(), &leaf.view)
}

fn is_one_of(views: &[Text], view: &Text) -> bool
    ensures { result ≡ is_one_of views.now view.now }
{
    for other in views {
        if other == view {
            return true;
        }
    }
    false
}
