ghost use Rattle.std.specs.Prelude.{◌≡◌, length, IfOk};
ghost use Rattle.plain_edits.specs.UnitDelta.{IsUnitDelta};
ghost use Rattle.delta_core.specs.Units.{text_after};
ghost use Rattle.match_index.specs.Changed.{IsChangedIn};
ghost use Rattle.match_index.specs.Found.{first_from, last_to, runs_in, touching};
ghost use Rattle.match_index.specs.Inner.{strides_under, HasRuns};

use crate::edit::Edit;
use crate::joined::joined_matches;
use crate::kept::kept_ends;
use crate::search::Search;
use crate::stride::Strides;
use crate::tree::{ending_by, run_behind};
use plain_edits::UnitDelta;
use plain_text::{NoMemory, Run, Runs, Text, TryClone};
use rope_tree::Rope;
use shared_tree::Tree;
use std::alloc::Global;
use std::marker::Model;

/// The matches of some characters in a rope, none of which overlaps the one before. Beside the rope and the characters it takes some nine
/// bytes a match.
#[derive(Drop)]
pub struct Matches {
    rope: Rope,
    chars: Text,
    fold: bool,
    strides: Tree<Strides>,
}

impl Model for Matches {
    ghost use Rattle.match_index.specs.Found.{Found};
    ghost use Rattle.match_index.specs.Inner.{strides_under, HasRuns};

    ghost Value = { Found };

    ghost view = { λ own. record { text = own.rope; chars = own.chars; fold = own.fold } };

    ghost invariant = { λ own. HasRuns (record { text = own.rope; chars = own.chars; fold = own.fold })
        (strides_under own.strides) };
}

impl Matches {
    /// The matches of the characters in a rope; none where there are no characters. With `fold` ASCII letters are equal in both cases, and
    /// no other character is. It walks the rope once, and copies a small part of it at a time. Want of memory is its only error.
    pub fn of_rope(
        alloc: Global,
        rope: &Rope,
        chars: &Text,
        fold: bool,
    ) -> Result<Matches, NoMemory>
        ensures { IfOk result (λ made. made ≡ record { text = rope.now; chars = chars.now; fold = fold }) }
    {
        let search = Search { rope, chars, fold };
        let strides = search.all(alloc)?;
        Ok(Matches {
            rope: rope.copy(alloc)?,
            chars: chars.copy(alloc)?,
            fold,
            strides,
        })
    }

    /// The matches in the text after an edit, of which the rope is that text. It costs the parts of the edit and a search around what it
    /// changes: from the last match on that ends left of that, and from where a match may reach it, up to where a match that was there
    /// goes on, and else to the text's end. The other matches are shared.
    pub fn edited(&self, alloc: Global, rope: &Rope, units: &UnitDelta) -> Result<Matches, NoMemory>
        requires well_formed { IsUnitDelta units.now }
        requires base { units.now.base ≡ length self.now.text }
        requires after { rope.now ≡ text_after units.now self.now.text }
        ensures { IfOk result (λ made. made ≡ record self.now { text = rope.now }) }
    {
        let (made, _changed) = self.edited_with_run(alloc, rope, units)?;
        Ok(made)
    }

    /// The same, and the run of the text after in which matches went or came; `None` where none did. All that the edit changed stands in
    /// the run: the other matches stay or are moved by what the text grew or shrank.
    pub fn edited_with_run(
        &self,
        alloc: Global,
        rope: &Rope,
        units: &UnitDelta,
    ) -> Result<(Matches, Option<Run>), NoMemory>
        requires well_formed { IsUnitDelta units.now }
        requires base { units.now.base ≡ length self.now.text }
        requires after { rope.now ≡ text_after units.now self.now.text }
        ensures made { IfOk result (λ made. made.0 ≡ record self.now { text = rope.now }) }
        ensures changed { IfOk result (λ made. IsChangedIn units.now self.now rope.now made.1) }
    {
        let (strides, changed) = self.strides_after(alloc, rope, units)?;
        let made = Matches {
            rope: rope.copy(alloc)?,
            chars: self.chars.copy(alloc)?,
            fold: self.fold,
            strides,
        };
        Ok((made, changed))
    }

    /// The strides of the matches in the text after an edit, and the run in which it changed matches.
    fn strides_after(
        &self,
        alloc: Global,
        rope: &Rope,
        units: &UnitDelta,
    ) -> Result<(Tree<Strides>, Option<Run>), NoMemory>
        requires well_formed { IsUnitDelta units.now }
        requires base { units.now.base ≡ length self.now.text }
        requires after { rope.now ≡ text_after units.now self.now.text }
        ensures found { IfOk result (λ made. HasRuns (record self.now { text = rope.now }) (strides_under made.0)) }
        ensures changed { IfOk result (λ made. IsChangedIn units.now self.now rope.now made.1) }
    {
        if self.chars.is_empty() {
            return Ok((Tree::new(alloc), None));
        }
        let (front, back) = kept_ends(units);
        let edit = Edit {
            before: &self.rope,
            strides: &self.strides,
            after: rope,
            chars: &self.chars,
            fold: self.fold,
            front,
            old: self.rope.len() - back,
            new: rope.len() - back,
        };
        edit.found_after(alloc)
    }

    /// The same matches, shared, in O(1) and what is looked for.
    pub fn copy(&self, alloc: Global) -> Result<Matches, NoMemory>
        ensures { IfOk result (λ made. made ≡ self.now) }
    {
        Ok(Matches {
            rope: self.rope.copy(alloc)?,
            chars: self.chars.copy(alloc)?,
            fold: self.fold,
            strides: self.strides.copy(alloc)?,
        })
    }

    pub fn rope(&self) -> &Rope
        ensures { result.now ≡ self.now.text }
    {
        &self.rope
    }

    /// How many, in O(1).
    pub fn len(&self) -> u64
        ensures { result ≡ length (runs_in self.now) }
    {
        self.strides.len()
    }

    /// The first match that starts not before a gap, in O(log n).
    pub fn first_from(&self, gap: u64) -> Option<Run>
        ensures { result ≡ first_from gap (runs_in self.now) }
    {
        // What the strides add up to can be counted.
        let _all = self.strides.summary();
        let len = self.chars.char_count();
        let (index, end) = ending_by(&self.strides, gap.saturating_add(len.saturating_sub(1)));
        run_behind(&self.strides, len, index, end)
    }

    /// The last match that ends not after a gap, in O(log n).
    pub fn last_to(&self, gap: u64) -> Option<Run>
        ensures { result ≡ last_to gap (runs_in self.now) }
    {
        let (index, end) = ending_by(&self.strides, gap);
        if index == 0 {
            return None;
        }
        Some(Run {
            start: end - self.chars.char_count(),
            end,
        })
    }

    /// The matches that have a character of a run, joined where one starts at the end of another. It takes O(log n) for each.
    pub fn touching(&self, alloc: Global, run: Run) -> Result<Runs, NoMemory>
        ensures { IfOk result (λ runs. runs ≡ touching run (runs_in self.now)) }
    {
        joined_matches(alloc, &self.strides, self.chars.char_count(), run)
    }
}
