// An edit of a text whose matches are known: where the search for others begins, and where it comes to the old ones again.
ghost use Rattle.std.specs.Prelude.{◌≡◌, ◌≤◌, ◌⊎◌, IfOk, OnOk};
ghost use Rattle.std.specs.List.{AllByRecursion};
ghost use Rattle.match_index.specs.Edited.{after_of, IsBegun, IsChanged, IsEditing, IsMet, IsRest, IsSearched};
ghost use Rattle.match_index.specs.Inner.{strides_under, HasRuns, IsWalked};
ghost use Rattle.match_index.specs.Strides.{span};

use crate::search::{Search, Walked};
use crate::stride::Strides;
use crate::tree::{ending_by, put, stride_at};
use plain_text::{NoMemory, Run, Text};
use rope_tree::Rope;
use shared_tree::Tree;
use std::alloc::Global;

/// A text with the strides of its matches, and the text after an edit, which keeps what stands left of a gap and right of another: that is
/// `old` in the text before and `new` in the text after.
#[derive(Drop)]
pub(crate) struct Edit<'a> {
    pub before: &'a Rope,
    pub strides: &'a Tree<Strides>,
    pub after: &'a Rope,
    pub chars: &'a Text,
    pub fold: bool,
    pub front: u64,
    pub old: u64,
    pub new: u64,
}

/// Where the old matches go on: a gap, how many end by it, and where the last of these ends.
#[derive(Clone, Copy)]
pub(crate) struct Rest {
    pub gap: u64,
    pub index: u64,
    pub end: u64,
}

impl Edit<'_> {
    fn search(&self) -> Search<'_>
        ensures { result ≡ after_of self.now }
    {
        Search {
            rope: self.after,
            chars: self.chars,
            fold: self.fold,
        }
    }

    /// The strides of the matches in the text after, and the run in which the edit changed matches.
    pub(crate) fn found_after(
        &self,
        alloc: Global,
    ) -> Result<(Tree<Strides>, Option<Run>), NoMemory>
        requires { IsEditing self.now }
        ensures found { IfOk result (λ made. HasRuns (after_of self.now) (strides_under made.0)) }
        ensures changed { IfOk result (λ made. IsChanged self.now made.1) }
    {
        let (index, mut walked) = self.begun(alloc);
        let rest = self.met(alloc, &mut walked)?;
        let changed = searched(index, &walked, rest);
        let tree = self.joined(alloc, index, &mut walked, rest)?;
        Ok((tree, changed))
    }

    /// How many matches stay, and the search behind them, from the first gap on at which a match may begin that reaches the change.
    fn begun(&self, alloc: Global) -> (u64, Walked)
        requires { IsEditing self.now }
        ensures begun { IsBegun self.now result.0 result.1.from result.1.start }
        ensures walked { IsWalked (after_of self.now) result.1 }
    {
        let len = self.chars.char_count();
        let (index, last) = ending_by(self.strides, self.front);
        let start = last.max(self.front.saturating_sub(len - 1));
        (index, Walked::new(alloc, last, start))
    }

    /// Searches up to the end of the change, and on to a gap across which neither a new match stands nor an old one.
    fn met(&self, alloc: Global, walked: &mut Walked) -> Result<Rest, NoMemory>
        requires editing { IsEditing self.now }
        requires walked { IsWalked (after_of self.now) walked.old }
        ensures walked { OnOk result (IsWalked (after_of self.now) walked.new) }
        ensures same { OnOk result ((walked.new.from ≡ walked.old.from) × (walked.new.start ≡ walked.old.start)) }
        ensures met { IfOk result (λ rest. IsMet self.now walked.new.at rest) }
    {
        // The characters of both texts can be counted.
        let _before = self.before.len();
        let _after = self.after.len();
        let len = self.chars.char_count();
        let search = self.search();
        search.go_on(alloc, walked, self.new)?;
        loop {
            let gap = self.old + (walked.at - self.new);
            let rest = rest_from(self.strides, len, gap);
            if rest.gap == gap {
                return Ok(rest);
            }
            search.go_on(alloc, walked, self.new + (rest.gap - self.old))?;
        }
    }

    /// The strides that stay, those that were found, and the old ones from where they go on.
    fn joined(
        &self,
        alloc: Global,
        index: u64,
        walked: &mut Walked,
        rest: Rest,
    ) -> Result<Tree<Strides>, NoMemory>
        requires editing { IsEditing self.now }
        requires begun { IsBegun self.now index walked.old.from walked.old.start }
        requires walked { IsWalked (after_of self.now) walked.old }
        requires met { IsMet self.now walked.old.at rest }
        ensures { IfOk result (λ tree. HasRuns (after_of self.now) (strides_under tree)) }
    {
        // The characters of both texts can be counted.
        let _before = self.before.len();
        let _after = self.after.len();
        if rest.index >= self.strides.len() {
            let made = self
                .strides
                .edited(alloc, index, rest.index, &walked.strides)?;
            return Ok(made);
        }
        let next = rest.end + stride_at(self.strides, rest.index);
        let end = self.new + (next - self.old);
        let number = end - walked.last();
        put(&mut walked.strides, alloc, &[number])?;
        let made = self
            .strides
            .edited(alloc, index, rest.index + 1, &walked.strides)?;
        Ok(made)
    }
}

/// Where matches were changed: where the search went, unless no old match stands there and none was found.
fn searched(index: u64, walked: &Walked, rest: Rest) -> Option<Run>
    ensures { IsSearched index walked.now rest result }
{
    if rest.index == index && walked.strides.len() == 0 {
        return None;
    }
    Some(Run {
        start: walked.start,
        end: walked.at,
    })
}

/// The first gap from one on across which no match stands, and how many matches end by it.
fn rest_from(strides: &Tree<Strides>, len: u64, gap: u64) -> Rest
    requires { AllByRecursion (λ stride. len ≤ stride) (strides_under strides.now) }
    ensures rest { IsRest len (strides_under strides.now) result }
    ensures from { gap ≤ result.gap }
    ensures to { result.gap ≤ gap ⊎ result.gap ≤ span (strides_under strides.now) }
{
    // What the strides add up to can be counted.
    let _all = strides.summary();
    let (index, end) = ending_by(strides, gap);
    if index >= strides.len() {
        return Rest { gap, index, end };
    }
    let next = end + stride_at(strides, index);
    if next - len >= gap {
        return Rest { gap, index, end };
    }
    Rest {
        gap: next,
        index: index + 1,
        end: next,
    }
}
