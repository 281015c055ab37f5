ghost use Rattle.std.specs.Prelude.{◌≡◌, ◌+◌, ◌^◌, ◌<◌, ◌≤◌, [], length, map, IfOk, OnOk};
ghost use Rattle.find_core.specs.Laws.{further};
ghost use Rattle.match_index.specs.Inner.{strides_from, strides_under, window_end, EndsRise, HasRuns, IsWalked};
ghost use Rattle.match_index.specs.Strides.{span};

use crate::stride::Strides;
use crate::tree::put;
use find_core::matches;
use plain_text::{NoMemory, Run, Text};
use rope_tree::Rope;
use shared_tree::Tree;
use std::alloc::Global;
use std::marker::Model;

/// So many gaps are looked at with one copy of what stands there.
const WINDOW: u64 = 65_536;

/// A rope, and what is looked for in it.
#[derive(Drop)]
pub(crate) struct Search<'a> {
    pub rope: &'a Rope,
    pub chars: &'a Text,
    pub fold: bool,
}

impl<'a> Model for Search<'a> {
    ghost use Rattle.match_index.specs.Found.{Found};

    ghost Value = { Found };

    ghost view = { λ own. record { text = own.rope.now; chars = own.chars.now; fold = own.fold } };
}

/// How far a search has come from a gap on: the strides of the matches that it found, of which the first is one from the end of the match
/// before, and the gap up to which none more begins.
#[derive(Drop)]
pub(crate) struct Walked {
    pub from: u64,
    pub start: u64,
    pub strides: Tree<Strides>,
    pub at: u64,
}

impl Walked {
    /// A search from a gap on, where the match before ends at another.
    pub(crate) fn new(alloc: Global, from: u64, start: u64) -> Walked
        ensures { result ≡ record { from = from; start = start; strides = record { leaves = []; height = 0 }; at = start } }
    {
        Walked {
            from,
            start,
            strides: Tree::new(alloc),
            at: start,
        }
    }

    /// Where the last match ends.
    pub(crate) fn last(&self) -> u64
        requires { self.now.from + span (strides_under self.now.strides) < 2 ^ 64 }
        ensures { result ≡ self.now.from + span (strides_under self.now.strides) }
    {
        self.from + self.strides.summary().chars
    }
}

impl Search<'_> {
    /// The strides of all matches; none where there are no characters.
    pub(crate) fn all(&self, alloc: Global) -> Result<Tree<Strides>, NoMemory>
        ensures { IfOk result (λ tree. HasRuns self.now (strides_under tree)) }
    {
        if self.chars.is_empty() {
            return Ok(Tree::new(alloc));
        }
        let mut walked = Walked::new(alloc, 0, 0);
        self.go_on(alloc, &mut walked, self.rope.len())?;
        Ok(walked.strides)
    }

    /// Goes on up to a gap, and to the end of a match that stands across it.
    pub(crate) fn go_on(&self, alloc: Global, walked: &mut Walked, to: u64) -> Result<(), NoMemory>
        requires some { 0 < length self.now.chars }
        requires inside { to ≤ length self.now.text }
        requires walked { IsWalked self.now walked.old }
        ensures walked { OnOk result (IsWalked self.now walked.new) }
        ensures reached { OnOk result (to ≤ walked.new.at) }
        ensures ahead { OnOk result (walked.old.at ≤ walked.new.at) }
        ensures same { OnOk result ((walked.new.from ≡ walked.old.from) × (walked.new.start ≡ walked.old.start)) }
    {
        while walked.at < to {
            let stop = to.min(walked.at.saturating_add(WINDOW));
            self.look(alloc, walked, stop)?;
        }
        Ok(())
    }

    /// Looks for the matches that begin before a gap, in a copy of what stands there.
    fn look(&self, alloc: Global, walked: &mut Walked, to: u64) -> Result<(), NoMemory>
        requires some { 0 < length self.now.chars }
        requires inside { to ≤ length self.now.text }
        requires ahead { walked.old.at < to }
        requires walked { IsWalked self.now walked.old }
        ensures walked { OnOk result (IsWalked self.now walked.new) }
        ensures reached { OnOk result (to ≤ walked.new.at) }
        ensures same { OnOk result ((walked.new.from ≡ walked.old.from) × (walked.new.start ≡ walked.old.start)) }
    {
        // The text's characters can be counted.
        let _count = self.rope.len();
        let window = self.rope.slice(alloc, walked.at, self.window_end(to))?;
        let runs = matches(alloc, &window, self.chars, self.fold)?;
        let numbers = numbers_of(alloc, runs.as_slice(), walked.at - walked.last())?;
        put(&mut walked.strides, alloc, &numbers)?;
        walked.at = to.max(walked.last());
        Ok(())
    }

    /// The end of what has to be looked at for the matches that begin before a gap.
    fn window_end(&self, to: u64) -> u64
        requires some { 0 < length self.now.chars }
        ensures { result ≡ window_end self.now to }
    {
        to.saturating_add(self.chars.char_count() - 1)
            .min(self.rope.len())
    }
}

/// The strides of runs of a text that begins so many characters behind the end of the run before them.
fn numbers_of(alloc: Global, runs: &[Run], ahead: u64) -> Result<Vec<u64>, NoMemory>
    requires { EndsRise ahead 0 runs.now }
    ensures { IfOk result (λ numbers. numbers.items ≡ strides_from 0 (map (further ahead) runs.now)) }
{
    let mut numbers = Vec::with_capacity(alloc, runs.len())?;
    let mut last: u64 = 0;
    for run in runs {
        let end = run.end + ahead;
        numbers.push(end - last)?;
        last = end;
    }
    Ok(numbers)
}
