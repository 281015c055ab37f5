// What a collection reads of a text, and makes of it.
ghost use Rattle.std.specs.Prelude.{◌≡◌, ℕ, ◌≤◌, [], Some, IfOk, IfSome, IsTrue, unwrap_or};
ghost use Rattle.std.specs.Arc.{arc_value};
ghost use Rattle.plain_edits.specs.Collection.{collected_at, resting_groups};
ghost use Rattle.plain_edits.specs.History.{History, head};
ghost use Rattle.rev_collect.specs.Choice.{collection_said};
ghost use Rattle.rev_engine.specs.Asked.{IsCollectionTaken};
ghost use Rattle.rev_engine.specs.Engine.{StandsFor};
ghost use Rattle.doc_text.specs.Collecting.{collected_text, collection_after, least_acknowledged, with_collection};
ghost use Rattle.doc_text.specs.Writing.{Writing};
ghost use Rattle.doc_text.specs.InMemory.{text_in};
ghost use Rattle.doc_text.specs.Inner.{MayCollectIn};
ghost use Rattle.doc_text.specs.Stands.{IsTextOf, TextStandsFor};

use crate::text::TextState;
use edit_groups::{forgetting, retired_groups};
use plain_text::NoMemory;
use rev_engine::Engine;
use std::alloc::Global;
use std::collections::BTreeSet;
use std::sync::Arc;
use undo_groups::Stack;

impl TextState {
    /// The text in which what may be collected is collected, or `None` where that is nothing.
    pub fn collected(&self, alloc: Global) -> Result<Option<TextState>, NoMemory>
        ensures stands { (plain : Writing) → IsTextOf self.now plain
            → IfOk result (λ made. TextStandsFor (unwrap_or made self.now) (collected_text plain)) }
        ensures shown { IfOk result (λ made. text_in (unwrap_or made self.now) ≡ text_in self.now) }
        ensures sessions { IfOk result (λ made. (unwrap_or made self.now).sessions ≡ self.now.sessions) }
    {
        match self.collectable(alloc)? {
            Some((floor, groups)) => Ok(Some(self.without(alloc, floor, &groups)?)),
            None => Ok(None),
        }
    }

    // What is collected now, if anything: the groups of a floor. That is nothing where no group is retired, or where the oldest retired one
    // begins after what was acknowledged: then it costs the logarithm of the number of groups. No session has acknowledged less than the
    // floor.
    fn collectable(&self, alloc: Global) -> Result<Option<(u64, BTreeSet<u64>)>, NoMemory>
        ensures found { (plain : Writing) → IsTextOf self.now plain
            → IfOk result (λ found. collection_said found ≡ collection_after plain) }
        ensures may { IfOk result (λ found. IfSome found (λ some. MayCollectIn self.now some.0 some.1.keys)) }
    {
        let engine = &*self.engine;
        let least = self.sessions.least(engine.head());
        if !self.stack.has_retired() || least < engine.floor() {
            return Ok(None);
        }
        if self.all_begin_after(least) {
            return Ok(None);
        }
        let retired = retired_groups(alloc, &self.stack)?;
        engine.collectable(alloc, least, &retired)
    }

    // Whether the oldest retired group has its first edit after this revision, from the floor on. Then so has each of them, since groups
    // are given out in the order of their first edits.
    fn all_begin_after(&self, rev: u64) -> bool
        requires { self.now.engine.revisions.floor ≤ rev }
        ensures { (plain : Writing) → IsTextOf self.now plain → IsTrue result
            → (floor : ℕ) → floor ≤ rev → resting_groups plain.history plain.groups.retired floor ≡ [] }
    {
        match self.stack.retired(0) {
            Some(oldest) => self.engine.begins_after(oldest, rev),
            None => false,
        }
    }

    // The text after a collection, which the engine makes and the stack too.
    fn without(
        &self,
        alloc: Global,
        floor: u64,
        groups: &BTreeSet<u64>,
    ) -> Result<TextState, NoMemory>
        requires { MayCollectIn self.now floor groups.now.keys }
        ensures stands { (plain : Writing) → IsTextOf self.now plain
            → floor ≤ least_acknowledged (head plain.history) plain.sessions → IfOk result (λ made.
            IsTextOf made (with_collection plain (Some (record { floor = floor; groups = groups.now.keys })))) }
        ensures shown { IfOk result (λ made. text_in made ≡ text_in self.now) }
        ensures sessions { IfOk result (λ made. made.sessions ≡ self.now.sessions) }
    {
        let engine = collecting(alloc, &self.engine, floor, groups)?;
        let stack = forgetting(alloc, &self.stack, groups)?;
        Ok(TextState {
            engine,
            stack,
            typing: self.typing,
            saved: self.saved,
            sessions: self.sessions.copy(alloc)?,
        })
    }
}

// A copy of the engine, which these groups are collected from at the floor.
fn collecting(
    alloc: Global,
    engine: &Engine,
    floor: u64,
    groups: &BTreeSet<u64>,
) -> Result<Arc<Engine, Global>, NoMemory>
    requires { IsCollectionTaken engine.now.revisions floor groups.now.keys }
    ensures stands { (history : History) → StandsFor engine.now history
        → IfOk result (λ made. StandsFor (arc_value made) (collected_at history floor groups.now.keys)) }
    ensures limit { IfOk result (λ made. (arc_value made).limit ≡ engine.now.limit) }
{
    let mut made = engine.copy(alloc)?;
    made.collect(alloc, floor, groups)?;
    Ok(Arc::new(alloc, made)?)
}
