//! Runs steps that are drawn from seeds.

ghost use Rattle.std.specs.Prelude.{◌<◌};

use crate::bodies::last_group;
use crate::refusal::{Refusal, has_edit, now_undone};
use crate::run::{Count, Run};
use anyhow::{Context, Result};
use plain_collection::{clean_floor, is_at_rest};
use plain_edits::{Delta, El, Els};
use plain_history::{PlainHistory, has};
use plain_text::{List, NoMemory, Text};
use rand_core::{Rng, SeedableRng};
use rand_pcg::Lcg64Xsh32;
use rev_engine::Edit;
use std::alloc::Global;

/// The lists up to this seed have edits alone, and so many; those of later seeds have so many steps of every kind.
const EDITED: u64 = 16;

const EDITS: u64 = 30;

const STEPS: u64 = 40;

/// Of 1 to 4 bytes.
const CHARACTERS: [char; 8] = ['a', 'b', 'c', '\n', 'é', 'ß', '→', '𝄞'];

/// How many steps of some kinds were drawn.
#[derive(Drop, Default)]
pub struct Drawn {
    pub undos: u64,
    /// Undos without a group that was undone before.
    pub taken_back: u64,
    pub edits_in_undone_groups: u64,
    /// Edits in a group that has one.
    pub further_edits: u64,
    /// Edits that may not come.
    pub edits_of_collected_groups: u64,
    pub refused_undos: u64,
    pub collections: u64,
    pub collections_below_the_head: u64,
    /// Their floors lie below the present one.
    pub refused_collections: u64,
}

fn rise(count: &mut u64, is_so: bool) {
    *count = count.saturating_add(u64::from(is_so));
}

/// Numbers from a seed.
#[derive(Drop)]
struct Draws {
    alloc: Global,
    words: Lcg64Xsh32,
}

/// Runs a text, and steps over it, that a seed draws.
pub fn run_seed(alloc: Global, seed: u64, drawn: &mut Drawn) -> Result<Count> {
    let mut run = Run::new(alloc)?;
    take_seed(&mut run, seed, drawn)
}

fn take_seed(run: &mut Run, seed: u64, drawn: &mut Drawn) -> Result<Count> {
    let mut draws = Draws {
        alloc: run.alloc,
        words: Lcg64Xsh32::seed_from_u64(seed),
    };
    let text = draws.text(6)?;
    run.load(&text)?;
    for number in 1..=if seed <= EDITED { EDITS } else { STEPS } {
        take_numbered(run, &mut draws, drawn, seed, number)?;
    }
    Ok(run.count)
}

fn take_numbered(
    run: &mut Run,
    draws: &mut Draws,
    drawn: &mut Drawn,
    seed: u64,
    number: u64,
) -> Result<()> {
    take_step(run, draws, drawn, seed).context(format_args!("step {number}"))
}

fn take_step(run: &mut Run, draws: &mut Draws, drawn: &mut Drawn, seed: u64) -> Result<()> {
    let kind = if seed <= EDITED { 0 } else { draws.below(10) };
    match kind {
        0..=6 => take_edit(run, draws, drawn),
        7 | 8 => take_undo(run, draws, drawn),
        _ => take_collection(run, draws, drawn),
    }
}

fn take_edit(run: &mut Run, draws: &mut Draws, drawn: &mut Drawn) -> Result<()> {
    let edit = draws.edit(&run.plain)?;
    let is_undone = has(now_undone(&run.plain), edit.group);
    let is_further = has_edit(&run.plain, edit.group);
    let answer = run.edit(&edit)?;
    let is_closed = answer == Some(Refusal::Closed);
    rise(&mut drawn.edits_of_collected_groups, is_closed);
    rise(
        &mut drawn.edits_in_undone_groups,
        answer.is_none() && is_undone,
    );
    rise(&mut drawn.further_edits, answer.is_none() && is_further);
    Ok(())
}

/// An undo of any set: a group with an edit is in it or not. Of the collected groups it mostly has those that are undone.
fn take_undo(run: &mut Run, draws: &mut Draws, drawn: &mut Drawn) -> Result<()> {
    let groups = draws.undone(&run.plain)?;
    let mut before = now_undone(&run.plain).iter();
    let takes_back = before.any(|group| !has(groups.as_slice(), *group));
    let answer = run.undo(&groups)?;
    rise(&mut drawn.undos, answer.is_none());
    rise(&mut drawn.taken_back, answer.is_none() && takes_back);
    rise(&mut drawn.refused_undos, answer.is_some());
    Ok(())
}

/// A collection of some of the groups that have an edit and are at rest at a clean floor, from the present one to the head; it may collect
/// none and raise the floor alone.
fn take_collection(run: &mut Run, draws: &mut Draws, drawn: &mut Drawn) -> Result<()> {
    let retired = draws.retired(&run.plain)?;
    let most = run.plain.head().saturating_sub(draws.back());
    let floor = clean_floor(&run.plain, most);
    let groups = resting(run.alloc, &run.plain, retired.as_slice(), floor)?;
    let is_below = floor < run.plain.head();
    let answer = run.collect(floor, groups.as_slice())?;
    rise(&mut drawn.collections, answer.is_none());
    rise(
        &mut drawn.collections_below_the_head,
        answer.is_none() && is_below,
    );
    rise(&mut drawn.refused_collections, answer.is_some());
    Ok(())
}

/// Those of the groups that are at rest at the floor.
fn resting(
    alloc: Global,
    plain: &PlainHistory,
    groups: &[u64],
    floor: u64,
) -> Result<List<u64>, NoMemory> {
    let mut resting = List::new(alloc);
    for group in groups {
        if is_at_rest(plain, floor, *group) {
            resting.push(*group)?;
        }
    }
    Ok(resting)
}

impl Draws {
    /// How far behind the head a floor lies at most: at the head itself every second time.
    fn back(&mut self) -> u64 {
        if self.below(2) == 0 {
            return 0;
        }
        self.below(8)
    }

    /// A number below `n`.
    fn below(&mut self, n: u64) -> u64
        requires { 0 < n }
        ensures { result < n }
    {
        u64::from(self.words.next_u32()) % n
    }

    fn text(&mut self, count: u64) -> Result<Text, NoMemory> {
        let mut text = Text::new(self.alloc);
        for _ in 0..count {
            let character = CHARACTERS.get(self.below(8) as usize);
            text.push(*character.unwrap_or(&'a'))?;
        }
        Ok(text)
    }

    fn undone(&mut self, plain: &PlainHistory) -> Result<List<u64>, NoMemory> {
        let mut groups = List::new(self.alloc);
        for group in 1..=last_group(plain) {
            let is_in = if has(plain.collected(), group) {
                has(now_undone(plain), group) != (self.below(24) == 0)
            } else {
                has_edit(plain, group) && self.below(3) == 0
            };
            if is_in {
                groups.push(group)?;
            }
        }
        Ok(groups)
    }

    fn retired(&mut self, plain: &PlainHistory) -> Result<List<u64>, NoMemory> {
        let mut groups = List::new(self.alloc);
        for group in 1..=last_group(plain) {
            if has_edit(plain, group) && self.below(3) == 0 {
                groups.push(group)?;
            }
        }
        Ok(groups)
    }

    /// An edit against one of the last revisions, and now and then against one that is collected or not there, or of a collected group.
    fn edit(&mut self, plain: &PlainHistory) -> Result<Edit, NoMemory> {
        let head = plain.head();
        let mut rev = if self.below(16) == 0 {
            head.saturating_add(1)
        } else {
            head.saturating_sub(self.below(8))
        };
        if rev < plain.floor() && self.below(4) > 0 {
            rev = plain.floor();
        }
        let text = plain.text_at(self.alloc, rev)?;
        Ok(Edit {
            rev,
            group: self.group(plain),
            priority: self.below(3) as u32,
            author: self.below(2) as u32,
            after_cursor: false,
            delta: self.delta(&text)?,
        })
    }

    /// One of the last four groups, and now and then the last collected one.
    fn group(&mut self, plain: &PlainHistory) -> u64 {
        match plain.collected().last() {
            Some(group) if self.below(12) == 0 => *group,
            _ => last_group(plain)
                .saturating_sub(3)
                .saturating_add(self.below(4)),
        }
    }

    /// A delta over the text, and now and then one that need not fit.
    fn delta(&mut self, text: &Text) -> Result<Delta, NoMemory> {
        let mut base_len = text.byte_len();
        let els = if self.below(6) == 0 {
            self.unfit_elements(base_len)?
        } else {
            self.elements(text)?
        };
        if self.below(16) == 0 {
            base_len = base_len.saturating_add(1);
        }
        Ok(Delta { els, base_len })
    }

    /// Up to three stretches of up to three characters, each with another text in its place.
    fn elements(&mut self, text: &Text) -> Result<Els, NoMemory> {
        let mut els = List::new(self.alloc);
        let len = text.char_count();
        let mut at = 0_u64;
        for _ in 0..self.below(3).saturating_add(1) {
            let left = len.saturating_sub(at);
            let from = at.saturating_add(self.below(left.saturating_add(1)));
            els.push(copy(text.place_of(at), text.place_of(from)))?;
            let count = self.below(3);
            els.push(El::Insert {
                text: self.text(count)?,
            })?;
            at = from.saturating_add(self.below(4)).min(len);
        }
        els.push(copy(text.place_of(at), text.byte_len()))?;
        Ok(els)
    }

    /// Two copies between bytes anywhere in the text or just past it.
    fn unfit_elements(&mut self, byte_len: u64) -> Result<Els, NoMemory> {
        let mut els = List::new(self.alloc);
        let most = byte_len.saturating_add(2);
        for _ in 0..2 {
            let a = self.below(most);
            els.push(copy(a, self.below(most).max(a)))?;
        }
        Ok(els)
    }
}

fn copy(a: u64, b: u64) -> El {
    El::Copy { a, b }
}
