ghost use Rattle.std.specs.Prelude.{◌≡◌, ◌+◌, ◌^◌, ◌<◌, ◌≤◌, ◌↔◌, true, length, IfOk, IfSome, IsNone, OnOk};
ghost use Rattle.std.specs.Str.{all_scalars};
ghost use Rattle.plain_text.specs.Lines.{logical_lines};
ghost use Rattle.plain_edits.specs.UnitDelta.{IsUnitDelta};
ghost use Rattle.delta_core.specs.Units.{text_after};
ghost use Rattle.line_index.specs.Index.{pieces_in, touched_lines};
ghost use Rattle.line_index.specs.Inner.{cuts_before};
ghost use Rattle.line_index.specs.Whole.{point_of};

use crate::cut::Cuts;
use crate::cutting::Cutting;
use crate::offsets::{lf_count, line_at, line_start, place_of};
use crate::touched::touched_lines;
use crate::tree::{index_at, piece_at};
use plain_edits::UnitDelta;
use plain_screen::{Piece, TextView};
use plain_text::{NoMemory, Run, Steps, Text};
use rope_tree::Rope;
use shared_tree::Tree;
use std::alloc::Global;
use std::marker::Model;
use std::sync::ledger::Ledger;

/// A rope whose lines are wrapped, and a tree of the cuts of its pieces.
#[derive(Drop)]
pub(crate) struct WrappedLines {
    rope: Rope,
    width: u32,
    tab: u32,
    cuts: Tree<Cuts>,
}

impl Model for WrappedLines {
    ghost use Rattle.line_index.specs.Index.{Index};
    ghost use Rattle.line_index.specs.Inner.{cuts_under, HasCuts};

    ghost Value = { Index };

    ghost view = { λ own. record { text = own.rope; width = own.width; tab = own.tab } };

    ghost invariant = { λ own. HasCuts own.width own.tab own.rope (cuts_under own.cuts) };
}

/// Whether the pieces of a rope can be counted with 64 bits, as long as there may be one more for each line.
fn check_length(rope: &Rope) -> Result<(), NoMemory>
    ensures small { OnOk result (length rope.now < 2 ^ 63) }
    ensures characters { all_scalars rope.now ≡ true }
{
    if rope.len() > u64::MAX / 2 {
        return Err(NoMemory);
    }
    Ok(())
}

impl WrappedLines {
    pub(crate) fn of_rope<L: Ledger>(
        alloc: Global,
        rope: &Rope,
        width: u32,
        tab: u32,
        steps: &mut Steps<L>,
    ) -> Result<WrappedLines, NoMemory>
        requires { 0 < width }
        ensures made { IfOk result (λ made. made ≡ record { text = rope.now; width = width; tab = tab }) }
        ensures ticks { steps.new ≤ steps.old + length (logical_lines rope.now) }
    {
        check_length(rope)?;
        let cutting = Cutting { rope, width, tab };
        let cuts = cutting.cuts(alloc, 0, lf_count(rope) + 1, steps)?;
        Ok(WrappedLines {
            rope: rope.copy(alloc)?,
            width,
            tab,
            cuts,
        })
    }

    /// How many characters, in O(1).
    pub(crate) fn len(&self) -> u64
        ensures count { result ≡ length self.now.text }
        ensures bound { length self.now.text + 1 < 2 ^ 64 }
    {
        self.rope.len()
    }

    pub(crate) fn copy(&self, alloc: Global) -> Result<WrappedLines, NoMemory>
        ensures { IfOk result (λ made. made ≡ self.now) }
    {
        Ok(WrappedLines {
            rope: self.rope.copy(alloc)?,
            width: self.width,
            tab: self.tab,
            cuts: self.cuts.copy(alloc)?,
        })
    }

    pub(crate) fn rope(&self) -> &Rope
        ensures { result.now ≡ self.now.text }
    {
        &self.rope
    }

    /// The width, which is not 0.
    pub(crate) fn width(&self) -> u32
        ensures value { result ≡ self.now.width }
        ensures wraps { 0 < result }
    {
        self.width
    }

    /// The lines from that of the first change to that of the last are broken, and their cuts stand in place of the old ones.
    pub(crate) fn edited<L: Ledger>(
        &self,
        alloc: Global,
        rope: &Rope,
        units: &UnitDelta,
        steps: &mut Steps<L>,
    ) -> Result<WrappedLines, NoMemory>
        requires well_formed { IsUnitDelta units.now }
        requires base { units.now.base ≡ length self.now.text }
        requires after { rope.now ≡ text_after units.now self.now.text }
        ensures made { IfOk result (λ made. made ≡ record self.now { text = rope.now }) }
        ensures ticks { steps.new ≤ steps.old + touched_lines units.now self.now.text }
    {
        check_length(rope)?;
        let lines = touched_lines(&self.rope, rope, units);
        let cutting = Cutting {
            rope,
            width: self.width,
            tab: self.tab,
        };
        let come = cutting.cuts(alloc, lines.from, lines.new, steps)?;
        let first = self.cuts_before(lines.from);
        let past = self.cuts_before(lines.old);
        let cuts = self.cuts.edited(alloc, first, past, &come)?;
        Ok(WrappedLines {
            rope: rope.copy(alloc)?,
            width: self.width,
            tab: self.tab,
            cuts,
        })
    }

    /// How many cuts stand before a logical line.
    fn cuts_before(&self, line: u64) -> u64
        requires { line ≤ length (logical_lines self.now.text) }
        ensures { result ≡ cuts_before self.now.width self.now.tab self.now.text line }
    {
        if line > lf_count(&self.rope) {
            return self.cuts.len();
        }
        index_at(&self.cuts, line_start(&self.rope, line))
    }

    pub(crate) fn locate(&self, gap: u64) -> Option<(u64, u64)>
        ensures some { IfSome result (λ point. point ≡ point_of self.now.text (pieces_in self.now) gap) }
        ensures none { IsNone result ↔ (length self.now.text < gap) }
    {
        if gap > self.rope.len() {
            return None;
        }
        let line = index_at(&self.cuts, gap);
        let start = piece_at(&self.cuts, line).start;
        Some((
            line,
            place_of(&self.rope, gap) - place_of(&self.rope, start),
        ))
    }
}

impl TextView for WrappedLines {
    ghost use Rattle.line_index.specs.Index.{pieces_in};

    ghost text_of = { λ own. own.text };

    ghost pieces_of = { λ own. pieces_in own };

    fn lines(&self) -> u64 {
        self.cuts.len()
    }

    fn line(&self, i: u64) -> Option<Piece> {
        if i >= self.cuts.len() {
            return None;
        }
        Some(piece_at(&self.cuts, i))
    }

    fn line_of(&self, gap: u64) -> u64 {
        index_at(&self.cuts, gap)
    }

    fn logical_of(&self, line: u64) -> Run {
        let start = piece_at(&self.cuts, line).start;
        let index = line_at(&self.rope, start);
        Run {
            start: line_start(&self.rope, index),
            end: line_start(&self.rope, index + 1),
        }
    }

    fn text(&self, alloc: Global, from: u64, to: u64) -> Result<Text, NoMemory> {
        self.rope.slice(alloc, from, to)
    }
}
