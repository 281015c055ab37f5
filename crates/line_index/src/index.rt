ghost use Rattle.std.specs.Prelude.{◌≡◌, ◌+◌, ◌^◌, ◌<◌, ◌≤◌, ◌↔◌, length, IfOk, IfSome, IsNone};
ghost use Rattle.plain_text.specs.Lines.{logical_lines};
ghost use Rattle.plain_edits.specs.UnitDelta.{IsUnitDelta};
ghost use Rattle.delta_core.specs.Units.{text_after};
ghost use Rattle.line_index.specs.Index.{pieces_in, touched_lines};
ghost use Rattle.line_index.specs.Whole.{point_of};

use crate::whole::WholeLines;
use crate::wrapped::WrappedLines;
use plain_edits::UnitDelta;
use plain_screen::{Piece, TextView};
use plain_text::{NoMemory, Run, Steps, Text};
use rope_tree::Rope;
use std::alloc::Global;
use std::marker::Model;
use std::sync::ledger::Ledger;

/// A rope that is cut into the lines of a layout. Beside the rope it takes no memory where the width is 0, and else some ten bytes a
/// line.
#[derive(Drop)]
pub struct LineIndex {
    how: How,
}

/// How the pieces are found: by the LFs of the rope, or in a tree of cuts.
#[derive(Drop)]
enum How {
    Whole { lines: WholeLines, tab: u32 },
    Wrapped(WrappedLines),
}

impl Model for LineIndex {
    ghost use Rattle.line_index.specs.Index.{Index};
    ghost use Rattle.line_index.specs.How.{index_of};

    ghost Value = { Index };

    ghost view = { λ own. index_of own.how };
}

impl LineIndex {
    /// The lines of a rope at this width (0: none is wrapped) and tab width. It makes a tick a logical line that is wrapped. Want of memory is
    /// its only error; a rope of 2^63 characters counts as such.
    pub fn of_rope<L: Ledger>(
        alloc: Global,
        rope: &Rope,
        width: u32,
        tab: u32,
        steps: &mut Steps<L>,
    ) -> Result<LineIndex, NoMemory>
        ensures made { IfOk result (λ made. made ≡ record { text = rope.now; width = width; tab = tab }) }
        ensures ticks { steps.new ≤ steps.old + length (logical_lines rope.now) }
        ensures none { width ≡ 0 → steps.new ≡ steps.old }
    {
        if width == 0 {
            let lines = WholeLines::of_rope(alloc, rope)?;
            return Ok(LineIndex {
                how: How::Whole { lines, tab },
            });
        }
        let lines = WrappedLines::of_rope(alloc, rope, width, tab, steps)?;
        Ok(LineIndex {
            how: How::Wrapped(lines),
        })
    }

    /// The lines of the text after an edit, of which the rope is that text. It costs the lines that the edit touches and the height of the
    /// rope: these lines are broken anew, with a tick each, and all that stands left and right of them is shared. With width 0 no line is.
    pub fn edited<L: Ledger>(
        &self,
        alloc: Global,
        rope: &Rope,
        units: &UnitDelta,
        steps: &mut Steps<L>,
    ) -> Result<LineIndex, NoMemory>
        requires well_formed { IsUnitDelta units.now }
        requires base { units.now.base ≡ length self.now.text }
        requires after { rope.now ≡ text_after units.now self.now.text }
        ensures made { IfOk result (λ made. made ≡ record self.now { text = rope.now }) }
        ensures ticks { steps.new ≤ steps.old + touched_lines units.now self.now.text }
        ensures none { self.now.width ≡ 0 → steps.new ≡ steps.old }
    {
        match &self.how {
            How::Whole { lines: _, tab } => {
                let lines = WholeLines::of_rope(alloc, rope)?;
                Ok(LineIndex {
                    how: How::Whole { lines, tab: *tab },
                })
            }
            How::Wrapped(lines) => {
                let _wraps = lines.width();
                let lines = lines.edited(alloc, rope, units, steps)?;
                Ok(LineIndex {
                    how: How::Wrapped(lines),
                })
            }
        }
    }

    /// The same lines, in O(1).
    pub fn copy(&self, alloc: Global) -> Result<LineIndex, NoMemory>
        ensures { IfOk result (λ made. made ≡ self.now) }
    {
        match &self.how {
            How::Whole { lines, tab } => Ok(LineIndex {
                how: How::Whole {
                    lines: lines.copy(alloc)?,
                    tab: *tab,
                },
            }),
            How::Wrapped(lines) => Ok(LineIndex {
                how: How::Wrapped(lines.copy(alloc)?),
            }),
        }
    }

    pub fn rope(&self) -> &Rope
        ensures { result.now ≡ self.now.text }
    {
        match &self.how {
            How::Whole { lines, tab: _ } => lines.rope(),
            How::Wrapped(lines) => lines.rope(),
        }
    }

    /// How many characters, in O(1): one more fits 64 bits, so the gaps can be counted.
    pub fn len(&self) -> u64
        ensures count { result ≡ length self.now.text }
        ensures bound { length self.now.text + 1 < 2 ^ 64 }
    {
        match &self.how {
            How::Whole { lines, tab: _ } => lines.len(),
            How::Wrapped(lines) => lines.len(),
        }
    }

    /// The layout line of a gap and its byte column there; `None` exactly where the gap is past the end. This takes no memory.
    pub fn locate(&self, gap: u64) -> Option<(u64, u64)>
        ensures some { IfSome result (λ point. point ≡ point_of self.now.text (pieces_in self.now) gap) }
        ensures none { IsNone result ↔ (length self.now.text < gap) }
    {
        match &self.how {
            How::Whole { lines, tab: _ } => lines.locate(gap),
            How::Wrapped(lines) => lines.locate(gap),
        }
    }
}

impl TextView for LineIndex {
    ghost use Rattle.line_index.specs.Index.{pieces_in};

    ghost text_of = { λ index. index.text };

    ghost pieces_of = { λ index. pieces_in index };

    fn lines(&self) -> u64 {
        match &self.how {
            How::Whole { lines, tab: _ } => lines.lines(),
            How::Wrapped(lines) => lines.lines(),
        }
    }

    fn line(&self, i: u64) -> Option<Piece> {
        match &self.how {
            How::Whole { lines, tab: _ } => lines.line(i),
            How::Wrapped(lines) => lines.line(i),
        }
    }

    fn line_of(&self, gap: u64) -> u64 {
        match &self.how {
            How::Whole { lines, tab: _ } => lines.line_of(gap),
            How::Wrapped(lines) => lines.line_of(gap),
        }
    }

    fn logical_of(&self, line: u64) -> Run {
        match &self.how {
            How::Whole { lines, tab: _ } => lines.logical_of(line),
            How::Wrapped(lines) => lines.logical_of(line),
        }
    }

    fn text(&self, alloc: Global, from: u64, to: u64) -> Result<Text, NoMemory> {
        match &self.how {
            How::Whole { lines, tab: _ } => lines.text(alloc, from, to),
            How::Wrapped(lines) => lines.text(alloc, from, to),
        }
    }
}
