ghost use Rattle.std.specs.Prelude.{◌≡◌, ◌+◌, ◌^◌, ◌<◌, ◌≤◌, length, IsNone, ◌↔◌, IfOk, IfSome};
ghost use Rattle.plain_screen.specs.View.{whole_lines};
ghost use Rattle.line_index.specs.Whole.{point_of};

use crate::offsets::{in_line, lf_count, line_at, line_run};
use plain_screen::{Piece, TextView};
use plain_text::{NoMemory, Run, Text};
use rope_tree::Rope;
use std::alloc::Global;
use std::marker::Model;

/// A rope in one piece a logical line. It keeps the rope alone, each node of which knows how many LFs it has.
#[derive(Drop)]
pub struct WholeLines {
    rope: Rope,
}

impl Model for WholeLines {
    ghost use Rattle.std.specs.Prelude.{ℕ, ◌+◌, ◌^◌, ◌<◌, List, length};

    ghost Value = { List ℕ };

    ghost view = { λ whole. whole.rope };

    ghost invariant = { λ whole. length whole.rope + 1 < 2 ^ 64 };
}

impl WholeLines {
    /// The lines of a rope, in O(1). Want of memory is its only error; a rope of 2^64 - 1 characters counts as such.
    pub fn of_rope(alloc: Global, rope: &Rope) -> Result<WholeLines, NoMemory>
        ensures { IfOk result (λ made. made ≡ rope.now) }
    {
        if rope.len() == u64::MAX {
            return Err(NoMemory);
        }
        Ok(WholeLines {
            rope: rope.copy(alloc)?,
        })
    }

    /// The same lines, in O(1).
    pub fn copy(&self, alloc: Global) -> Result<WholeLines, NoMemory>
        ensures { IfOk result (λ made. made ≡ self.now) }
    {
        Ok(WholeLines {
            rope: self.rope.copy(alloc)?,
        })
    }

    pub fn rope(&self) -> &Rope
        ensures { result.now ≡ self.now }
    {
        &self.rope
    }

    /// How many characters, in O(1): one more fits 64 bits, so the gaps can be counted.
    pub fn len(&self) -> u64
        ensures count { result ≡ length self.now }
        ensures bound { length self.now + 1 < 2 ^ 64 }
    {
        self.rope.len()
    }

    /// The layout line of a gap and its byte column there; `None` exactly where the gap is past the end. This takes no memory.
    pub fn locate(&self, gap: u64) -> Option<(u64, u64)>
        ensures some { IfSome result (λ point. point ≡ point_of self.now (whole_lines self.now) gap) }
        ensures none { IsNone result ↔ (length self.now < gap) }
    {
        let at = in_line(&self.rope, gap)?;
        Some((at.line, at.place - at.start))
    }
}

impl TextView for WholeLines {
    ghost text_of = { λ text. text };

    ghost pieces_of = { λ text. whole_lines text };

    fn lines(&self) -> u64 {
        lf_count(&self.rope) + 1
    }

    fn line(&self, i: u64) -> Option<Piece> {
        if i > lf_count(&self.rope) {
            return None;
        }
        let run = line_run(&self.rope, i);
        Some(Piece {
            start: run.start,
            end: run.end,
            ln: Some(i + 1),
        })
    }

    fn line_of(&self, gap: u64) -> u64 {
        line_at(&self.rope, gap)
    }

    fn logical_of(&self, line: u64) -> Run {
        let _lines = self.lines();
        line_run(&self.rope, line)
    }

    fn text(&self, alloc: Global, from: u64, to: u64) -> Result<Text, NoMemory> {
        self.rope.slice(alloc, from, to)
    }
}
