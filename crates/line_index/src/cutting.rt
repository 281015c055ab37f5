ghost use Rattle.std.specs.Prelude.{◌≡◌, ◌+◌, ◌-◌, ◌^◌, ◌<◌, ◌≤◌, length, slice_get, slice_range, IfOk, Some};
ghost use Rattle.plain_text.specs.Lines.{logical_lines};
ghost use Rattle.line_index.specs.Cuts.{cuts_of_lines};
ghost use Rattle.line_index.specs.Inner.{cuts_under};

use crate::cut::Cuts;
use crate::offsets::line_start;
use crate::tree::put_line;
use line_break::breaks;
use plain_text::{NoMemory, Steps, Text};
use rope_tree::Rope;
use shared_tree::Tree;
use std::alloc::Global;
use std::sync::ledger::Ledger;

/// A rope whose lines are to be cut.
#[derive(Drop)]
pub(crate) struct Cutting<'a> {
    pub rope: &'a Rope,
    pub width: u32,
    pub tab: u32,
}

impl Cutting<'_> {
    /// The cuts of the logical lines from one index up to another. Each line is copied and broken once, with a tick.
    pub(crate) fn cuts<L: Ledger>(
        &self,
        alloc: Global,
        from: u64,
        to: u64,
        steps: &mut Steps<L>,
    ) -> Result<Tree<Cuts>, NoMemory>
        requires ordered { from ≤ to }
        requires inside { to ≤ length (logical_lines self.now.rope.now) }
        requires small { length self.now.rope.now < 2 ^ 63 }
        ensures cuts { IfOk result (λ tree. cuts_under tree
            ≡ cuts_of_lines self.now.width self.now.tab (slice_range (logical_lines self.now.rope.now) from to)) }
        ensures ticks { steps.new ≤ steps.old + (to - from) }
    {
        let _characters = self.rope.len();
        let mut tree = Tree::new(alloc);
        let mut at = from;
        while at < to {
            let line = self.line(alloc, at)?;
            let ends = breaks(alloc, &line, self.width, self.tab, steps)?;
            put_line(&mut tree, alloc, ends.as_slice())?;
            at += 1;
        }
        Ok(tree)
    }

    /// The characters of a logical line.
    fn line(&self, alloc: Global, index: u64) -> Result<Text, NoMemory>
        requires inside { index < length (logical_lines self.now.rope.now) }
        requires small { length self.now.rope.now < 2 ^ 63 }
        ensures { IfOk result (λ line. slice_get (logical_lines self.now.rope.now) index ≡ Some line) }
    {
        let start = line_start(self.rope, index);
        let end = line_start(self.rope, index + 1);
        self.rope.slice(alloc, start, end)
    }
}
