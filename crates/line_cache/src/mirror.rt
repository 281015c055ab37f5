ghost use Rattle.std.specs.Prelude.{◌≡◌, ℕ, ◌+◌, ◌*◌, ◌^◌, ◌<◌, ◌≤◌, false, [], length, IfNone, IfOk, IfSome};
ghost use Rattle.subset_runs.specs.Subset.{contains};
ghost use Rattle.line_cache.specs.Runs.{IsNextRun, has_all, run_count};
ghost use Rattle.line_cache.specs.Stays.{AreStays, partners_by, valid_by};
ghost use Rattle.line_cache.specs.Standings.{standings};
ghost use Rattle.line_cache.specs.Steps.{AreLongest, ArePlacedFrom, TakesFrom, lines_in, shown_by, standings_of};

use crate::next::next_run;
use crate::plan::planned;
use crate::stay::Stay;
use crate::step::Plan;
use plain_text::{NoMemory, Run, TryClone};
use std::alloc::Global;
use std::marker::Model;
use std::sync::Arc;
use subset_runs::Subset;

/// Which lines of its screen a front end has: each of them is valid, or it is not. Copies share its runs.
#[derive(Drop)]
pub struct Mirror {
    lines: Option<Arc<Subset, Global>>,
}

impl Model for Mirror {
    ghost use Rattle.std.specs.Prelude.{Bool, List};
    ghost use Rattle.line_cache.specs.Mirror.{shared_truths};

    ghost Value = { List Bool };

    ghost view = { λ m. shared_truths m.lines };
}

impl Mirror {
    /// A screen of no lines; it takes no memory.
    pub fn new() -> Mirror
        ensures { result ≡ [] }
    {
        Mirror { lines: None }
    }

    /// A second mirror of the same screen, which shares the runs, in O(1).
    pub fn share(&self) -> Result<Mirror, NoMemory>
        ensures { IfOk result (λ mirror. mirror ≡ self.now) }
    {
        let lines = match &self.lines {
            None => None,
            Some(lines) => Some(Arc::try_clone(lines)?),
        };
        Ok(Mirror { lines })
    }

    /// How many lines the screen has, in O(1).
    pub fn len(&self) -> u64
        ensures { result ≡ length self.now }
    {
        match &self.lines {
            None => 0,
            Some(lines) => lines.len(),
        }
    }

    /// Whether a line is valid, in the logarithm of the runs; one past the end is not.
    pub fn valid(&self, i: u64) -> bool
        ensures { result ≡ contains self.now i }
    {
        match &self.lines {
            None => false,
            Some(lines) => lines.contains(i),
        }
    }

    /// The first valid lines from one on, as a run; `None` exactly where none is valid there. It takes the time of the runs before it.
    pub fn next_run(&self, from: u64) -> Option<Run>
        ensures some { IfSome result (IsNextRun self.now from) }
        ensures none { IfNone result ((index : ℕ) → from ≤ index → contains self.now index ≡ false) }
    {
        match &self.lines {
            None => None,
            Some(lines) => next_run(lines, from),
        }
    }

    /// Whether each line of a run is valid; lines past the end of the screen don't count. It takes the time of the runs before it.
    pub fn has_all(&self, run: Run) -> bool
        ensures { result ≡ has_all self.now run }
    {
        let end = run.end.min(self.len());
        if end <= run.start {
            return true;
        }
        match self.next_run(run.start) {
            Some(valid) => valid.start == run.start && end <= valid.end,
            None => false,
        }
    }

    /// What becomes of the lines of a layout of `total` lines, for the window and the lines requested. Want of memory is its only error.
    ///
    /// One walk over the lines that stay, as runs, over the runs of this mirror and over the steps.
    pub fn plan(
        &self,
        alloc: Global,
        stay: &[Stay],
        total: u64,
        window: Run,
        request: Run,
    ) -> Result<Plan, NoMemory>
        requires { AreStays (length self.now) total stay.now }
        ensures standings { IfOk result (λ plan. standings_of plan
            ≡ standings window request 0 (valid_by self.now (partners_by stay.now total))) }
        ensures count { IfOk result (λ plan. lines_in plan ≡ total) }
        ensures longest { IfOk result AreLongest }
        ensures placed { IfOk result (ArePlacedFrom 0) }
        ensures olds { IfOk result (TakesFrom 0 (length self.now)) }
        ensures few { IfOk result (λ plan. length plan ≤ 2 * (run_count self.now + length stay.now) + 5) }
    {
        match &self.lines {
            None => planned(alloc, &Subset::none(alloc, 0), stay, total, window, request),
            Some(lines) => planned(alloc, lines, stay, total, window, request),
        }
    }

    /// The screen after a plan, in the time of its steps.
    pub fn after(&self, alloc: Global, plan: &Plan) -> Result<Mirror, NoMemory>
        requires { lines_in plan.now < 2 ^ 64 }
        ensures shown { IfOk result (λ mirror. mirror ≡ shown_by plan.now) }
        ensures few { IfOk result (λ mirror. run_count mirror ≤ length plan.now) }
    {
        let mut lines = Subset::none(alloc, 0);
        for step in plan.as_slice() {
            lines.append(step.lines(), step.is_shown())?;
        }
        let lines = Arc::new(alloc, lines)?;
        Ok(Mirror { lines: Some(lines) })
    }
}

impl TryClone for Mirror {
    /// Shares the runs, in O(1).
    fn copy(&self, _alloc: Global) -> Result<Mirror, NoMemory> {
        self.share()
    }
}
