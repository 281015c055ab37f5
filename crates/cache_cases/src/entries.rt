//! Entries of a session, each with the plan that it is to have.

ghost use Rattle.std.specs.Prelude.{IsTrue, ◌<◌, ◌^◌};
ghost use Rattle.line_cache.specs.Stays.{AreStays};
ghost use Rattle.line_cache.specs.Steps.{lines_in};

use line_cache::{Mirror, Plan, Stay, Step};
use plain_text::Run;
use std::alloc::Global;

/// What stays of the old lines, how many new ones there are, window and request, and the steps of the plan.
#[derive(Clone, Copy)]
pub(crate) struct Entry<'a> {
    pub stay: &'a [Stay],
    pub total: u64,
    pub window: (u64, u64),
    pub request: (u64, u64),
    pub steps: &'a [Step],
}

// Whether the runs may be handed to a plan.
pub(crate) fn are_stays(stays: &[Stay], count: u64, total: u64) -> bool
    ensures { IsTrue result → AreStays count total stays.now }
{
    let mut old = 0;
    let mut new = 0;
    for stay in stays {
        if stay.old < old || stay.new < new || stay.old > count || stay.new > total {
            return false;
        }
        if stay.n > count - stay.old || stay.n > total - stay.new {
            return false;
        }
        old = stay.old + stay.n;
        new = stay.new + stay.n;
    }
    true
}

fn run(bounds: (u64, u64)) -> Run {
    Run {
        start: bounds.0,
        end: bounds.1,
    }
}

// Whether the lines are valid that the steps show, and no others: the first of each step is looked at.
fn agrees(mirror: &Mirror, steps: &[Step]) -> bool {
    let mut at: u64 = 0;
    for step in steps {
        if mirror.valid(at) != step.is_shown() {
            return false;
        }
        at = at.wrapping_add(step.lines());
    }
    mirror.len() == at && !mirror.valid(at)
}

// What a front end has after the plan.
fn after(alloc: Global, mirror: &Mirror, plan: &Plan, steps: &[Step]) -> Option<Mirror>
    requires { lines_in plan.now < 2 ^ 64 }
{
    match mirror.after(alloc, plan) {
        Ok(next) => {
            if agrees(&next, steps) {
                Some(next)
            } else {
                None
            }
        }
        Err(_) => None,
    }
}

// What a front end has after the entry, where the entry has its plan.
fn entered(alloc: Global, mirror: &Mirror, entry: Entry<'_>) -> Option<Mirror> {
    if !are_stays(entry.stay, mirror.len(), entry.total) {
        return None;
    }
    match mirror.plan(
        alloc,
        entry.stay,
        entry.total,
        run(entry.window),
        run(entry.request),
    ) {
        Ok(plan) => {
            if plan.as_slice() == entry.steps {
                after(alloc, mirror, &plan, entry.steps)
            } else {
                None
            }
        }
        Err(_) => None,
    }
}

/// Whether each entry of the session has its plan.
pub(crate) fn go(alloc: Global, entries: &[Entry<'_>]) -> bool {
    let mut mirror = Mirror::new();
    for entry in entries {
        match entered(alloc, &mirror, *entry) {
            Some(next) => mirror = next,
            None => return false,
        }
    }
    true
}
