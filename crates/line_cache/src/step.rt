ghost use Rattle.std.specs.Prelude.{◌≡◌, ◌+◌, ◌^◌, ◌<◌, ◌==◌, ◌++◌, ◌∷◌, [], Some, None, OnOk};
ghost use Rattle.line_cache.specs.Steps.{AreLongest, ArePlacedFrom, IsPlacedAt, if_next, is_shown, joined_steps, lines_in, lines_of, standings_in, standings_of};
ghost use Rattle.line_cache.specs.declared.step.Step.{Step as StepValue};

use plain_text::{List, NoMemory, TryClone};
use std::alloc::Global;

/// What becomes of a run of lines, from the top.
#[derive(Clone, Copy, PartialEq, Eq)]
pub enum Step {
    /// The `n` old lines from `old` on stay as they are.
    Keep { old: u64, n: u64 },
    /// The `n` old lines from `old` on stay but for their carets and styles.
    Restyle { old: u64, n: u64 },
    /// The `n` lines of the layout from `first` on are sent.
    Send { first: u64, n: u64 },
    /// `n` lines are not valid.
    Drop { n: u64 },
}

/// What becomes of all lines of a layout.
pub type Plan = List<Step>;

impl TryClone for Step {
    fn copy(&self, _alloc: Global) -> Result<Step, NoMemory> {
        Ok(*self)
    }
}

impl Step {
    /// How many lines it makes.
    pub fn lines(self) -> u64
        ensures { result ≡ lines_of self }
    {
        match self {
            Step::Keep { old: _, n } => n,
            Step::Restyle { old: _, n } => n,
            Step::Send { first: _, n } => n,
            Step::Drop { n } => n,
        }
    }

    /// Whether its lines are valid after the plan.
    pub fn is_shown(self) -> bool
        ensures { result ≡ is_shown self }
    {
        match self {
            Step::Keep { old: _, n: _ } => true,
            Step::Restyle { old: _, n: _ } => true,
            Step::Send { first: _, n: _ } => true,
            Step::Drop { n: _ } => false,
        }
    }

    /// Both as one step, where they could be one.
    fn joined(self, next: Step) -> Option<Step>
        requires { lines_of self + lines_of next < 2 ^ 64 }
        ensures { result ≡ joined_steps self next }
    {
        match (self, next) {
            (Step::Keep { old, n }, Step::Keep { old: next, n: more }) => {
                if_next(follows(old, n, next), Step::Keep { old, n: n + more })
            }
            (Step::Restyle { old, n }, Step::Restyle { old: next, n: more }) => {
                if_next(follows(old, n, next), Step::Restyle { old, n: n + more })
            }
            (
                Step::Send { first, n },
                Step::Send {
                    first: next,
                    n: more,
                },
            ) => { if_next(follows(first, n, next), Step::Send { first, n: n + more }) }
            (Step::Drop { n }, Step::Drop { n: more }) => Some(Step::Drop { n: n + more }),
            _ => None,
        }
    }
}

/// Whether what begins at `next` follows the `n` from `first` on.
fn follows(first: u64, n: u64, next: u64) -> bool
    ensures { result ≡ (first + n == next) }
{
    first <= next && next - first == n
}

fn if_next(follows: bool, step: Step) -> Option<Step>
    ensures { result ≡ if_next follows step }
{
    if follows { Some(step) } else { None }
}

/// Puts a step at the end of a plan, as one with the last where they could be one. After an error the plan is of no use.
pub(crate) fn put(plan: &mut Plan, step: Step) -> Result<(), NoMemory>
    requires some { 0 < lines_of step }
    requires room { lines_in plan.old + lines_of step < 2 ^ 64 }
    ensures standings { OnOk result (standings_of plan.new ≡ standings_of plan.old ++ standings_in step) }
    ensures count { OnOk result (lines_in plan.new ≡ lines_in plan.old + lines_of step) }
    ensures longest { OnOk result (AreLongest plan.old → AreLongest plan.new) }
    ensures placed { OnOk result (ArePlacedFrom 0 plan.old → IsPlacedAt (lines_in plan.old) step → ArePlacedFrom 0 plan.new) }
{
    match plan.pop() {
        None => plan.push(step),
        Some(last) => put_after(plan, last, step),
    }
}

/// Puts a step behind the last one, which was taken off.
fn put_after(plan: &mut Plan, last: Step, step: Step) -> Result<(), NoMemory>
    requires { lines_of last + lines_of step < 2 ^ 64 }
    ensures joined { OnOk result ((both : StepValue) → joined_steps last step ≡ Some both → plan.new ≡ plan.old ++ both ∷ []) }
    ensures apart { OnOk result (joined_steps last step ≡ None → plan.new ≡ plan.old ++ last ∷ step ∷ []) }
{
    match last.joined(step) {
        Some(both) => plan.push(both),
        None => {
            plan.push(last)?;
            plan.push(step)
        }
    }
}
