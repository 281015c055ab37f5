ghost use Rattle.std.specs.Prelude.{◌≡◌, ℕ, ◌+◌, ◌*◌, ◌^◌, ◌<◌, ◌≤◌, length, map, Bool, Option, IfOk};
ghost use Rattle.std.specs.List.{range_with_len};
ghost use Rattle.plain_screen.specs.Plan.{standing};
ghost use Rattle.line_cache.specs.Ahead.{moved_by};
ghost use Rattle.line_cache.specs.Runs.{run_count};
ghost use Rattle.line_cache.specs.Inner.{kept_step, restyled_step, sent_step};
ghost use Rattle.line_cache.specs.Stays.{AreStays, if_true, partner_by, partners_by, valid_by};
ghost use Rattle.line_cache.specs.Standings.{standings};
ghost use Rattle.line_cache.specs.Steps.{AreLongest, ArePlacedFrom, IsPlacedAt, TakesFrom, lines_in, lines_of, standings_in, standings_of};

use crate::edges::{alike, is_kept, is_shown};
use crate::old_lines::OldLines;
use crate::partner::{Part, partner_from, rest_past};
use crate::stay::Stay;
use crate::step::{Plan, Step, put};
use plain_text::{NoMemory, Run};
use std::alloc::Global;
use subset_runs::Subset;

/// What becomes of so many lines, where these old ones are valid.
pub(crate) fn planned(
    alloc: Global,
    lines: &Subset,
    stays: &[Stay],
    total: u64,
    window: Run,
    request: Run,
) -> Result<Plan, NoMemory>
    requires { AreStays (length lines.now) total stays.now }
    ensures standings { IfOk result (λ plan. standings_of plan
        ≡ standings window request 0 (valid_by lines.now (partners_by stays.now total))) }
    ensures count { IfOk result (λ plan. lines_in plan ≡ total) }
    ensures longest { IfOk result AreLongest }
    ensures placed { IfOk result (ArePlacedFrom 0) }
    ensures olds { IfOk result (TakesFrom 0 (length lines.now)) }
    ensures few { IfOk result (λ plan. length plan ≤ 2 * (run_count lines.now + length stays.now) + 5) }
{
    let mut plan = Plan::new(alloc);
    let mut ahead = OldLines::new(lines);
    let mut rest = stays;
    let mut at = 0;
    while at < total {
        rest = rest_past(rest, at);
        let part = partner_from(&mut ahead, rest, at, total - at);
        let step = step_at(window, request, at, part);
        put(&mut plan, step)?;
        at += step.lines();
    }
    Ok(plan)
}

/// What becomes of the first lines of a part that stand alike.
fn step_at(window: Run, request: Run, at: u64, part: Part) -> Step
    requires some { 0 < part.n }
    requires room { at + part.n < 2 ^ 64 }
    ensures some { 0 < lines_of result }
    ensures within { lines_of result ≤ part.n }
    ensures placed { IsPlacedAt at result }
    ensures standings { (partner : ℕ → Option (ℕ × Bool)) → ((k : ℕ) → k < part.n → partner (at + k) ≡ moved_by k part.partner)
        → standings_in result ≡ map (λ index. standing window request index (partner index)) (range_with_len at (lines_of result)) }
{
    let n = alike(window, request, at, part.n);
    let shown = is_shown(window, request, at);
    match part.partner {
        Some((old, true)) => kept(is_kept(window, request, at), old, shown, at, n),
        Some((old, false)) => restyled(shown, old, at, n),
        None => sent(shown, at, n),
    }
}

fn kept(is_kept: bool, old: u64, is_shown: bool, at: u64, n: u64) -> Step
    ensures { result ≡ kept_step is_kept old is_shown at n }
{
    if is_kept {
        Step::Keep { old, n }
    } else {
        sent(is_shown, at, n)
    }
}

fn restyled(is_shown: bool, old: u64, at: u64, n: u64) -> Step
    ensures { result ≡ restyled_step is_shown old at n }
{
    if is_shown {
        Step::Restyle { old, n }
    } else {
        Step::Drop { n }
    }
}

fn sent(is_shown: bool, at: u64, n: u64) -> Step
    ensures { result ≡ sent_step is_shown at n }
{
    if is_shown {
        Step::Send { first: at, n }
    } else {
        Step::Drop { n }
    }
}
