// Where what is shown on two stretches of text that are the same may be another.
ghost use Rattle.std.specs.Prelude.{◌≡◌, ℕ, ◌+◌, ◌^◌, ◌<◌, false, length, IfOk};
ghost use Rattle.subset_runs.specs.Subset.{contains, symmetric_difference};
ghost use Rattle.plain_text.specs.Numbers.{has};
ghost use Rattle.line_render.specs.Rendered.{carets_of, is_selected};
ghost use Rattle.match_index.specs.Found.{runs_in};
ghost use Rattle.selection_core.specs.Selection.{IsSelection};
ghost use Rattle.doc_layout.specs.Found.{MayShow, is_found};
ghost use Rattle.line_stays.specs.Change.{may_differ};
ghost use Rattle.line_stays.specs.Inner.{AreAlikeAt, flags_by};

use crate::change::Change;
use crate::flags::{carets_in, found_in, from_gap, selected_in};
use doc_layout::Shown;
use plain_screen::TextView;
use plain_text::{NoMemory, Region};
use std::alloc::Global;
use subset_runs::Subset;

/// So many gaps from one on before an event, and from one on after it, with the same characters right of each but the last.
#[derive(Clone, Copy)]
pub struct Gaps {
    pub old: u64,
    pub new: u64,
    pub n: u64,
}

/// The gaps at which a caret stands on one side alone, or with a character right of them that is selected or found on one side alone, or that may
/// have other styles. It costs the regions, and the results that stand there.
pub fn marks_in<T: TextView>(
    alloc: Global,
    before: &Shown<'_, T>,
    after: &Shown<'_, T>,
    change: Change,
    gaps: Gaps,
) -> Result<Subset, NoMemory>
    requires one { MayShow (T.text_of before.now.view.now) before.now.sel.now.regions before.now.results.now }
    requires another { MayShow (T.text_of after.now.view.now) after.now.sel.now.regions after.now.results.now }
    requires fits { (gaps.old + gaps.n < 2 ^ 64) × (gaps.new + gaps.n < 2 ^ 64) }
    ensures count { IfOk result (λ marks. length marks ≡ gaps.n) }
    ensures alike { IfOk result (λ marks. (k : ℕ) → k < gaps.n → contains marks k ≡ false
        → AreAlikeAt before.now.sel.now.regions after.now.sel.now.regions (runs_in before.now.results.now) (runs_in after.now.results.now)
        (gaps.old + k) (gaps.new + k)) }
    ensures styled { IfOk result (λ marks. (k : ℕ) → k < gaps.n → contains marks k ≡ false → may_differ change (gaps.old + k) ≡ false) }
{
    let regions = before.sel.regions.as_slice();
    let others = after.sel.regions.as_slice();
    let carets = carets_apart(alloc, regions, others, gaps)?;
    let selected = selected_apart(alloc, regions, others, gaps)?;
    let found = found_apart(alloc, before, after, gaps)?;
    let styled = styled_apart(alloc, change, gaps)?;
    let some = carets.union(alloc, &selected)?;
    let more = some.union(alloc, &found)?;
    Ok(more.union(alloc, &styled)?)
}

// The gaps at which a caret stands on one side alone.
fn carets_apart(
    alloc: Global,
    regions: &[Region],
    others: &[Region],
    gaps: Gaps,
) -> Result<Subset, NoMemory>
    requires one { IsSelection regions.now }
    requires another { IsSelection others.now }
    requires fits { (gaps.old + gaps.n < 2 ^ 64) × (gaps.new + gaps.n < 2 ^ 64) }
    ensures { IfOk result (λ made. made ≡ symmetric_difference
        (flags_by (has (carets_of regions.now)) gaps.old gaps.n) (flags_by (has (carets_of others.now)) gaps.new gaps.n)) }
{
    let here = carets_in(alloc, regions, gaps.old, gaps.n)?;
    let there = carets_in(alloc, others, gaps.new, gaps.n)?;
    Ok(here.symmetric_difference(alloc, &there)?)
}

// Those with a character right of them that is selected on one side alone.
fn selected_apart(
    alloc: Global,
    regions: &[Region],
    others: &[Region],
    gaps: Gaps,
) -> Result<Subset, NoMemory>
    requires one { IsSelection regions.now }
    requires another { IsSelection others.now }
    requires fits { (gaps.old + gaps.n < 2 ^ 64) × (gaps.new + gaps.n < 2 ^ 64) }
    ensures { IfOk result (λ made. made ≡ symmetric_difference
        (flags_by (is_selected regions.now) gaps.old gaps.n) (flags_by (is_selected others.now) gaps.new gaps.n)) }
{
    let here = selected_in(alloc, regions, gaps.old, gaps.n)?;
    let there = selected_in(alloc, others, gaps.new, gaps.n)?;
    Ok(here.symmetric_difference(alloc, &there)?)
}

// Those with a character right of them that is found on one side alone.
fn found_apart<T: TextView>(
    alloc: Global,
    before: &Shown<'_, T>,
    after: &Shown<'_, T>,
    gaps: Gaps,
) -> Result<Subset, NoMemory>
    requires fits { (gaps.old + gaps.n < 2 ^ 64) × (gaps.new + gaps.n < 2 ^ 64) }
    ensures { IfOk result (λ made. made ≡ symmetric_difference
        (flags_by (is_found (runs_in before.now.results.now)) gaps.old gaps.n)
        (flags_by (is_found (runs_in after.now.results.now)) gaps.new gaps.n)) }
{
    let here = found_in(alloc, before, gaps.old, gaps.n)?;
    let there = found_in(alloc, after, gaps.new, gaps.n)?;
    Ok(here.symmetric_difference(alloc, &there)?)
}

// Those with a character right of them that may have other styles.
fn styled_apart(alloc: Global, change: Change, gaps: Gaps) -> Result<Subset, NoMemory>
    requires { gaps.old + gaps.n < 2 ^ 64 }
    ensures { IfOk result (λ made. made ≡ flags_by (may_differ change) gaps.old gaps.n) }
{
    match change {
        Change::Nothing => Ok(Subset::none(alloc, gaps.n)),
        Change::Styled { from } => from_gap(alloc, from, gaps.old, gaps.n),
        Change::Edited { front: _, back: _ } => Ok(Subset::none(alloc, gaps.n)),
    }
}
