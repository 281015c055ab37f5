// Of gaps, or of characters, from one on, those that stand in runs.
ghost use Rattle.std.specs.Prelude.{◌≡◌, ◌+◌, ◌-◌, ◌^◌, ◌<◌, ◌≤◌, ◌++◌, nat_le, false, length, replicate, IfOk, OnOk};
ghost use Rattle.plain_text.specs.Numbers.{has};
ghost use Rattle.line_render.specs.Rendered.{carets_of, is_selected};
ghost use Rattle.match_index.specs.Found.{runs_in};
ghost use Rattle.selection_core.specs.Selection.{IsSelection};
ghost use Rattle.doc_layout.specs.Found.{is_found};
ghost use Rattle.line_stays.specs.Inner.{flags_by, with_run};

use doc_layout::Shown;
use plain_screen::TextView;
use plain_text::{NoMemory, Region, Run};
use std::alloc::Global;
use subset_runs::Subset;

/// Of `n` gaps from one on those of carets. It costs the regions.
pub(crate) fn carets_in(
    alloc: Global,
    regions: &[Region],
    from: u64,
    n: u64,
) -> Result<Subset, NoMemory>
    requires selection { IsSelection regions.now }
    requires fits { from + n < 2 ^ 64 }
    ensures { IfOk result (λ flags. flags ≡ flags_by (has (carets_of regions.now)) from n) }
{
    let mut flags = Subset::none(alloc, 0);
    for region in regions {
        put_run(
            &mut flags,
            region.caret,
            region.caret.saturating_add(1),
            from,
            n,
        )?;
    }
    filled(flags, n)
}

/// Of `n` characters from one on those that are selected. It costs the regions.
pub(crate) fn selected_in(
    alloc: Global,
    regions: &[Region],
    from: u64,
    n: u64,
) -> Result<Subset, NoMemory>
    requires selection { IsSelection regions.now }
    requires fits { from + n < 2 ^ 64 }
    ensures { IfOk result (λ flags. flags ≡ flags_by (is_selected regions.now) from n) }
{
    let mut flags = Subset::none(alloc, 0);
    for region in regions {
        let start = region.anchor.min(region.caret);
        let end = region.anchor.max(region.caret);
        put_run(&mut flags, start, end, from, n)?;
    }
    filled(flags, n)
}

/// Of `n` characters from one on those that a search found. It costs the results that have one of them, each O(log n).
pub(crate) fn found_in<T: TextView>(
    alloc: Global,
    shown: &Shown<'_, T>,
    from: u64,
    n: u64,
) -> Result<Subset, NoMemory>
    requires { from + n < 2 ^ 64 }
    ensures { IfOk result (λ flags. flags ≡ flags_by (is_found (runs_in shown.now.results.now)) from n) }
{
    let range = Run {
        start: from,
        end: from + n,
    };
    let results = shown.results.touching(alloc, range)?;
    let mut flags = Subset::none(alloc, 0);
    for run in results.as_slice() {
        put_run(&mut flags, run.start, run.end, from, n)?;
    }
    filled(flags, n)
}

/// Of `n` characters from one on those from a gap on.
pub(crate) fn from_gap(alloc: Global, gap: u64, from: u64, n: u64) -> Result<Subset, NoMemory>
    requires { from + n < 2 ^ 64 }
    ensures { IfOk result (λ flags. flags ≡ flags_by (nat_le gap) from n) }
{
    let mut flags = Subset::none(alloc, 0);
    let before = gap.saturating_sub(from).min(n);
    flags.append(before, false)?;
    flags.append(n - before, true)?;
    Ok(flags)
}

// Puts the gaps of a run at the end, as far as they are none of those before, and those between.
fn put_run(flags: &mut Subset, start: u64, end: u64, from: u64, n: u64) -> Result<(), NoMemory>
    ensures { OnOk result (flags.new ≡ with_run from n start end flags.old) }
{
    let low = start.saturating_sub(from).min(n);
    let high = end.saturating_sub(from).min(n);
    put_up_to(flags, low, false)?;
    put_up_to(flags, high, true)?;
    Ok(())
}

// Puts as many at the end as are left of so many.
fn put_up_to(flags: &mut Subset, n: u64, member: bool) -> Result<(), NoMemory>
    ensures { OnOk result (flags.new ≡ flags.old ++ replicate (n - length flags.old) member) }
{
    let more = n.saturating_sub(flags.len());
    Ok(flags.append(more, member)?)
}

// As many as `n`: those behind the last run stand in none.
fn filled(flags: Subset, n: u64) -> Result<Subset, NoMemory>
    ensures { IfOk result (λ made. made ≡ flags ++ replicate (n - length flags) false) }
{
    let mut flags = flags;
    put_up_to(&mut flags, n, false)?;
    Ok(flags)
}
