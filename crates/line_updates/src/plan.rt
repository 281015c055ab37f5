ghost use Rattle.std.specs.Prelude.{◌≡◌, ◌+◌, ◌<◌, ◌≤◌, ◌++◌, drop, length, take, IfOk, OnOk, None, slice_range};
ghost use Rattle.line_cache.specs.Ops.{lines_at, numbers_at};
ghost use Rattle.line_cache.specs.Stays.{AreStays, partners_by, valid_by};
ghost use Rattle.line_cache.specs.Steps.{lines_in, lines_of};
ghost use Rattle.match_index.specs.Found.{runs_in};
ghost use Rattle.doc_layout.specs.Found.{MayShow};
ghost use Rattle.doc_layout.specs.Layout.{layout};
ghost use Rattle.line_updates.specs.Told.{had_after, planned};
ghost use Rattle.line_updates.specs.Inner.{number_at, number_in, number_told, told_in};

use doc_layout::{Asked, Shown, line_at};
use line_cache::{Mirror, Plan, Stay, Step, ops_of};
use plain_screen::{Lines, TextView, Update};
use plain_text::{List, NoMemory};
use std::alloc::Global;

/// The update of a front end that has these lines, where these of them stay, and the lines that it has then. It renders the lines that are sent
/// and those that are restyled, each from its own characters, and no others; it costs these, and the runs of lines that stay and that the
/// front end has.
pub fn update_of<T: TextView>(
    alloc: Global,
    shown: &Shown<'_, T>,
    had: &Mirror,
    stays: &[Stay],
    asked: Asked,
    pristine: bool,
) -> Result<(Update, Mirror), NoMemory>
    requires may { MayShow (T.text_of shown.now.view.now) shown.now.sel.now.regions shown.now.results.now }
    requires stays { AreStays (length had.now) (length (T.pieces_of shown.now.view.now)) stays.now }
    ensures update { IfOk result (λ made. made.0 ≡ planned asked
        (layout (T.text_of shown.now.view.now) (T.pieces_of shown.now.view.now) shown.now.sel.now.regions
        (runs_in shown.now.results.now) shown.now.layers.now)
        (valid_by had.now (partners_by stays.now (length (T.pieces_of shown.now.view.now)))) pristine) }
    ensures had { IfOk result (λ made. made.1 ≡ had_after asked
        (layout (T.text_of shown.now.view.now) (T.pieces_of shown.now.view.now) shown.now.sel.now.regions
        (runs_in shown.now.results.now) shown.now.layers.now)
        (valid_by had.now (partners_by stays.now (length (T.pieces_of shown.now.view.now))))) }
{
    // 64 bits count the lines of the screen.
    let _had = had.len();
    let total = shown.view.lines();
    let plan = had.plan(alloc, stays, total, asked.window, asked.request)?;
    let numbers = numbers_of(alloc, shown, &plan)?;
    let lines = lines_told(alloc, shown, &plan)?;
    let ops = ops_of(alloc, &plan, numbers.as_slice(), lines)?;
    let had = had.after(alloc, &plan)?;
    Ok((Update { ops, pristine }, had))
}

// For each step that takes old lines over the number of the first of its lines that has one.
fn numbers_of<T: TextView>(
    alloc: Global,
    shown: &Shown<'_, T>,
    plan: &Plan,
) -> Result<List<Option<u64>>, NoMemory>
    requires { lines_in plan.now ≡ length (T.pieces_of shown.now.view.now) }
    ensures { IfOk result (λ numbers. numbers ≡ numbers_at plan.now
        (layout (T.text_of shown.now.view.now) (T.pieces_of shown.now.view.now) shown.now.sel.now.regions
        (runs_in shown.now.results.now) shown.now.layers.now)) }
{
    // 64 bits count the lines.
    let _count = shown.view.lines();
    let mut numbers = List::new(alloc);
    let mut at = 0;
    for step in plan.as_slice() {
        put_number(&mut numbers, shown.view, *step, at)?;
        at += step.lines();
    }
    Ok(numbers)
}

// Puts the number of a step, of which the first piece is this one, at the end, where it takes old lines over.
fn put_number<T: TextView>(
    numbers: &mut List<Option<u64>>,
    view: &T,
    step: Step,
    at: u64,
) -> Result<(), NoMemory>
    requires { at + lines_of step ≤ length (T.pieces_of view.now) }
    ensures { OnOk result (numbers.new ≡ numbers.old ++ number_told step (drop at (T.pieces_of view.now))) }
{
    match step {
        Step::Keep { old: _, n } => numbers.push(first_number(view, at, n)),
        Step::Restyle { old: _, n } => numbers.push(first_number(view, at, n)),
        _ => Ok(()),
    }
}

// The number of the first of the `n` pieces from one on that begins a logical line.
fn first_number<T: TextView>(view: &T, at: u64, n: u64) -> Option<u64>
    requires inside { at + n ≤ length (T.pieces_of view.now) }
    ensures { result ≡ number_in (take n (drop at (T.pieces_of view.now))) }
{
    if n == 0 {
        return None;
    }
    match view.line(at) {
        None => unreachable!(),
        Some(piece) => match piece.ln {
            Some(number) => Some(number),
            None => number_past(view, at, n),
        },
    }
}

// The same, where the first of them begins none.
fn number_past<T: TextView>(view: &T, at: u64, n: u64) -> Option<u64>
    requires some { 0 < n }
    requires inside { at + n ≤ length (T.pieces_of view.now) }
    requires none { number_at (T.pieces_of view.now) at ≡ None }
    ensures { result ≡ number_in (take n (drop at (T.pieces_of view.now))) }
{
    // 64 bits count the lines.
    let _count = view.lines();
    // A logical line begins where that of the piece ends, if it is not the last.
    let next = view.line_of(view.logical_of(at).end);
    if next < at + n {
        match view.line(next) {
            None => unreachable!(),
            Some(piece) => piece.ln,
        }
    } else {
        None
    }
}

// The lines that a plan sends or restyles.
fn lines_told<T: TextView>(
    alloc: Global,
    shown: &Shown<'_, T>,
    plan: &Plan,
) -> Result<Lines, NoMemory>
    requires may { MayShow (T.text_of shown.now.view.now) shown.now.sel.now.regions shown.now.results.now }
    requires count { lines_in plan.now ≡ length (T.pieces_of shown.now.view.now) }
    ensures { IfOk result (λ lines. lines ≡ lines_at plan.now
        (layout (T.text_of shown.now.view.now) (T.pieces_of shown.now.view.now) shown.now.sel.now.regions
        (runs_in shown.now.results.now) shown.now.layers.now)) }
{
    // 64 bits count the lines.
    let _count = shown.view.lines();
    let mut lines = Lines::new(alloc);
    let mut at = 0;
    for step in plan.as_slice() {
        put_told(alloc, &mut lines, shown, *step, at)?;
        at += step.lines();
    }
    Ok(lines)
}

// Puts the lines of a step, from one on, at the end, where it sends or restyles them.
fn put_told<T: TextView>(
    alloc: Global,
    lines: &mut Lines,
    shown: &Shown<'_, T>,
    step: Step,
    at: u64,
) -> Result<(), NoMemory>
    requires may { MayShow (T.text_of shown.now.view.now) shown.now.sel.now.regions shown.now.results.now }
    requires inside { at + lines_of step ≤ length (T.pieces_of shown.now.view.now) }
    ensures { OnOk result (lines.new ≡ lines.old ++ told_in step
        (drop at (layout (T.text_of shown.now.view.now) (T.pieces_of shown.now.view.now) shown.now.sel.now.regions
        (runs_in shown.now.results.now) shown.now.layers.now))) }
{
    // 64 bits count the lines.
    let _count = shown.view.lines();
    match step {
        Step::Restyle { old: _, n } => put_lines(alloc, lines, shown, at, at + n),
        Step::Send { first: _, n } => put_lines(alloc, lines, shown, at, at + n),
        _ => Ok(()),
    }
}

// Puts the lines of the pieces from one index up to another at the end.
fn put_lines<T: TextView>(
    alloc: Global,
    lines: &mut Lines,
    shown: &Shown<'_, T>,
    from: u64,
    to: u64,
) -> Result<(), NoMemory>
    requires may { MayShow (T.text_of shown.now.view.now) shown.now.sel.now.regions shown.now.results.now }
    requires ordered { from ≤ to }
    requires inside { to ≤ length (T.pieces_of shown.now.view.now) }
    ensures { OnOk result (lines.new ≡ lines.old ++ slice_range
        (layout (T.text_of shown.now.view.now) (T.pieces_of shown.now.view.now) shown.now.sel.now.regions
        (runs_in shown.now.results.now) shown.now.layers.now) from to) }
{
    let mut at = from;
    while at < to {
        lines.push(line_at(alloc, shown, at)?)?;
        at += 1;
    }
    Ok(())
}
