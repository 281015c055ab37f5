ghost use Rattle.std.specs.Prelude.{◌≡◌, ◌+◌, ◌^◌, ◌<◌, ◌≤◌, ◌++◌, ◌∷◌, [], List, Some, map, take, drop, length, IfOk, OnOk};
ghost use Rattle.std.specs.List.{zip};
ghost use Rattle.std.specs.Vec.Iter.{into_iter_items};
ghost use Rattle.plain_screen.specs.Plan.{joined_ops, ops_for, restyle_of, skip_for};
ghost use Rattle.plain_screen.specs.declared.screen.Line.{Line as LineValue};
ghost use Rattle.line_cache.specs.OneStep.{TakesOldLines, numbers_of, old_of, op_of, told_of, used_past};
ghost use Rattle.line_cache.specs.Ops.{first_of, lines_at, numbers_at, ops_by};
ghost use Rattle.line_cache.specs.Steps.{AreLongest, ArePlacedFrom, lines_in, standings_of};

use crate::step::{Plan, Step};
use plain_screen::{Line, Lines, Op, Ops, Restyle, Restyles};
use plain_text::{List, NoMemory};
use std::alloc::Global;
use std::vec;

/// The operations of a plan: one for each step, with a skip before it where old lines are passed over. The numbers are those of the steps
/// that take old lines over, each that of the first of its lines that has one; the lines are those that are sent and those that are
/// restyled, in order. Lines are moved and not copied, and of a restyled one its carets and styles. In the time of the steps and of the
/// lines; want of memory is its only error.
pub fn ops_of(
    alloc: Global,
    plan: &Plan,
    numbers: &[Option<u64>],
    lines: Lines,
) -> Result<Ops, NoMemory>
    requires { TakesOldLines plan.now }
    ensures steps { IfOk result (λ ops. ops ≡ ops_by 0 plan.now numbers.now lines) }
    ensures rule { AreLongest plan.now → ArePlacedFrom 0 plan.now → (all : List LineValue) → length all ≡ lines_in plan.now
        → numbers.now ≡ numbers_at plan.now all → lines ≡ lines_at plan.now all
        → IfOk result (λ ops. ops ≡ joined_ops (ops_for 0 (zip (standings_of plan.now) all))) }
{
    let mut ops = Ops::new(alloc);
    let mut told = numbers;
    let mut rest = lines.into_iter();
    let mut used = 0;
    for step in plan.as_slice() {
        let op = op_of(alloc, *step, first_of(told), &mut rest)?;
        used = put_op(&mut ops, used, *step, op)?;
        told = numbers_past(*step, told);
    }
    Ok(ops)
}

fn first_of(numbers: &[Option<u64>]) -> Option<u64>
    ensures { result ≡ first_of numbers.now }
{
    match numbers.first() {
        Some(number) => *number,
        None => None,
    }
}

/// The numbers of the steps behind this one.
fn numbers_past(step: Step, numbers: &[Option<u64>]) -> &[Option<u64>]
    ensures { result.now ≡ drop (numbers_of step) numbers.now }
{
    match step {
        Step::Keep { old: _, n: _ } => rest_of(numbers),
        Step::Restyle { old: _, n: _ } => rest_of(numbers),
        Step::Send { first: _, n: _ } => numbers,
        Step::Drop { n: _ } => numbers,
    }
}

fn rest_of(numbers: &[Option<u64>]) -> &[Option<u64>]
    ensures { result.now ≡ drop 1 numbers.now }
{
    match numbers.split_first() {
        Some((_first, rest)) => rest,
        None => numbers,
    }
}

/// Puts the operation of a step at the end, behind a skip where old lines are passed over, and gives the old lines that are done with.
fn put_op(ops: &mut Ops, used: u64, step: Step, op: Op) -> Result<u64, NoMemory>
    requires { used_past used step < 2 ^ 64 }
    ensures put { OnOk result (ops.new ≡ ops.old ++ (skip_for used (old_of step) ++ op ∷ [])) }
    ensures used { IfOk result (λ after. after ≡ used_past used step) }
{
    let after = match step {
        Step::Keep { old, n } => skipped(ops, used, old, n)?,
        Step::Restyle { old, n } => skipped(ops, used, old, n)?,
        Step::Send { first: _, n: _ } => used,
        Step::Drop { n: _ } => used,
    };
    ops.push(op)?;
    Ok(after)
}

/// Puts a skip up to an old line where some are passed over, and gives the line behind the `n` from there on.
fn skipped(ops: &mut Ops, used: u64, old: u64, n: u64) -> Result<u64, NoMemory>
    requires { old + n < 2 ^ 64 }
    ensures put { OnOk result (ops.new ≡ ops.old ++ skip_for used (Some old)) }
    ensures used { IfOk result (λ after. after ≡ old + n) }
{
    if used < old {
        ops.push(Op::Skip { n: old - used })?;
    }
    Ok(old + n)
}

/// The operation of a step, of the lines that are told, which it takes.
fn op_of(
    alloc: Global,
    step: Step,
    number: Option<u64>,
    rest: &mut vec::IntoIter<Line>,
) -> Result<Op, NoMemory>
    ensures op { IfOk result (λ op. op ≡ op_of step number (into_iter_items rest.old)) }
    ensures rest { OnOk result (into_iter_items rest.new ≡ drop (told_of step) (into_iter_items rest.old)) }
{
    match step {
        Step::Keep { old: _, n } => Ok(Op::Copy { n, ln: number }),
        Step::Restyle { old: _, n } => {
            let lines = taken(alloc, rest, n)?;
            Ok(Op::Update {
                ln: number,
                lines: restyles(alloc, lines)?,
            })
        }
        Step::Send { first: _, n } => Ok(Op::Ins {
            lines: taken(alloc, rest, n)?,
        }),
        Step::Drop { n } => Ok(Op::Invalidate { n }),
    }
}

/// The next `n` lines, or all that are left.
fn taken(alloc: Global, rest: &mut vec::IntoIter<Line>, n: u64) -> Result<Lines, NoMemory>
    ensures lines { IfOk result (λ lines. lines ≡ take n (into_iter_items rest.old)) }
    ensures rest { OnOk result (into_iter_items rest.new ≡ drop n (into_iter_items rest.old)) }
{
    let mut lines = Lines::new(alloc);
    let mut left = n;
    while left > 0 {
        match rest.next() {
            Some(line) => lines.push(line)?,
            None => return Ok(lines),
        }
        left -= 1;
    }
    Ok(lines)
}

/// What an update says of lines.
fn restyles(alloc: Global, lines: Lines) -> Result<Restyles, NoMemory>
    ensures { IfOk result (λ restyles. restyles ≡ map restyle_of lines) }
{
    let mut made = List::new(alloc);
    for line in lines.into_iter() {
        made.push(restyle(line))?;
    }
    Ok(made)
}

fn restyle(line: Line) -> Restyle
    ensures { result ≡ restyle_of line }
{
    let Line {
        text: _,
        ln: _,
        cursor,
        styles,
    } = line;
    Restyle { cursor, styles }
}
