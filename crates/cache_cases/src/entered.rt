//! Entries beside the rule line by line.

use crate::definition::{Drawn, line_at, number_at, operations, screen_after};
use crate::entries::are_stays;
use line_cache::{Mirror, Plan, Step, ops_of};
use plain_screen::{Lines, Ops};
use plain_text::NoMemory;
use std::alloc::Global;

fn first_number(entry: &Drawn, at: u64, n: u64) -> Option<u64> {
    for past in 0..n {
        let number = number_at(entry, at.wrapping_add(past));
        if number.is_some() {
            return number;
        }
    }
    None
}

fn tell(alloc: Global, lines: &mut Lines, entry: &Drawn, at: u64, n: u64) -> Result<(), NoMemory> {
    for past in 0..n {
        lines.push(line_at(alloc, entry, at.wrapping_add(past))?)?;
    }
    Ok(())
}

// What the operations of a plan are told of the lines of an entry.
fn told(alloc: Global, entry: &Drawn, plan: &Plan) -> Result<(Vec<Option<u64>>, Lines), NoMemory> {
    let mut numbers = Vec::new(alloc);
    let mut lines = Lines::new(alloc);
    let mut at = 0u64;
    for step in plan.as_slice() {
        match *step {
            Step::Keep { old: _, n } => numbers.push(first_number(entry, at, n))?,
            Step::Restyle { old: _, n } => {
                numbers.push(first_number(entry, at, n))?;
                tell(alloc, &mut lines, entry, at, n)?;
            }
            Step::Send { first: _, n } => tell(alloc, &mut lines, entry, at, n)?,
            Step::Drop { n: _ } => {}
        }
        at = at.wrapping_add(step.lines());
    }
    Ok((numbers, lines))
}

// Whether exactly these lines are valid.
fn shows(mirror: &Mirror, shown: &[bool]) -> bool {
    let mut at = 0u64;
    for valid in shown {
        if mirror.valid(at) != *valid {
            return false;
        }
        at = at.wrapping_add(1);
    }
    mirror.len() == at
}

/// What a front end has after the entry, and the operations, where plan, operations and screen are those of the rule.
pub(crate) fn entered(
    alloc: Global,
    mirror: &Mirror,
    entry: &Drawn,
) -> Result<Option<(Mirror, Ops)>, NoMemory> {
    let count = mirror.len();
    if !are_stays(&entry.stay, count, entry.total) {
        return Ok(None);
    }
    let plan = mirror.plan(alloc, &entry.stay, entry.total, entry.window, entry.request)?;
    let next = mirror.after(alloc, &plan)?;
    let (numbers, lines) = told(alloc, entry, &plan)?;
    let ops = ops_of(alloc, &plan, &numbers, lines)?;
    let (shown, used) = screen_after(alloc, mirror, &ops)?;
    if ops == operations(alloc, entry, mirror)? && used <= count && shows(&next, &shown) {
        Ok(Some((next, ops)))
    } else {
        Ok(None)
    }
}
