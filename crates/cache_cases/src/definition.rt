//! The rule of updates, line by line, as it is defined.

use line_cache::{Mirror, Stay};
use plain_screen::{Line, Lines, Op, Ops, Restyle, Restyles, Triples};
use plain_text::{List, NoMemory, Offsets, Run, Text};
use std::alloc::Global;

/// Which lines have a number, each the one behind its index.
#[derive(Clone, Copy)]
pub(crate) enum Numbered {
    /// All but these.
    AllBut(Run),
    /// Two of three, from one of three starts.
    TwoOfThree { salt: u64 },
}

/// An entry: what stays of the old lines, how many new ones there are, window and request, and which of them have a number.
#[derive(Drop)]
pub(crate) struct Drawn {
    pub stay: Vec<Stay>,
    pub total: u64,
    pub window: Run,
    pub request: Run,
    pub numbered: Numbered,
}

#[derive(Clone, Copy)]
enum Standing {
    Stays(u64),
    Restyled(u64),
    Sent,
    Left,
}

fn partner_of(stays: &[Stay], index: u64) -> Option<(u64, bool)> {
    for stay in stays {
        let past = index.wrapping_sub(stay.new);
        if stay.new <= index && past < stay.n {
            return Some((stay.old.wrapping_add(past), stay.same));
        }
    }
    None
}

// Whether the line is in the run, or so near it.
fn is_in(run: Run, margin: u64, index: u64) -> bool {
    run.start <= index.saturating_add(margin) && index < run.end.saturating_add(margin)
}

fn standing_of(entry: &Drawn, mirror: &Mirror, index: u64) -> Standing {
    let asked = is_in(entry.request, 0, index);
    let shown = asked || is_in(entry.window, 0, index);
    match partner_of(&entry.stay, index) {
        Some((old, true)) if mirror.valid(old) && (asked || is_in(entry.window, 1000, index)) => {
            Standing::Stays(old)
        }
        Some((old, false)) if mirror.valid(old) && shown => Standing::Restyled(old),
        _ if shown => Standing::Sent,
        _ => Standing::Left,
    }
}

/// The number of the line of an entry with this index, if it has one.
pub(crate) fn number_at(entry: &Drawn, index: u64) -> Option<u64> {
    let bare = match entry.numbered {
        Numbered::AllBut(lines) => is_in(lines, 0, index),
        Numbered::TwoOfThree { salt } => index.wrapping_add(salt) % 3 == 0,
    };
    if bare {
        None
    } else {
        Some(index.wrapping_add(1))
    }
}

/// The line of an entry with this index; its caret tells it from the others.
pub(crate) fn line_at(alloc: Global, entry: &Drawn, index: u64) -> Result<Line, NoMemory> {
    let mut cursor = Offsets::new(alloc);
    cursor.push(index)?;
    Ok(Line {
        text: Text::from_str(alloc, "a")?,
        ln: number_at(entry, index),
        cursor,
        styles: Triples::new(alloc),
    })
}

fn operation(alloc: Global, how: Standing, line: Line) -> Result<Op, NoMemory> {
    match how {
        Standing::Stays(_) => Ok(Op::Copy { n: 1, ln: line.ln }),
        Standing::Restyled(_) => restyle(alloc, line),
        Standing::Sent => {
            let mut lines = Lines::new(alloc);
            lines.push(line)?;
            Ok(Op::Ins { lines })
        }
        Standing::Left => Ok(Op::Invalidate { n: 1 }),
    }
}

fn restyle(alloc: Global, line: Line) -> Result<Op, NoMemory> {
    let Line {
        text: _,
        ln,
        cursor,
        styles,
    } = line;
    let mut lines = Restyles::new(alloc);
    lines.push(Restyle { cursor, styles })?;
    Ok(Op::Update { ln, lines })
}

fn appended<T: Drop>(front: List<T>, back: List<T>) -> Result<List<T>, NoMemory> {
    let mut all = front;
    for item in back.into_iter() {
        all.push(item)?;
    }
    Ok(all)
}

// Puts an operation at the end, as one with the last where both are of one kind.
fn put(ops: &mut Ops, op: Op) -> Result<(), NoMemory> {
    match ops.pop() {
        None => ops.push(op),
        Some(last) => put_after(ops, last, op),
    }
}

fn put_after(ops: &mut Ops, last: Op, op: Op) -> Result<(), NoMemory> {
    match (last, op) {
        (Op::Copy { n, ln }, Op::Copy { n: more, ln: later }) => ops.push(Op::Copy {
            n: n.wrapping_add(more),
            ln: ln.or(later),
        }),
        (Op::Skip { n }, Op::Skip { n: more }) => ops.push(Op::Skip {
            n: n.wrapping_add(more),
        }),
        (Op::Invalidate { n }, Op::Invalidate { n: more }) => ops.push(Op::Invalidate {
            n: n.wrapping_add(more),
        }),
        (Op::Ins { lines }, Op::Ins { lines: more }) => ops.push(Op::Ins {
            lines: appended(lines, more)?,
        }),
        (
            Op::Update { ln, lines },
            Op::Update {
                ln: later,
                lines: more,
            },
        ) => ops.push(Op::Update {
            ln: ln.or(later),
            lines: appended(lines, more)?,
        }),
        (last, op) => {
            ops.push(last)?;
            ops.push(op)
        }
    }
}

// Passes over the old lines before the one that is taken over, and gives those that are done with.
fn passed(ops: &mut Ops, used: u64, how: Standing) -> Result<u64, NoMemory> {
    match how {
        Standing::Stays(old) | Standing::Restyled(old) => {
            if used < old {
                put(
                    ops,
                    Op::Skip {
                        n: old.wrapping_sub(used),
                    },
                )?;
            }
            Ok(old.wrapping_add(1))
        }
        Standing::Sent | Standing::Left => Ok(used),
    }
}

/// The operations of an entry, made line by line.
pub(crate) fn operations(alloc: Global, entry: &Drawn, mirror: &Mirror) -> Result<Ops, NoMemory> {
    let mut ops = Ops::new(alloc);
    let mut used = 0u64;
    for index in 0..entry.total {
        let how = standing_of(entry, mirror, index);
        used = passed(&mut ops, used, how)?;
        let op = operation(alloc, how, line_at(alloc, entry, index)?)?;
        put(&mut ops, op)?;
    }
    Ok(ops)
}

/// Which lines are valid after operations on a screen with these lines, and how many old ones they take over or pass over.
pub(crate) fn screen_after(
    alloc: Global,
    mirror: &Mirror,
    ops: &Ops,
) -> Result<(Vec<bool>, u64), NoMemory> {
    let mut shown = Vec::new(alloc);
    let mut used = 0u64;
    for op in ops.as_slice() {
        match op {
            Op::Copy { n, ln: _ } => used = taken(&mut shown, mirror, used, *n)?,
            Op::Skip { n } => used = used.wrapping_add(*n),
            Op::Invalidate { n } => all(&mut shown, *n, false)?,
            Op::Ins { lines } => all(&mut shown, lines.len() as u64, true)?,
            Op::Update { ln: _, lines } => {
                used = taken(&mut shown, mirror, used, lines.len() as u64)?;
            }
        }
    }
    Ok((shown, used))
}

fn all(shown: &mut Vec<bool>, n: u64, valid: bool) -> Result<(), NoMemory> {
    for _ in 0..n {
        shown.push(valid)?;
    }
    Ok(())
}

fn taken(shown: &mut Vec<bool>, mirror: &Mirror, used: u64, n: u64) -> Result<u64, NoMemory> {
    for past in 0..n {
        shown.push(mirror.valid(used.wrapping_add(past)))?;
    }
    Ok(used.wrapping_add(n))
}
