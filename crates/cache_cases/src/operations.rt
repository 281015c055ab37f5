//! Operations of worked sessions, in words: a count, and the number that the first of the lines gets which has one.

use crate::definition::{Drawn, Numbered};
use crate::entered::entered;
use line_cache::{Mirror, Stay};
use plain_screen::{Op, Ops};
use plain_text::Run;
use std::alloc::{AllocError, Global};
use std::fmt::Write;

const NOTHING: (u64, u64) = (0, 0);

// An entry, the lines of which have no number, and its operations.
#[derive(Clone, Copy)]
struct Worked<'a> {
    stay: &'a [Stay],
    total: u64,
    window: (u64, u64),
    request: (u64, u64),
    bare: (u64, u64),
    said: &'a str,
}

fn stay(old: u64, new: u64, n: u64) -> Stay {
    Stay {
        old,
        new,
        n,
        same: true,
    }
}

fn touched(old: u64, new: u64, n: u64) -> Stay {
    Stay {
        old,
        new,
        n,
        same: false,
    }
}

fn row<'a>(stay: &'a [Stay], total: u64, window: (u64, u64), said: &'a str) -> Worked<'a> {
    Worked {
        stay,
        total,
        window,
        request: NOTHING,
        bare: NOTHING,
        said,
    }
}

fn run(bounds: (u64, u64)) -> Run {
    Run {
        start: bounds.0,
        end: bounds.1,
    }
}

fn say_number(said: &mut String, number: Option<u64>) -> Result<(), AllocError> {
    match number {
        Some(number) => write!(said, " from {number}"),
        None => Ok(()),
    }
}

fn say(said: &mut String, op: &Op) -> Result<(), AllocError> {
    match op {
        Op::Copy { n, ln } => {
            write!(said, "copy {n}")?;
            say_number(said, *ln)
        }
        Op::Skip { n } => write!(said, "skip {n}"),
        Op::Invalidate { n } => write!(said, "invalidate {n}"),
        Op::Ins { lines } => write!(said, "ins {}", lines.len()),
        Op::Update { ln, lines } => {
            write!(said, "update {}", lines.len())?;
            say_number(said, *ln)
        }
    }
}

fn in_words(alloc: Global, ops: &Ops) -> Result<String, AllocError> {
    let mut said = String::new(alloc);
    for op in ops.as_slice() {
        if !said.is_empty() {
            write!(said, ", ")?;
        }
        say(&mut said, op)?;
    }
    Ok(said)
}

// What a front end has after the row, where its operations are these.
fn after(alloc: Global, mirror: &Mirror, row: Worked<'_>) -> Option<Mirror> {
    let entry = Drawn {
        stay: Vec::from_slice(alloc, row.stay).ok()?,
        total: row.total,
        window: run(row.window),
        request: run(row.request),
        numbered: Numbered::AllBut(run(row.bare)),
    };
    let (next, ops) = entered(alloc, mirror, &entry).ok()??;
    let said = in_words(alloc, &ops).ok()?;
    if said.as_str() == row.said {
        Some(next)
    } else {
        None
    }
}

// Whether each row of a session has its operations.
fn go(alloc: Global, rows: &[Worked<'_>]) -> bool {
    let mut mirror = Mirror::new();
    for row in rows {
        match after(alloc, &mirror, *row) {
            Some(next) => mirror = next,
            None => return false,
        }
    }
    true
}

#[test]
fn carets_and_texts_at_the_start_of_a_long_file(rt: HostRuntime) {
    let alloc = rt.alloc();
    let caret = [
        touched(0, 0, 1),
        stay(1, 1, 3),
        touched(4, 4, 1),
        stay(5, 5, 1995),
    ];
    let text = [stay(0, 0, 4), stay(5, 5, 1995)];
    let all = [stay(0, 0, 2000)];
    assert!(rt;
        go(
            alloc,
            &[
                row(&[], 2000, (0, 10), "ins 10, invalidate 1990"),
                row(
                    &caret,
                    2000,
                    (0, 10),
                    "update 1 from 1, copy 3 from 2, update 1 from 5, copy 5 from 6, invalidate 1990",
                ),
                row(
                    &text,
                    2000,
                    (0, 10),
                    "copy 4 from 1, ins 1, skip 1, copy 5 from 6, invalidate 1990",
                ),
                Worked {
                    request: (1500, 1502),
                    ..row(
                        &all,
                        2000,
                        (0, 10),
                        "copy 10 from 1, invalidate 1490, ins 2, invalidate 498",
                    )
                },
                Worked {
                    request: (1501, 1503),
                    ..row(
                        &all,
                        2000,
                        (0, 10),
                        "copy 10 from 1, invalidate 1491, skip 1491, copy 1 from 1502, ins 1, invalidate 497",
                    )
                },
            ],
        )
    );
}

#[test]
fn a_window_over_a_long_file(rt: HostRuntime) {
    let alloc = rt.alloc();
    let all = [stay(0, 0, 2000)];
    assert!(rt;
        go(
            alloc,
            &[
                row(&[], 2000, (0, 10), "ins 10, invalidate 1990"),
                row(
                    &all,
                    2000,
                    (5, 15),
                    "copy 10 from 1, ins 5, invalidate 1985",
                ),
                row(
                    &all,
                    2000,
                    (505, 515),
                    "copy 15 from 1, invalidate 490, ins 10, invalidate 1485",
                ),
                row(
                    &all,
                    2000,
                    (1001, 1002),
                    "invalidate 1, skip 1, copy 14 from 2, invalidate 490, skip 490, copy 10 from 506, invalidate 486, ins 1, invalidate 998",
                ),
                row(
                    &all,
                    2000,
                    (1600, 1610),
                    "invalidate 1001, skip 1001, copy 1 from 1002, invalidate 598, ins 10, invalidate 390",
                ),
                row(
                    &all,
                    2000,
                    (1, 2),
                    "invalidate 1, ins 1, invalidate 999, skip 1001, copy 1 from 1002, invalidate 998",
                ),
                row(
                    &all,
                    2000,
                    (0, 1),
                    "ins 1, skip 1, copy 1 from 2, invalidate 1998",
                ),
            ],
        )
    );
}

#[test]
fn partners_with_gaps_and_lines_without_numbers(rt: HostRuntime) {
    let alloc = rt.alloc();
    let kept = [stay(0, 0, 2), stay(2, 2, 2), stay(5, 4, 3)];
    let restyled = [touched(0, 1, 2), touched(4, 3, 2)];
    let both = [stay(0, 0, 3), touched(3, 3, 2)];
    assert!(rt;
        go(
            alloc,
            &[
                row(&[], 8, (0, 8), "ins 8"),
                row(&kept, 7, (0, 9), "copy 4 from 1, skip 1, copy 3 from 5"),
                row(
                    &restyled,
                    5,
                    (0, 9),
                    "ins 1, update 2 from 2, skip 2, update 2 from 4",
                ),
                Worked {
                    bare: (0, 5),
                    ..row(&both, 5, (0, 9), "copy 3, update 2")
                },
                Worked {
                    bare: (0, 4),
                    ..row(&both, 5, (0, 9), "copy 3, update 2 from 5")
                },
                Worked {
                    bare: (0, 2),
                    ..row(&both, 5, (0, 9), "copy 3 from 3, update 2 from 4")
                },
                row(&[touched(4, 0, 1)], 1, NOTHING, "invalidate 1"),
                row(&[touched(0, 0, 1)], 1, (0, 9), "ins 1"),
                row(&[], 0, (0, 9), ""),
            ],
        )
    );
}
