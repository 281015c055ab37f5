//! Plans of worked sessions.

use crate::entries::{Entry, go};
use line_cache::{Stay, Step};

const NOTHING: (u64, u64) = (0, 0);

fn stay(old: u64, new: u64, n: u64) -> Stay {
    Stay {
        old,
        new,
        n,
        same: true,
    }
}

fn touched(old: u64, new: u64, n: u64) -> Stay {
    Stay {
        old,
        new,
        n,
        same: false,
    }
}

fn keep(old: u64, n: u64) -> Step {
    Step::Keep { old, n }
}

fn restyle(old: u64, n: u64) -> Step {
    Step::Restyle { old, n }
}

fn send(first: u64, n: u64) -> Step {
    Step::Send { first, n }
}

fn left(n: u64) -> Step {
    Step::Drop { n }
}

fn entry<'a>(
    stay: &'a [Stay],
    total: u64,
    window: (u64, u64),
    request: (u64, u64),
    steps: &'a [Step],
) -> Entry<'a> {
    Entry {
        stay,
        total,
        window,
        request,
        steps,
    }
}

#[test]
fn a_long_file_is_edited_at_its_start(rt: HostRuntime) {
    let alloc = rt.alloc();
    let caret = [
        touched(0, 0, 1),
        stay(1, 1, 3),
        touched(4, 4, 1),
        stay(5, 5, 1995),
    ];
    let text = [stay(0, 0, 4), stay(5, 5, 1995)];
    let all = [stay(0, 0, 2000)];
    assert!(rt;
        go(
            alloc,
            &[
                entry(&[], 2000, (0, 10), NOTHING, &[send(0, 10), left(1990)]),
                entry(
                    &caret,
                    2000,
                    (0, 10),
                    NOTHING,
                    &[
                        restyle(0, 1),
                        keep(1, 3),
                        restyle(4, 1),
                        keep(5, 5),
                        left(1990)
                    ]
                ),
                entry(
                    &text,
                    2000,
                    (0, 10),
                    NOTHING,
                    &[keep(0, 4), send(4, 1), keep(5, 5), left(1990)]
                ),
                entry(
                    &all,
                    2000,
                    (0, 10),
                    (1500, 1502),
                    &[keep(0, 10), left(1490), send(1500, 2), left(498)]
                ),
                entry(
                    &all,
                    2000,
                    (0, 10),
                    (1501, 1503),
                    &[
                        keep(0, 10),
                        left(1491),
                        keep(1501, 1),
                        send(1502, 1),
                        left(497)
                    ]
                ),
            ]
        )
    );
}

#[test]
fn a_window_moves_over_a_long_file(rt: HostRuntime) {
    let alloc = rt.alloc();
    let all = [stay(0, 0, 2000)];
    assert!(rt;
        go(
            alloc,
            &[
                entry(&[], 2000, (0, 10), NOTHING, &[send(0, 10), left(1990)]),
                entry(
                    &all,
                    2000,
                    (5, 15),
                    NOTHING,
                    &[keep(0, 10), send(10, 5), left(1985)]
                ),
                entry(
                    &all,
                    2000,
                    (505, 515),
                    NOTHING,
                    &[keep(0, 15), left(490), send(505, 10), left(1485)]
                ),
                entry(
                    &all,
                    2000,
                    (1001, 1002),
                    NOTHING,
                    &[
                        left(1),
                        keep(1, 14),
                        left(490),
                        keep(505, 10),
                        left(486),
                        send(1001, 1),
                        left(998)
                    ]
                ),
                entry(
                    &all,
                    2000,
                    (1600, 1610),
                    NOTHING,
                    &[
                        left(1001),
                        keep(1001, 1),
                        left(598),
                        send(1600, 10),
                        left(390)
                    ]
                ),
                entry(
                    &all,
                    2000,
                    (1, 2),
                    NOTHING,
                    &[left(1), send(1, 1), left(999), keep(1001, 1), left(998)]
                ),
                entry(
                    &all,
                    2000,
                    (0, 1),
                    NOTHING,
                    &[send(0, 1), keep(1, 1), left(1998)]
                ),
            ]
        )
    );
}

#[test]
fn windows_and_requests_of_any_bounds(rt: HostRuntime) {
    let alloc = rt.alloc();
    let all = [stay(0, 0, 5000)];
    assert!(rt;
        go(
            alloc,
            &[
                entry(&[], 3, (5, 9), NOTHING, &[left(3)]),
                entry(&[stay(0, 0, 3)], 3, (1, 9), NOTHING, &[left(1), send(1, 2)]),
                entry(&[], 0, (0, 9), (0, 9), &[]),
                entry(&[], 5000, NOTHING, NOTHING, &[left(5000)]),
                entry(&all, 5000, (0, 10), (2, 4), &[send(0, 10), left(4990)]),
                entry(
                    &all,
                    5000,
                    (0, 10),
                    (3000, 3002),
                    &[keep(0, 10), left(2990), send(3000, 2), left(1998)]
                ),
                entry(
                    &all,
                    5000,
                    (0, 10),
                    (4000, 4001),
                    &[keep(0, 10), left(3990), send(4000, 1), left(999)]
                ),
                entry(&[touched(0, 0, 1)], 1, (0, 10), NOTHING, &[restyle(0, 1)]),
            ]
        )
    );
}

#[test]
fn partners_that_are_not_consecutive(rt: HostRuntime) {
    let alloc = rt.alloc();
    assert!(rt;
        go(
            alloc,
            &[
                entry(&[], 8, (0, 8), NOTHING, &[send(0, 8)]),
                entry(
                    &[stay(0, 0, 2), stay(2, 2, 2), stay(5, 4, 3)],
                    7,
                    (0, 9),
                    NOTHING,
                    &[keep(0, 4), keep(5, 3)]
                ),
                entry(
                    &[touched(0, 1, 2), touched(4, 3, 2)],
                    5,
                    (0, 9),
                    NOTHING,
                    &[send(0, 1), restyle(0, 2), restyle(4, 2)]
                ),
                entry(
                    &[
                        stay(1, 0, 1),
                        touched(2, 1, 1),
                        stay(3, 2, 0),
                        stay(3, 2, 1)
                    ],
                    3,
                    (0, 9),
                    NOTHING,
                    &[keep(1, 1), restyle(2, 1), keep(3, 1)]
                ),
            ]
        )
    );
}

#[test]
fn touched_lines_that_are_not_valid_and_ones_outside_the_window(rt: HostRuntime) {
    let alloc = rt.alloc();
    let lines = 1 << 40;
    assert!(rt;
        go(
            alloc,
            &[
                entry(&[], 2000, (0, 10), NOTHING, &[send(0, 10), left(1990)]),
                entry(
                    &[touched(0, 0, 2000)],
                    2000,
                    (5, 15),
                    NOTHING,
                    &[left(5), restyle(5, 5), send(10, 5), left(1985)]
                ),
                entry(
                    &[],
                    2 * lines,
                    (0, lines),
                    NOTHING,
                    &[send(0, lines), left(lines)]
                ),
                entry(
                    &[stay(0, 0, 2 * lines)],
                    2 * lines,
                    (0, lines),
                    NOTHING,
                    &[keep(0, lines), left(lines)]
                ),
                entry(&[], u64::MAX, (0, u64::MAX), NOTHING, &[send(0, u64::MAX)]),
            ]
        )
    );
}
