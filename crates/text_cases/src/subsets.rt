//! Sets of positions.

use std::alloc::{AllocError, Global};
use subset_runs::{Subset, SubsetFault};

type Ranges<'a> = &'a [(u64, u64)];

/// Whether the range of this index is why the ranges are no subset of five positions.
fn is_refused(alloc: Global, ranges: Ranges<'_>, index: usize) -> bool {
    match Subset::of_ranges(alloc, 5, ranges) {
        Ok(_) => false,
        Err(fault) => fault == SubsetFault::Bad(index),
    }
}

#[test]
fn the_first_range_at_fault_is_named(rt: HostRuntime) {
    let alloc = rt.alloc();
    assert!(rt; is_refused(alloc, &[(2, 1)], 0));
    assert!(rt; is_refused(alloc, &[(0, 6)], 0));
    assert!(rt; is_refused(alloc, &[(1, 3), (2, 4)], 1));
}

#[test]
fn a_later_range_at_fault_is_named(rt: HostRuntime) {
    let alloc = rt.alloc();
    assert!(rt; is_refused(alloc, &[(1, 3), (3, 4), (4, 6)], 2));
    assert!(rt; is_refused(alloc, &[(0, 1), (0, 0), (9, 8)], 1));
    assert!(rt; is_refused(alloc, &[(0, 0), (5, 5), (5, 5), (4, 5)], 3));
}

/// Whether a set was made, and has these runs.
fn has(made: Result<Subset, AllocError>, runs: Ranges<'_>) -> bool {
    match made {
        Ok(made) => made.runs() == runs,
        Err(_) => false,
    }
}

/// Whether what is in one of the two sets has these runs.
fn joins(alloc: Global, one: &Subset, other: &Subset, runs: Ranges<'_>) -> bool {
    one.len() == other.len() && has(one.union(alloc, other), runs)
}

/// Whether what is in the one and not in the other has these runs.
fn leaves(alloc: Global, one: &Subset, other: &Subset, runs: Ranges<'_>) -> bool {
    one.len() == other.len() && has(one.minus(alloc, other), runs)
}

/// Whether what is in exactly one of the two has these runs.
fn differs(alloc: Global, one: &Subset, other: &Subset, runs: Ranges<'_>) -> bool {
    one.len() == other.len() && has(one.symmetric_difference(alloc, other), runs)
}

/// Whether the one has these runs where the other is cut out of the text.
fn shrinks(alloc: Global, one: &Subset, other: &Subset, runs: Ranges<'_>) -> bool {
    one.len() == other.len() && has(one.shrink(alloc, other), runs)
}

/// A set of five positions.
fn five(alloc: Global, run: (u64, u64)) -> Result<Subset, SubsetFault> {
    Subset::of_ranges(alloc, 5, &[run])
}

/// Whether the second and third position have this union with the first one.
fn joins_the_first(alloc: Global, subset: &Subset) -> bool {
    match five(alloc, (0, 1)) {
        Ok(first) => joins(alloc, subset, &first, &[(0, 3)]),
        Err(_) => false,
    }
}

/// Whether they are these without the second one, and where it is cut out.
fn loses_the_second(alloc: Global, subset: &Subset) -> bool {
    match five(alloc, (1, 2)) {
        Ok(second) => {
            leaves(alloc, subset, &second, &[(2, 3)]) && shrinks(alloc, subset, &second, &[(1, 2)])
        }
        Err(_) => false,
    }
}

fn has_the_row(alloc: Global, subset: &Subset) -> bool {
    joins_the_first(alloc, subset)
        && loses_the_second(alloc, subset)
        && has(subset.complement(alloc), &[(0, 1), (3, 5)])
        && has(subset.copy(alloc), &[(1, 3)])
        && subset.count() == 2
}

fn two_of_five_have_the_row(alloc: Global) -> bool {
    match five(alloc, (1, 3)) {
        Ok(subset) => has_the_row(alloc, &subset),
        Err(_) => false,
    }
}

#[test]
fn the_row_of_sets(rt: HostRuntime) {
    assert!(rt; two_of_five_have_the_row(rt.alloc()));
}

/// Whether the second and third position differ so from the first two.
fn differs_from_two(alloc: Global, subset: &Subset) -> bool {
    match five(alloc, (0, 2)) {
        Ok(two) => differs(alloc, subset, &two, &[(0, 1), (2, 3)]),
        Err(_) => false,
    }
}

fn two_of_five_differ(alloc: Global) -> bool {
    match five(alloc, (1, 3)) {
        Ok(subset) => differs_from_two(alloc, &subset),
        Err(_) => false,
    }
}

#[test]
fn what_is_in_exactly_one_of_two_sets(rt: HostRuntime) {
    assert!(rt; two_of_five_differ(rt.alloc()));
}

/// Whether the set has these runs in the text that the other's positions were put into.
fn expands(alloc: Global, subset: &Subset, by: &Subset, runs: Ranges<'_>) -> bool {
    by.count() <= by.len()
        && subset.len() == by.len() - by.count()
        && has(subset.expand(alloc, by), runs)
}

/// Whether it has these together with those that were put in.
fn expands_in(alloc: Global, subset: &Subset, by: &Subset, runs: Ranges<'_>) -> bool {
    by.count() <= by.len()
        && subset.len() == by.len() - by.count()
        && has(subset.expand_in(alloc, by), runs)
}

fn expands_both_ways(alloc: Global, subset: &Subset, by: &Subset) -> bool {
    expands(alloc, subset, by, &[(3, 4)]) && expands_in(alloc, subset, by, &[(0, 1), (2, 4)])
}

/// Whether the second of two positions expands so by the first and third of four.
fn second_expands(alloc: Global, subset: &Subset) -> bool {
    match Subset::of_ranges(alloc, 4, &[(0, 1), (2, 3)]) {
        Ok(by) => expands_both_ways(alloc, subset, &by),
        Err(_) => false,
    }
}

fn one_of_two_expands(alloc: Global) -> bool {
    match Subset::of_ranges(alloc, 2, &[(1, 2)]) {
        Ok(subset) => second_expands(alloc, &subset),
        Err(_) => false,
    }
}

#[test]
fn the_row_of_two_texts(rt: HostRuntime) {
    assert!(rt; one_of_two_expands(rt.alloc()));
}

/// Two positions that are no members, and so many more that are.
fn grown(alloc: Global, more: u64) -> Result<Subset, AllocError> {
    let mut grown = Subset::none(alloc, 2);
    if grown.len() == 2 && more < 10 {
        grown.append(more, true)?;
    }
    Ok(grown)
}

#[test]
fn a_set_grows_at_its_end(rt: HostRuntime) {
    assert!(rt; has(grown(rt.alloc(), 3), &[(2, 5)]));
}
