//! Undo groups.

use std::alloc::Global;
use std::collections::BTreeSet;
use undo_groups::Stack;

// Whether the stack is a copy of what it was.
fn copies(alloc: Global, stack: &mut Stack) -> bool {
    match stack.copy(alloc) {
        Ok(copy) => {
            *stack = copy;
            true
        }
        Err(_) => false,
    }
}

// Whether so many groups are opened, one after the other.
pub(crate) fn opens(stack: &mut Stack, count: u64) -> bool {
    for _ in 0..count {
        if stack.given() >= 1000 || stack.open_group().is_err() {
            return false;
        }
    }
    true
}

// Whether these are the groups in order, and there is none where there is no answer.
fn are(found: &Option<BTreeSet<u64>>, groups: Option<&[u64]>) -> bool {
    match (found, groups) {
        (Some(found), Some(groups)) => {
            let mut rest = groups;
            for group in found {
                let Some((first, others)) = rest.split_first() else {
                    return false;
                };
                if first != group {
                    return false;
                }
                rest = others;
            }
            rest.is_empty()
        }
        (None, None) => true,
        _ => false,
    }
}

// Whether an undo gives these groups.
fn undoes(alloc: Global, stack: &mut Stack, groups: Option<&[u64]>) -> bool {
    match stack.undo() {
        Ok(found) => are(&found, groups) && copies(alloc, stack),
        Err(_) => false,
    }
}

// Whether a redo gives these groups.
fn redoes(alloc: Global, stack: &mut Stack, groups: Option<&[u64]>) -> bool {
    match stack.redo() {
        Ok(found) => are(&found, groups) && copies(alloc, stack),
        Err(_) => false,
    }
}

// Whether this group alone is retired, or none.
fn retires(stack: &Stack, group: Option<u64>) -> bool {
    stack.retired(0) == group && stack.retired(1) == None
}

fn gives_whole_sets(alloc: Global, stack: &mut Stack) -> bool {
    opens(stack, 2)
        && copies(alloc, stack)
        && undoes(alloc, stack, Some(&[2]))
        && undoes(alloc, stack, Some(&[1, 2]))
        && undoes(alloc, stack, None)
        && redoes(alloc, stack, Some(&[2]))
        && retires(stack, None)
}

fn goes_on_after_a_group(alloc: Global, stack: &mut Stack) -> bool {
    opens(stack, 1)
        && retires(stack, Some(2))
        && redoes(alloc, stack, None)
        && undoes(alloc, stack, Some(&[2, 3]))
        && retires(stack, Some(2))
}

fn undo_and_redo(alloc: Global) -> bool {
    let mut stack = Stack::new(alloc);
    gives_whole_sets(alloc, &mut stack) && goes_on_after_a_group(alloc, &mut stack)
}

#[test]
fn undo_and_redo_give_the_whole_set(rt: HostRuntime) {
    assert!(rt; undo_and_redo(rt.alloc()));
}

// Whether so many undos each give a set.
fn undoes_all(stack: &mut Stack, count: u64) -> bool {
    for _ in 0..count {
        match stack.undo() {
            Ok(Some(_)) => {}
            _ => return false,
        }
    }
    true
}

fn retires_the_oldest(alloc: Global) -> bool {
    let mut stack = Stack::new(alloc);
    opens(&mut stack, 20)
        && stack.given() == 20
        && retires(&stack, None)
        && opens(&mut stack, 1)
        && stack.given() == 21
        && retires(&stack, Some(1))
        && undoes_all(&mut stack, 20)
        && stack.given() == 21
        && retires(&stack, Some(1))
        && undoes(alloc, &mut stack, None)
}

#[test]
fn the_twenty_first_group_retires_the_oldest(rt: HostRuntime) {
    assert!(rt; retires_the_oldest(rt.alloc()));
}
