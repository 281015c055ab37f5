//! Copies of stacks of undo groups.

use crate::groups::opens;
use std::alloc::Global;
use undo_groups::Stack;

// Whether an undo takes this group.
fn undoes(stack: &mut Stack, group: u64) -> bool {
    match stack.undo_group() {
        Ok(found) => found == Some(group),
        Err(_) => false,
    }
}

// Whether a redo takes this group.
fn redoes(stack: &mut Stack, group: u64) -> bool {
    match stack.redo_group() {
        Ok(found) => found == Some(group),
        Err(_) => false,
    }
}

fn forgets(stack: &mut Stack, group: u64) -> bool {
    stack.is_retired(group) && stack.forget(group).is_ok()
}

// Whether three groups are opened, and the last one is undone.
fn begins(stack: &mut Stack) -> bool {
    opens(stack, 3) && undoes(stack, 3)
}

// Whether a fourth group cuts the third off, which is forgotten, and two undoes go back to the first.
fn goes_another_way(stack: &mut Stack) -> bool {
    opens(stack, 1) && forgets(stack, 3) && undoes(stack, 4) && undoes(stack, 2)
}

// Whether so many groups were given out, and of the second and the third one these are undone.
fn stands(stack: &Stack, given: u64, second: bool, third: bool) -> bool {
    stack.given() == given
        && stack.is_undone(2) == second
        && stack.is_undone(3) == third
        && !stack.has_retired()
}

// Whether the copy goes another way, and leaves the stack as it was; a redo of the stack then leaves the copy.
fn leaves(stack: &mut Stack, copy: &mut Stack) -> bool {
    goes_another_way(copy)
        && stands(copy, 4, true, true)
        && stands(stack, 3, false, true)
        && redoes(stack, 3)
        && stands(stack, 3, false, false)
        && stands(copy, 4, true, true)
}

fn has_a_copy_that_leaves_it(alloc: Global, stack: &mut Stack) -> bool {
    match stack.copy(alloc) {
        Ok(mut copy) => leaves(stack, &mut copy),
        Err(_) => false,
    }
}

fn is_left(alloc: Global) -> bool {
    let mut stack = Stack::new(alloc);
    begins(&mut stack) && has_a_copy_that_leaves_it(alloc, &mut stack)
}

#[test]
fn a_copy_that_goes_another_way_leaves_the_first_one(rt: HostRuntime) {
    assert!(rt; is_left(rt.alloc()));
}
