//! The list of revisions.

use crate::made::{fails, holds};
use crate::undos::{has_runs, push, pushed, shows};
use rev_list::{RevFault, RevList, RevStep};
use std::alloc::{AllocError, Global};

type Ranges<'a> = &'a [(u64, u64)];

// Whether these are the runs of what was dead then in the union of that time.
fn were_dead(alloc: Global, revs: &RevList, rev: u64, runs: Ranges<'_>) -> bool {
    has_runs(revs.dead_then(alloc, rev), runs)
}

// Whether the one edit of two characters is there, and each revision has its dead.
fn is_the_row(alloc: Global, revs: &mut RevList) -> bool {
    pushed(alloc, revs, 0, 1, 3, &[(1, 2)], &[(2, 3)]) == Some(1)
        && shows(alloc, revs, 0, &[(1, 2)])
        && shows(alloc, revs, 1, &[(2, 3)])
}

#[test]
fn row_of_rev_list(rt: HostRuntime) {
    let alloc = rt.alloc();
    assert!(rt; holds(alloc, RevList::start(alloc, 2), is_the_row));
}

// Three edits of a text of three characters, of which the last only deletes.
fn three_edits(alloc: Global, revs: &mut RevList) -> bool {
    push(alloc, revs, 0, 1, 4, &[(1, 2)], &[(3, 4)])
        && push(alloc, revs, 1, 1, 6, &[(0, 1), (5, 6)], &[(1, 2)])
        && push(alloc, revs, 0, 1, 6, &[], &[(1, 3)])
}

// Whether a copy of the list has these dead at each revision, and then.
fn has_its_dead(alloc: Global, copy: &mut RevList) -> bool {
    shows(alloc, copy, 0, &[(0, 1), (2, 3), (5, 6)])
        && shows(alloc, copy, 1, &[(0, 1), (4, 6)])
        && shows(alloc, copy, 2, &[(1, 2), (4, 5)])
        && shows(alloc, copy, 3, &[(1, 3), (4, 5)])
        && were_dead(alloc, copy, 0, &[])
        && were_dead(alloc, copy, 1, &[(3, 4)])
        && fails(copy.dead_at(alloc, 4), RevFault::Unknown(3))
}

fn each_has_its_dead(alloc: Global, revs: &mut RevList) -> bool {
    three_edits(alloc, revs) && holds(alloc, revs.copy(alloc), has_its_dead)
}

#[test]
fn each_revision_has_its_dead(rt: HostRuntime) {
    let alloc = rt.alloc();
    assert!(rt; holds(alloc, RevList::start(alloc, 3), each_has_its_dead));
}

// The bases of the edits after a revision.
fn bases_after(alloc: Global, revs: &RevList, rev: u64) -> Result<Vec<u64>, AllocError> {
    let mut bases = Vec::new(alloc);
    if revs.floor() <= rev && rev <= revs.head() {
        for revision in revs.revisions_after(rev) {
            if let RevStep::Edit(edit) = revision {
                bases.push(edit.base)?;
            }
        }
    }
    Ok(bases)
}

// Whether these are the bases of the edits after the revision.
fn are_bases(alloc: Global, revs: &RevList, rev: u64, bases: &[u64]) -> bool {
    match bases_after(alloc, revs, rev) {
        Ok(found) => found.as_slice() == bases,
        Err(_) => false,
    }
}

// Whether the edit has this base.
fn has_base(revs: &RevList, rev: u64, base: u64) -> bool {
    match revs.edit(rev) {
        Some(edit) => edit.base == base,
        None => false,
    }
}

fn come_in_order(alloc: Global, revs: &mut RevList) -> bool {
    three_edits(alloc, revs)
        && are_bases(alloc, revs, 0, &[0, 1, 0])
        && are_bases(alloc, revs, 1, &[1, 0])
        && are_bases(alloc, revs, 3, &[])
        && has_base(revs, 2, 1)
}

#[test]
fn revisions_after_a_revision_come_in_order(rt: HostRuntime) {
    let alloc = rt.alloc();
    assert!(rt; holds(alloc, RevList::start(alloc, 3), come_in_order));
}

// Whether the fault is printed so.
fn prints(alloc: Global, fault: RevFault, text: &str) -> bool {
    match format!(in alloc; "{fault}") {
        Ok(printed) => printed.as_str() == text,
        Err(_) => false,
    }
}

#[test]
fn faults_are_printed(rt: HostRuntime) {
    let alloc = rt.alloc();
    assert!(rt; prints(alloc, RevFault::Unknown(3), "the head is revision 3"));
    assert!(rt; prints(alloc, RevFault::Collected(2), "the floor is revision 2"));
    assert!(rt; prints(alloc, RevFault::NoMemory, "out of memory"));
}
