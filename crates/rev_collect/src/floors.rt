ghost use Rattle.std.specs.Prelude.{◌≡◌, ◌≤◌, min};
ghost use Rattle.plain_edits.specs.History.{head};
ghost use Rattle.plain_edits.specs.Collection.{clean_floor, is_clean};
ghost use Rattle.rev_collect.specs.Inner.{is_step_from, least_base};

use rev_list::{RevList, RevStep};

/// Whether the floor is clean: no edit after it has a base below it. It costs the height of the list for each revision after the floor.
pub fn clean(revs: &RevList, floor: u64) -> bool
    requires reached { revs.now.floor ≤ floor }
    requires known { floor ≤ head revs.now }
    ensures { result ≡ is_clean revs.now.revisions floor }
{
    for revision in revs.revisions_after(floor) {
        if !is_based_from(floor, revision) {
            return false;
        }
    }
    true
}

fn is_based_from(floor: u64, revision: &RevStep) -> bool
    ensures { result ≡ is_step_from floor revision.now }
{
    match revision {
        RevStep::Edit(edit) => floor <= edit.base,
        RevStep::Undo(_) => true,
    }
}

// The greatest clean floor up to a revision. It costs the height of the list for each revision after that floor, or after `most`.
pub(crate) fn clean_floor(revs: &RevList, most: u64) -> u64
    requires reached { revs.now.floor ≤ most }
    requires known { most ≤ head revs.now }
    ensures found { result ≡ clean_floor revs.now.revisions most }
    ensures reached { revs.now.floor ≤ result }
    ensures known { result ≤ most }
{
    let floor = revs.floor();
    let mut at = revs.head();
    let mut least = most;
    while floor < at && least < at {
        least = least_base(least, revs.revision(at));
        at -= 1;
    }
    at
}

// The least of this and the base of the revision, where it is an edit.
fn least_base(least: u64, revision: &RevStep) -> u64
    ensures { result ≡ least_base least revision.now }
{
    match revision {
        RevStep::Edit(edit) => least.min(edit.base),
        RevStep::Undo(_) => least,
    }
}
