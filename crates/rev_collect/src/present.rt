// The edits of a list in present positions.
ghost use Rattle.std.specs.Prelude.{◌≡◌, ◌+◌, ◌++◌, length, map, IfOk, OnOk};
ghost use Rattle.std.specs.List.{AllByRecursion};
ghost use Rattle.subset_runs.specs.Subset.{count};
ghost use Rattle.rev_collect.specs.Present.{AreAllEdits, ArePresent, FitsLater, in_present, later_with, present_of};

use plain_text::NoMemory;
use rev_list::{RevList, RevStep, SettledGroup};
use std::alloc::{AllocError, Global};
use subset_runs::Subset;

// All edits: those after the floor, and of those up to there the last one of each group, which stands for them.
pub(crate) fn all_edits(alloc: Global, revs: &RevList) -> Result<Vec<SettledGroup>, NoMemory>
    ensures { IfOk result (λ made. AreAllEdits revs.now made.items) }
{
    let _walk = revs.revisions_after(revs.floor());
    let (edits, later) = present_edits(alloc, revs)?;
    Ok(with_settled(alloc, edits, revs.settled_groups(), &later)?)
}

// With what the groups up to the floor say, where `later` came after it.
fn with_settled(
    alloc: Global,
    edits: Vec<SettledGroup>,
    groups: &[SettledGroup],
    later: &Subset,
) -> Result<Vec<SettledGroup>, AllocError>
    requires inserted { AllByRecursion (λ g. length g.inserted + count later.now ≡ length later.now) groups.now }
    requires deleted { AllByRecursion (λ g. length g.deleted + count later.now ≡ length later.now) groups.now }
    ensures { IfOk result (λ made. made.items ≡ edits.items ++ map (in_present later.now) groups.now) }
{
    let mut all = edits;
    for group in groups {
        all.push(brought_up(alloc, group, later)?)?;
    }
    Ok(all)
}

fn brought_up(
    alloc: Global,
    group: &SettledGroup,
    later: &Subset,
) -> Result<SettledGroup, AllocError>
    requires inserted { length group.now.inserted + count later.now ≡ length later.now }
    requires deleted { length group.now.deleted + count later.now ≡ length later.now }
    ensures { IfOk result (λ made. made ≡ in_present later.now group.now) }
{
    Ok(SettledGroup {
        group: group.group,
        last: group.last,
        inserted: group.inserted.expand(alloc, later)?,
        deleted: group.deleted.expand(alloc, later)?,
    })
}

// Each edit after the floor, the newest first, with what it inserted and deleted of the present union; and the positions that came after
// the floor. The walk goes back from the head with the positions that came later, and brings each edit up once: for each revision
// after the floor the runs of the edit and of what came later.
pub(crate) fn present_edits(
    alloc: Global,
    revs: &RevList,
) -> Result<(Vec<SettledGroup>, Subset), NoMemory>
    ensures { IfOk result (λ made. ArePresent revs.now revs.now.floor made.0.items made.1) }
{
    let floor = revs.floor();
    let _walk = revs.revisions_after(floor);
    let mut edits = Vec::new(alloc);
    let mut later = Subset::none(alloc, revs.union_len());
    let mut at = revs.head();
    while floor < at {
        later = with_edit(alloc, &mut edits, later, revs.revision(at), at)?;
        at -= 1;
    }
    Ok((edits, later))
}

// With one more revision, where `later` came after it. After want of memory nothing is known of the edits.
fn with_edit(
    alloc: Global,
    edits: &mut Vec<SettledGroup>,
    later: Subset,
    revision: &RevStep,
    at: u64,
) -> Result<Subset, NoMemory>
    requires { FitsLater later revision.now }
    ensures later { IfOk result (λ made. made ≡ later_with later revision.now) }
    ensures edits { OnOk result (edits.new.items ≡ edits.old.items ++ present_of at later revision.now) }
{
    match revision {
        RevStep::Edit(edit) => {
            let inserted = edit.inserted.expand(alloc, &later)?;
            let deleted = edit.deleted.expand(alloc, &later)?;
            let more = later.union(alloc, &inserted)?;
            edits.push(SettledGroup {
                group: edit.group,
                last: at,
                inserted,
                deleted,
            })?;
            Ok(more)
        }
        RevStep::Undo(_) => Ok(later),
    }
}
