// Edits, joined by their groups.
ghost use Rattle.std.specs.Prelude.{◌≡◌, length, map, take, IfOk, OnOk};
ghost use Rattle.std.specs.List.{fold, AllByRecursion};
ghost use Rattle.rev_list.specs.Settled.{HasLengths};
ghost use Rattle.rev_collect.specs.Joined.{all_joined, blank, joined, later_of, numbers_of, with_edit};

use number_set::NumberSet;
use plain_text::NoMemory;
use rev_list::SettledGroup;
use std::alloc::{AllocError, Global};
use subset_runs::Subset;

// The groups of the edits, in rising order, each with what its edits say: for each edit the logarithm of the number of groups, and the
// runs of the edit and of what is known of its group.
pub(crate) fn all_joined(
    alloc: Global,
    len: u64,
    edits: &[SettledGroup],
) -> Result<Vec<SettledGroup>, NoMemory>
    requires { AllByRecursion (HasLengths len) edits.now }
    ensures { IfOk result (λ groups. groups.items ≡ all_joined len edits.now) }
{
    let numbers = numbers_of(alloc, edits)?;
    let groups = blank_groups(alloc, len, &numbers)?;
    Ok(with_edits(alloc, len, &numbers, groups, edits)?)
}

// The groups, whose numbers these are, with what the edits say.
fn with_edits(
    alloc: Global,
    len: u64,
    numbers: &NumberSet,
    groups: Vec<SettledGroup>,
    edits: &[SettledGroup],
) -> Result<Vec<SettledGroup>, AllocError>
    requires numbers { map (λ g. g.group) groups.items ≡ numbers.now }
    requires groups { AllByRecursion (HasLengths len) groups.items }
    requires edits { AllByRecursion (HasLengths len) edits.now }
    ensures { IfOk result (λ made. made.items ≡ fold with_edit groups.items edits.now) }
{
    let _len = len;
    let mut all = groups;
    for edit in edits {
        add(alloc, numbers, &mut all, edit)?;
    }
    Ok(all)
}

fn numbers_of(alloc: Global, edits: &[SettledGroup]) -> Result<NumberSet, NoMemory>
    ensures { IfOk result (λ numbers. numbers ≡ numbers_of edits.now) }
{
    let mut numbers = NumberSet::new(alloc);
    for edit in edits {
        numbers = numbers.with(alloc, edit.group)?;
    }
    Ok(numbers)
}

fn blank_groups(
    alloc: Global,
    len: u64,
    numbers: &NumberSet,
) -> Result<Vec<SettledGroup>, AllocError>
    ensures { IfOk result (λ groups. groups.items ≡ map (blank len) numbers.now) }
{
    let mut groups = Vec::new(alloc);
    for index in 0..numbers.len() {
        groups.push(SettledGroup {
            group: numbers.at(index),
            last: 0,
            inserted: Subset::none(alloc, len),
            deleted: Subset::none(alloc, len),
        })?;
    }
    Ok(groups)
}

// Puts what one more edit says to its group.
fn add(
    alloc: Global,
    numbers: &NumberSet,
    groups: &mut Vec<SettledGroup>,
    edit: &SettledGroup,
) -> Result<(), AllocError>
    requires numbers { map (λ g. g.group) groups.old.items ≡ numbers.now }
    requires inserted { AllByRecursion (λ g. length g.inserted ≡ length edit.now.inserted) groups.old.items }
    requires deleted { AllByRecursion (λ g. length g.deleted ≡ length edit.now.deleted) groups.old.items }
    ensures { OnOk result (groups.new.items ≡ with_edit groups.old.items edit.now) }
{
    match numbers.search(edit.group) {
        Ok(at) => {
            let index = at as usize;
            let more = joined(alloc, &groups[index], edit)?;
            groups[index] = more;
            Ok(())
        }
        Err(_) => Ok(()),
    }
}

fn joined(
    alloc: Global,
    group: &SettledGroup,
    edit: &SettledGroup,
) -> Result<SettledGroup, AllocError>
    requires inserted { length group.now.inserted ≡ length edit.now.inserted }
    requires deleted { length group.now.deleted ≡ length edit.now.deleted }
    ensures { IfOk result (λ made. made ≡ joined group.now edit.now) }
{
    Ok(SettledGroup {
        group: group.group,
        last: later_of(group.last, edit.last),
        inserted: group.inserted.union(alloc, &edit.inserted)?,
        deleted: group.deleted.union(alloc, &edit.deleted)?,
    })
}

fn later_of(first: u64, second: u64) -> u64
    ensures { result ≡ later_of first second }
{
    if first < second {
        return second;
    }
    first
}
