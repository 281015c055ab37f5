ghost use Rattle.std.specs.Prelude.{◌≡◌, if◌then◌else◌, length, map, not, IfOk};
ghost use Rattle.std.specs.List.{filter, AllByRecursion};
ghost use Rattle.subset_runs.specs.Subset.{union};
ghost use Rattle.plain_text.specs.Numbers.{has, IsRising};
ghost use Rattle.plain_edits.specs.History.{head};
ghost use Rattle.plain_edits.specs.Collection.{collected_at, is_dropped, MayCollect};
ghost use Rattle.collection_laws.specs.Left.{left_of};
ghost use Rattle.rev_list.specs.Settled.{HasLengths};
ghost use Rattle.rev_collect.specs.Groups.{dropped_by, shrunk, AreGroups};

use crate::join::all_joined;
use crate::later::with_later;
use crate::present::all_edits;
use number_set::NumberSet;
use plain_text::NoMemory;
use rev_list::{RevList, SettledGroup};
use std::alloc::{AllocError, Global};
use std::collections::BTreeSet;
use subset_runs::Subset;

/// The list that is left after the collection of these groups at a clean floor, and the positions of the present union that are dropped.
/// It costs, for each revision from the old floor to the new one, the runs of its edit and of what came later up to there, for each group that
/// has an edit by then its runs and those of what is dropped, and for each revision after the new floor the runs of its edit, of what is
/// dropped and of what is dead, or the logarithm of the number of groups where nothing is dropped: then these revisions are shared. It
/// costs nothing of what was collected before, and nothing of the text.
pub fn collect(
    alloc: Global,
    revs: &RevList,
    floor: u64,
    groups: &BTreeSet<u64>,
) -> Result<(RevList, Subset), NoMemory>
    requires may { MayCollect revs.now floor groups.now.keys }
    ensures left { IfOk result (λ made. made.0 ≡ left_of (collected_at revs.now floor groups.now.keys)) }
    ensures dropped { IfOk result (λ made. made.1
        ≡ map (is_dropped (collected_at revs.now floor groups.now.keys)) revs.now.characters) }
{
    let _walk = revs.revisions_after(floor);
    let front = revs.until(alloc, floor)?;
    let (left, dropped) = collect_at_head(alloc, &front, groups)?;
    with_later(alloc, revs, floor, groups, left, dropped)
}

// The same at the head.
fn collect_at_head(
    alloc: Global,
    revs: &RevList,
    groups: &BTreeSet<u64>,
) -> Result<(RevList, Subset), NoMemory>
    ensures left { IfOk result (λ made. made.0 ≡ left_of (collected_at revs.now (head revs.now) groups.now.keys)) }
    ensures dropped { IfOk result (λ made. made.1
        ≡ map (is_dropped (collected_at revs.now (head revs.now) groups.now.keys)) revs.now.characters) }
{
    let floor = revs.floor();
    let _walk = revs.revisions_after(floor);
    let _open = revs.is_collected(0);
    let all = groups_at_head(alloc, revs)?;
    let dropped = dropped_by(alloc, groups, revs.undone(), revs.union_len(), &all)?;
    let left = left_groups(alloc, groups, &all, &dropped)?;
    let dead = revs.dead().shrink(alloc, &dropped)?;
    let made = revs.settled(alloc, left, groups, dead)?;
    Ok((made, dropped))
}

// Each group that has an edit and is not collected, with what its edits inserted and deleted of the present union.
fn groups_at_head(alloc: Global, revs: &RevList) -> Result<Vec<SettledGroup>, NoMemory>
    ensures groups { IfOk result (λ groups. AreGroups revs.now revs.now.characters groups.items) }
    ensures rising { IfOk result (λ groups. IsRising (map (λ g. g.group) groups.items)) }
{
    let _open = revs.is_collected(0);
    let edits = all_edits(alloc, revs)?;
    all_joined(alloc, revs.union_len(), &edits)
}

// What the groups that are collected drop: each what it inserted, where it is undone, and else what it deleted.
fn dropped_by(
    alloc: Global,
    collected: &BTreeSet<u64>,
    undone: &NumberSet,
    len: u64,
    groups: &[SettledGroup],
) -> Result<Subset, AllocError>
    requires { AllByRecursion (HasLengths len) groups.now }
    ensures { IfOk result (λ dropped. dropped ≡ dropped_by collected.now.keys undone.now len groups.now) }
{
    let mut dropped = Subset::none(alloc, len);
    for group in groups {
        let drops = is_in(collected, group.group);
        dropped = with_hidden(alloc, dropped, group, drops, undone.has(group.group))?;
    }
    Ok(dropped)
}

// With what the group hides, where it is collected.
fn with_hidden(
    alloc: Global,
    dropped: Subset,
    group: &SettledGroup,
    collected: bool,
    undone: bool,
) -> Result<Subset, AllocError>
    requires { HasLengths (length dropped) group.now }
    ensures { IfOk result (λ made. made ≡ (if collected then
        union dropped (if undone then group.now.inserted else group.now.deleted) else dropped)) }
{
    if !collected {
        return Ok(dropped);
    }
    dropped.union(alloc, hidden_of(group, undone))
}

fn hidden_of(group: &SettledGroup, undone: bool) -> &Subset
    ensures { result.now ≡ (if undone then group.now.inserted else group.now.deleted) }
{
    if undone {
        return &group.inserted;
    }
    &group.deleted
}

// The groups that are not collected, without what is dropped.
fn left_groups(
    alloc: Global,
    collected: &BTreeSet<u64>,
    groups: &[SettledGroup],
    dropped: &Subset,
) -> Result<Vec<SettledGroup>, AllocError>
    requires { AllByRecursion (HasLengths (length dropped.now)) groups.now }
    ensures { IfOk result (λ left. left.items
        ≡ map (shrunk dropped.now) (filter (λ g. not (has collected.now.keys g.group)) groups.now)) }
{
    let mut left = Vec::new(alloc);
    for group in groups {
        if !is_in(collected, group.group) {
            left.push(shrunk(alloc, group, dropped)?)?;
        }
    }
    Ok(left)
}

fn shrunk(alloc: Global, group: &SettledGroup, dropped: &Subset) -> Result<SettledGroup, AllocError>
    requires { HasLengths (length dropped.now) group.now }
    ensures { IfOk result (λ made. made ≡ shrunk dropped.now group.now) }
{
    Ok(SettledGroup {
        group: group.group,
        last: group.last,
        inserted: group.inserted.shrink(alloc, dropped)?,
        deleted: group.deleted.shrink(alloc, dropped)?,
    })
}

#[tactic(auto, using(crate::proofs::SetLemmas::has_contains))]
fn is_in(groups: &BTreeSet<u64>, group: u64) -> bool
    ensures { result ≡ has groups.now.keys group }
{
    groups.contains(&group)
}
