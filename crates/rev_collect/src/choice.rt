ghost use Rattle.std.specs.Prelude.{◌≡◌, ◌≤◌, IfOk};
ghost use Rattle.plain_edits.specs.History.{head};
ghost use Rattle.plain_edits.specs.Collection.{collection_of};
ghost use Rattle.rev_collect.specs.Choice.{collection_said};

use crate::floors::clean_floor;
use crate::rest::{none_rests, resting_groups};
use plain_text::NoMemory;
use rev_list::RevList;
use std::alloc::Global;
use std::collections::BTreeSet;

/// What is collected after an entry, where these groups are retired and `acknowledged` is the least revision that an open session has
/// acknowledged, or the head where none is open: a floor, and the groups that are collected there. `None` comes exactly where that is
/// nothing. Groups that were collected before are passed over. It costs the logarithm of the number of groups for each retired one, and
/// no more where each of them is collected or has its first edit after `acknowledged`; else the height of the list for each revision
/// after the greatest clean floor up to there, and one pass over the retired ones.
pub fn collectable(
    alloc: Global,
    revs: &RevList,
    acknowledged: u64,
    retired: &BTreeSet<u64>,
) -> Result<Option<(u64, BTreeSet<u64>)>, NoMemory>
    requires reached { revs.now.floor ≤ acknowledged }
    requires known { acknowledged ≤ head revs.now }
    ensures { IfOk result (λ found. collection_said found
        ≡ collection_of revs.now retired.now.keys acknowledged) }
{
    if none_rests(revs, retired, acknowledged) {
        return Ok(None);
    }
    let floor = clean_floor(revs, acknowledged);
    let groups = resting_groups(alloc, revs, retired, floor)?;
    if groups.is_empty() {
        return Ok(None);
    }
    Ok(Some((floor, groups)))
}
