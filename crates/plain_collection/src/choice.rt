ghost use Rattle.std.specs.Prelude.{◌≡◌, IfOk};
ghost use Rattle.plain_edits.specs.Collection.{collection_of, resting_groups};

use crate::floors::clean_floor;
use crate::rest::is_at_rest;
use plain_history::{PlainHistory, has};
use plain_text::{List, NoMemory};
use std::alloc::Global;
use std::marker::Model;

/// A collection: the new floor, and the groups that are collected.
#[derive(Drop)]
pub struct Collection {
    pub floor: u64,
    pub groups: List<u64>,
}

impl Model for Collection {
    ghost use Rattle.plain_edits.specs.Collection.{Collection as CollectionRecord};

    ghost Value = { CollectionRecord };

    ghost view = { λ c. record { floor = c.floor; groups = c.groups } };
}

/// The retired groups that are not collected yet and are at rest at a floor.
fn resting_groups(
    alloc: Global,
    history: &PlainHistory,
    retired: &[u64],
    floor: u64,
) -> Result<List<u64>, NoMemory>
    ensures { IfOk result (λ groups. groups ≡ resting_groups history.now retired.now floor) }
{
    let mut groups = List::new(alloc);
    for group in retired {
        if !has(history.collected(), *group) && is_at_rest(history, floor, *group) {
            groups.push(*group)?;
        }
    }
    Ok(groups)
}

/// What is collected after an entry, if anything, where these groups are retired and `most` is the least acknowledgement of the open
/// sessions, or the head where none is open.
pub fn collection_of(
    alloc: Global,
    history: &PlainHistory,
    retired: &[u64],
    most: u64,
) -> Result<Option<Collection>, NoMemory>
    ensures { IfOk result (λ found. found ≡ collection_of history.now retired.now most) }
{
    let floor = clean_floor(history, most);
    let groups = resting_groups(alloc, history, retired, floor)?;
    if groups.is_empty() {
        return Ok(None);
    }
    Ok(Some(Collection { floor, groups }))
}
