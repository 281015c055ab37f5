//! Clean floors.

ghost use Rattle.std.specs.Prelude.{◌≡◌};
ghost use Rattle.plain_edits.specs.Collection.{clean_floor, is_clean};

use plain_history::PlainHistory;

/// Whether no edit after the floor has a base below it.
pub fn is_clean(history: &PlainHistory, floor: u64) -> bool
    ensures { result ≡ is_clean history.now.revisions floor }
{
    history
        .revisions()
        .iter()
        .skip(floor as usize)
        .all(|revision| revision.is_based_from(floor))
}

/// The greatest clean floor up to a revision.
#[tactic(auto, using(crate::proofs::FloorLemmas::lower_floor, crate::proofs::FloorLemmas::own_floor))]
pub fn clean_floor(history: &PlainHistory, most: u64) -> u64
    ensures { result ≡ clean_floor history.now.revisions most }
{
    let mut floor = most;
    while floor > 0 && !is_clean(history, floor) {
        floor -= 1;
    }
    floor
}
