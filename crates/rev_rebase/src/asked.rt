ghost use Rattle.std.specs.Prelude.{◌≡◌, ◌+◌, ◌^◌, ◌<◌, ◌↔◌, length, IfOk, IsTrue};
ghost use Rattle.subset_runs.specs.Subset.{count};
ghost use Rattle.plain_edits.specs.UnitDelta.{IsUnitDelta};
ghost use Rattle.rev_rebase.specs.Rebase.{MayRebase, added_text};

use crate::stale::{dead_then, joined};
use plain_edits::UnitDelta;
use plain_text::{NoMemory, Text};
use rev_list::RevList;
use std::alloc::Global;
use subset_runs::Subset;

/// Whether [`rebase`](crate::rebase) may be asked where an edit of revision `rev` goes: the revision is kept, the edit is one of its
/// text, and there is room for what it adds.
#[tactic(auto, using(crate::proofs::AskedLemmas::may_rebase_by))]
pub fn may_rebase(
    alloc: Global,
    revs: &RevList,
    rev: u64,
    units: &UnitDelta,
) -> Result<bool, NoMemory>
    requires { IsUnitDelta units.now }
    ensures { IfOk result (λ may. IsTrue may ↔ MayRebase revs.now rev units.now) }
{
    if rev < revs.floor() || revs.head() < rev {
        return Ok(false);
    }
    let dead = dead_then(alloc, revs, rev)?;
    let added = joined(alloc, units)?;
    Ok(leaves(&dead, units.base) && has_room(revs, &added))
}

// Whether the set leaves this many positions.
fn leaves(dead: &Subset, len: u64) -> bool
    ensures { IsTrue result ↔ (len + count dead.now ≡ length dead.now) }
{
    len.checked_add(dead.count()) == Some(dead.len())
}

// Whether the union with the text besides has a length of the machine.
fn has_room(revs: &RevList, added: &Text) -> bool
    ensures { IsTrue result ↔ (length revs.now.characters + length added.now < 2 ^ 64) }
{
    revs.union_len().checked_add(added.char_count()).is_some()
}
