ghost use Rattle.std.specs.Prelude.{◌≡◌, ◌≢◌, ◌+◌, ◌^◌, ◌<◌, [], length, IfOk};
ghost use Rattle.subset_runs.specs.Subset.{count};
ghost use Rattle.delta_core.specs.Carry.{IsCarried};
ghost use Rattle.delta_core.specs.Inner.{IsCarryStep, IsNext, here};

use plain_text::NoMemory;
use std::alloc::Global;
use subset_runs::{Stretch, Subset, Walk};

// What comes next: insertions of the one, insertions of the other, or characters of the base.
#[derive(Clone, Copy)]
enum CarryStep {
    Own,
    Other,
    Base,
}

/// The insertions `ins` into a base in the coordinates that hold the insertions `later` into it too. At one gap `ins` goes after
/// `later` exactly where `after`. This costs the runs of the two.
pub fn carry_ins(
    alloc: Global,
    ins: &Subset,
    later: &Subset,
    after: bool,
) -> Result<Subset, NoMemory>
    requires base { length ins.now + count later.now ≡ length later.now + count ins.now }
    requires bound { length ins.now + count later.now < 2 ^ 64 }
    ensures { IfOk result (IsCarried after ins.now later.now) }
{
    let mut out = Subset::none(alloc, 0);
    let mut own = ins.walk();
    let mut other = later.walk();
    while !own.is_empty() || !other.is_empty() {
        let next = next_carried(&mut own, &mut other, after);
        out.append(next.len, next.member)?;
    }
    Ok(out)
}

// The next insertions of one of the two, or characters of the base.
fn next_carried(own: &mut Walk, other: &mut Walk, after: bool) -> Stretch
    requires base { length own.old + count other.old ≡ length other.old + count own.old }
    requires more { (own.old ≡ []) → other.old ≢ [] }
    ensures { IsNext after own.old other.old own.new other.new result.len result.member }
{
    let ins = inserted_len(own);
    let later = inserted_len(other);
    match next_step(ins, later, after) {
        CarryStep::Own => {
            own.skip(ins);
            Stretch {
                len: ins,
                member: true,
            }
        }
        CarryStep::Other => {
            other.skip(later);
            Stretch {
                len: later,
                member: false,
            }
        }
        CarryStep::Base => {
            let len = own.front().len.min(other.front().len);
            own.skip(len);
            other.skip(len);
            Stretch { len, member: false }
        }
    }
}

// Whose turn it is at a gap with so many insertions of the two.
fn next_step(ins: u64, later: u64, after: bool) -> CarryStep
    ensures { IsCarryStep ins later after result }
{
    if 0 < ins && (!after || later == 0) {
        CarryStep::Own
    } else if 0 < later {
        CarryStep::Other
    } else {
        CarryStep::Base
    }
}

// How many insertions stand before the next character of the base.
fn inserted_len(walk: &Walk) -> u64
    ensures { result ≡ here walk.now }
{
    if walk.is_empty() {
        return 0;
    }
    let front = walk.front();
    if front.member { front.len } else { 0 }
}
