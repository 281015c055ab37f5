ghost use Rattle.std.specs.Prelude.{◌≡◌, IfSome, IfNone, IfOk};
ghost use Rattle.subset_runs.specs.Ranges.{AreGood, IsFirstFault};
ghost use Rattle.subset_runs.specs.Runs.{flags_in};

use crate::Subset;
use std::alloc::{AllocError, Global};

// The index of the first range at fault.
pub(crate) fn first_fault(len: u64, ranges: &[(u64, u64)]) -> Option<usize>
    ensures found { IfSome result (IsFirstFault len 0 ranges.now) }
    ensures none { IfNone result (AreGood len 0 ranges.now) }
{
    let mut low = 0;
    for (index, range) in ranges.iter().enumerate() {
        if range.0 < low || range.1 < range.0 || len < range.1 {
            return Some(index);
        }
        low = range.1;
    }
    None
}

pub(crate) fn with_members_in(
    alloc: Global,
    len: u64,
    ranges: &[(u64, u64)],
) -> Result<Subset, AllocError>
    requires { AreGood len 0 ranges.now }
    ensures { IfOk result (λ s. s ≡ flags_in ranges.now 0 len) }
{
    let mut out = Subset::none(alloc, 0);
    for range in ranges {
        out.append(range.0 - out.len(), false)?;
        out.append(range.1 - range.0, true)?;
    }
    out.append(len - out.len(), false)?;
    Ok(out)
}
