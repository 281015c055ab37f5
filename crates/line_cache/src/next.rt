ghost use Rattle.std.specs.Prelude.{◌≡◌, ℕ, ◌≤◌, false, IfNone, IfSome};
ghost use Rattle.subset_runs.specs.Subset.{contains};
ghost use Rattle.line_cache.specs.Runs.{IsNextRun};

use plain_text::Run;
use subset_runs::Subset;

/// The first valid lines from one on, as a run.
pub(crate) fn next_run(lines: &Subset, from: u64) -> Option<Run>
    ensures some { IfSome result (IsNextRun lines.now from) }
    ensures none { IfNone result ((index : ℕ) → from ≤ index → contains lines.now index ≡ false) }
{
    if lines.len() <= from {
        return None;
    }
    let mut ahead = lines.walk();
    ahead.skip(from);
    let first = ahead.front();
    if first.member {
        return Some(Run {
            start: from,
            end: from + first.len,
        });
    }
    ahead.skip(first.len);
    if ahead.is_empty() {
        return None;
    }
    // Behind lines that are not valid, as many as there are, stands one that is.
    let start = from + first.len;
    Some(Run {
        start,
        end: start + ahead.front().len,
    })
}
