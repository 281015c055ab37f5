ghost use Rattle.std.specs.Prelude.{◌≡◌, ◌↔◌, ◌<◌, IsTrue, length};
ghost use Rattle.std.specs.List.{AllByRecursion};

use crate::verdict::Verdict;

/// The status that the program ends with: 0 where there is a case and each one passes, else 1.
pub fn exit_status(verdicts: &[Verdict]) -> u8
    ensures passed { (result ≡ 0) ↔ ((0 < length verdicts.now) × AllByRecursion (λ verdict. verdict ≡ Verdict.Passes) verdicts.now) }
    ensures failed { (result ≡ 1) ↔ ((result ≡ 0) → ⊥) }
{
    if verdicts.is_empty() || !all_pass(verdicts) {
        1
    } else {
        0
    }
}

fn all_pass(verdicts: &[Verdict]) -> bool
    ensures { IsTrue result ↔ AllByRecursion (λ verdict. verdict ≡ Verdict.Passes) verdicts.now }
{
    for verdict in verdicts {
        if !verdict.is_pass() {
            return false;
        }
    }
    true
}
