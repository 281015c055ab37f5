// The groups that no undo reaches any more.
ghost use Rattle.std.specs.Prelude.{◌≡◌, true, IfOk};
ghost use Rattle.std.specs.List.{fold, AllByRecursion};
ghost use Rattle.plain_text.specs.Numbers.{has};
ghost use Rattle.undo_groups.specs.Groups.{IsStack, forgotten};

use plain_text::NoMemory;
use std::alloc::Global;
use std::collections::BTreeSet;
use undo_groups::Stack;

/// The groups that no undo reaches any more, in O(r log r) with r of them.
pub fn retired_groups(alloc: Global, stack: &Stack) -> Result<BTreeSet<u64>, NoMemory>
    ensures { IfOk result (λ groups. groups.keys ≡ stack.now.retired) }
{
    let _given = stack.given();
    let mut groups = BTreeSet::new(alloc);
    let mut index = 0;
    while let Some(group) = stack.retired(index) {
        groups.insert(group)?;
        index += 1;
    }
    Ok(groups)
}

/// A copy of the stack after it forgot these groups, which it has retired, one after the other.
pub fn forgetting(alloc: Global, stack: &Stack, groups: &BTreeSet<u64>) -> Result<Stack, NoMemory>
    requires { AllByRecursion (λ group. has stack.now.retired group ≡ true) groups.now.keys }
    ensures forgotten { IfOk result (λ made. made ≡ fold forgotten stack.now groups.now.keys) }
    ensures sound { IfOk result (λ made. IsStack made) }
{
    let _known = (stack.given(), groups.len());
    let mut made = stack.copy(alloc)?;
    for group in groups {
        made.forget(*group)?;
    }
    let _given = made.given();
    Ok(made)
}
