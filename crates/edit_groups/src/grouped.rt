// In which undo group an edit goes.
ghost use Rattle.std.specs.Prelude.{◌≡◌, ◌+◌, ◌^◌, ◌<◌, IfOk, None, Some};
ghost use Rattle.undo_groups.specs.Groups.{IsStack};
ghost use Rattle.edit_groups.specs.Grouping.{group_by, groups_by, known_group};

use plain_text::NoMemory;
use std::alloc::Global;
use undo_groups::Stack;

/// The undo groups with one more edit, and the group of this.
#[derive(Drop)]
pub struct Grouped {
    pub stack: Stack,
    pub group: u64,
}

/// An edit joins this group, where there is one, or opens the next.
pub fn joined_or_opened(
    alloc: Global,
    stack: &Stack,
    joined: Option<u64>,
) -> Result<Grouped, NoMemory>
    requires { stack.now.given + 1 < 2 ^ 63 }
    ensures sound { IfOk result (λ made. IsStack made.stack) }
    ensures stack { IfOk result (λ made. made.stack ≡ groups_by stack.now joined) }
    ensures group { IfOk result (λ made. made.group ≡ group_by stack.now joined) }
{
    let mut stack = stack.copy(alloc)?;
    let group = match joined {
        Some(group) => group,
        None => stack.open_group()?,
    };
    let _given = stack.given();
    Ok(Grouped { stack, group })
}

/// An edit joins the group that it names, where that is known, or opens the next.
pub fn named_or_opened(
    alloc: Global,
    stack: &Stack,
    named: Option<u64>,
) -> Result<Grouped, NoMemory>
    requires { stack.now.given + 1 < 2 ^ 63 }
    ensures sound { IfOk result (λ made. IsStack made.stack) }
    ensures stack { IfOk result (λ made. made.stack ≡ groups_by stack.now (known_group stack.now named)) }
    ensures group { IfOk result (λ made. made.group ≡ group_by stack.now (known_group stack.now named)) }
{
    let mut asked = stack.copy(alloc)?;
    let joined = known_group(&mut asked, named);
    joined_or_opened(alloc, stack, joined)
}

// The group that is named, where the stack knows it.
fn known_group(stack: &mut Stack, named: Option<u64>) -> Option<u64>
    ensures { result ≡ known_group stack.old named }
{
    let group = named?;
    if stack.join_group(group) {
        return Some(group);
    }
    None
}
