// Lists of shared values: what is copied is a pointer.
ghost use Rattle.std.specs.Prelude.{◌≡◌, ◌+◌, ◌≤◌, [], ◌∷◌, ◌++◌, length, IfOk, OnOk};
ghost use Rattle.std.specs.Arc.{arc_value};
ghost use Rattle.shared_tree.specs.Shared.{values};

use std::alloc::{AllocError, Global};
use std::sync::Arc;

fn add_all<T: Drop>(
    list: &mut Vec<Arc<T, Global>>,
    more: &[Arc<T, Global>],
) -> Result<(), AllocError>
    ensures { OnOk result (values list.new.items ≡ values list.old.items ++ values more.now) }
{
    for value in more {
        list.push(Arc::try_clone(value)?)?;
    }
    Ok(())
}

/// The same values in a list of their own.
pub(crate) fn copied<T: Drop>(
    alloc: Global,
    list: &[Arc<T, Global>],
) -> Result<Vec<Arc<T, Global>>, AllocError>
    ensures { IfOk result (λ made. values made.items ≡ values list.now) }
{
    let mut made = Vec::with_capacity(alloc, list.len())?;
    add_all(&mut made, list)?;
    Ok(made)
}

/// Two lists, one after the other.
pub(crate) fn joined<T: Drop>(
    alloc: Global,
    left: &[Arc<T, Global>],
    right: &[Arc<T, Global>],
) -> Result<Vec<Arc<T, Global>>, AllocError>
    requires { length left.now + length right.now ≤ 64 }
    ensures { IfOk result (λ made. values made.items ≡ values left.now ++ values right.now) }
{
    let mut made = Vec::with_capacity(alloc, left.len() + right.len())?;
    add_all(&mut made, left)?;
    add_all(&mut made, right)?;
    Ok(made)
}

/// Three lists, one after the other.
pub(crate) fn joined_three<T: Drop>(
    alloc: Global,
    first: &[Arc<T, Global>],
    second: &[Arc<T, Global>],
    third: &[Arc<T, Global>],
) -> Result<Vec<Arc<T, Global>>, AllocError>
    requires { length first.now + length second.now + length third.now ≤ 64 }
    ensures { IfOk result (λ made. values made.items
        ≡ values first.now ++ (values second.now ++ values third.now)) }
{
    let mut made = Vec::with_capacity(alloc, first.len() + second.len() + third.len())?;
    add_all(&mut made, first)?;
    add_all(&mut made, second)?;
    add_all(&mut made, third)?;
    Ok(made)
}

/// A list, a value and a list, one after the other.
pub(crate) fn with_between<T: Drop>(
    alloc: Global,
    left: &[Arc<T, Global>],
    between: Arc<T, Global>,
    right: &[Arc<T, Global>],
) -> Result<Vec<Arc<T, Global>>, AllocError>
    requires { length left.now + length right.now ≤ 64 }
    ensures { IfOk result (λ made. values made.items
        ≡ values left.now ++ (arc_value between ∷ values right.now)) }
{
    let mut made = Vec::with_capacity(alloc, left.len() + 1 + right.len())?;
    add_all(&mut made, left)?;
    made.push(between)?;
    add_all(&mut made, right)?;
    Ok(made)
}

pub(crate) fn single<T: Drop>(alloc: Global, value: T) -> Result<Vec<Arc<T, Global>>, AllocError>
    ensures { IfOk result (λ made. values made.items ≡ value ∷ []) }
{
    let mut made = Vec::with_capacity(alloc, 1)?;
    made.push(Arc::new(alloc, value)?)?;
    Ok(made)
}

pub(crate) fn pair<T: Drop>(
    alloc: Global,
    left: T,
    right: T,
) -> Result<Vec<Arc<T, Global>>, AllocError>
    ensures { IfOk result (λ made. values made.items ≡ left ∷ right ∷ []) }
{
    let mut made = Vec::with_capacity(alloc, 2)?;
    made.push(Arc::new(alloc, left)?)?;
    made.push(Arc::new(alloc, right)?)?;
    Ok(made)
}
