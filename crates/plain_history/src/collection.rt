//! The groups that are collected, and more of them.

ghost use Rattle.std.specs.Prelude.{◌≡◌, ◌++◌, IfOk, OnOk};
ghost use Rattle.std.specs.List.{fold};
ghost use Rattle.plain_text.specs.Numbers.{with_number};

use plain_text::{List, NoMemory, TryClone};
use std::alloc::Global;
use std::cmp::Ordering;

/// Puts the numbers at the end, in their order.
fn push_all(numbers: &[u64], made: &mut List<u64>) -> Result<(), NoMemory>
    ensures { OnOk result (made.new ≡ made.old ++ numbers.now) }
{
    for n in numbers {
        made.push(*n)?;
    }
    Ok(())
}

/// Puts the numbers and this one at the end, in order.
fn push_with(numbers: &[u64], n: u64, made: &mut List<u64>) -> Result<(), NoMemory>
    ensures { OnOk result (made.new ≡ made.old ++ with_number numbers.now n) }
{
    let [first, rest @ ..] = numbers else {
        return made.push(n);
    };
    match n.cmp(first) {
        Ordering::Less => {
            made.push(n)?;
            push_all(numbers, made)
        }
        Ordering::Equal => push_all(numbers, made),
        Ordering::Greater => {
            made.push(*first)?;
            push_with(rest, n, made)
        }
    }
}

/// The numbers and this one, in order.
fn with_number(alloc: Global, numbers: &[u64], n: u64) -> Result<List<u64>, NoMemory>
    ensures { IfOk result (λ made. made ≡ with_number numbers.now n) }
{
    let mut made = List::new(alloc);
    push_with(numbers, n, &mut made)?;
    Ok(made)
}

/// The numbers and these more, in order.
pub fn with_numbers(alloc: Global, numbers: &List<u64>, more: &[u64]) -> Result<List<u64>, NoMemory>
    ensures { IfOk result (λ made. made ≡ fold with_number numbers.now more.now) }
{
    let mut made = numbers.copy(alloc)?;
    for n in more {
        made = with_number(alloc, made.as_slice(), *n)?;
    }
    Ok(made)
}
