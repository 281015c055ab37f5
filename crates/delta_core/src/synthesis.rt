ghost use Rattle.std.specs.Prelude.{◌≡◌, ◌≢◌, ◌+◌, ◌<◌, ◌≤◌, ◌^◌, [], ◌++◌, length, replicate, true, false, IfOk, OnOk};
ghost use Rattle.std.specs.Str.{chars, IsUtf8};
ghost use Rattle.subset_runs.specs.Subset.{count, minus};
ghost use Rattle.delta_core.specs.Synthesis.{IsBetween, IsBetweenWith};
ghost use Rattle.delta_core.specs.Inner.{PutsBlock, appears};

use crate::unit_builder::UnitBuilder;
use plain_edits::UnitDelta;
use plain_text::{NoMemory, Text, split_at_gap};
use std::alloc::Global;
use subset_runs::{Subset, Walk};

// Some characters in a row of a union that are alike alive or dead.
#[derive(Clone, Copy)]
struct Block {
    len: u64,
    dead_before: bool,
    dead_after: bool,
}

/// The unit delta from the characters of the union that are alive before to those that are alive after. This costs the bytes of the
/// union and the runs of the two subsets.
pub fn synthesize(
    alloc: Global,
    union: &Text,
    dead_before: &Subset,
    dead_after: &Subset,
) -> Result<UnitDelta, NoMemory>
    requires before { length union.now ≡ length dead_before.now }
    requires after { length union.now ≡ length dead_after.now }
    ensures { IfOk result (IsBetween union.now dead_before.now dead_after.now) }
{
    let mut units = UnitBuilder::new(alloc);
    let mut rest = union.as_str();
    let mut before = dead_before.walk();
    let mut after = dead_after.walk();
    while !before.is_empty() {
        let block = next_block(&mut before, &mut after);
        let (front, back) = split_at_gap(rest, block.len);
        put_block(&mut units, front, block)?;
        rest = back;
    }
    Ok(units.into_units()?)
}

/// The same, where of the union only those characters are given that appear: those that are dead before and alive after, in order. This
/// costs their bytes and the runs of the two subsets.
pub fn synthesize_of(
    alloc: Global,
    appear: &Text,
    dead_before: &Subset,
    dead_after: &Subset,
) -> Result<UnitDelta, NoMemory>
    requires same_length { length dead_before.now ≡ length dead_after.now }
    requires as_many { count (minus dead_before.now dead_after.now) ≡ length appear.now }
    ensures { IfOk result (IsBetweenWith appear.now dead_before.now dead_after.now) }
{
    let mut units = UnitBuilder::new(alloc);
    let mut rest = appear.as_str();
    let mut before = dead_before.walk();
    let mut after = dead_after.walk();
    while !before.is_empty() {
        let block = next_block(&mut before, &mut after);
        rest = put_block(&mut units, rest, block)?;
    }
    Ok(units.into_units()?)
}

fn next_block(before: &mut Walk, after: &mut Walk) -> Block
    requires more { before.old ≢ [] }
    requires same_length { length before.old ≡ length after.old }
    ensures before { before.old ≡ replicate result.len result.dead_before ++ before.new }
    ensures after { after.old ≡ replicate result.len result.dead_after ++ after.new }
    ensures some { 0 < result.len }
{
    let first = before.front();
    let second = after.front();
    let len = first.len.min(second.len);
    before.skip(len);
    after.skip(len);
    Block {
        len,
        dead_before: first.member,
        dead_after: second.member,
    }
}

// Goes over characters of a union that are alike alive or dead; those that appear are the first of `rest`. What is left of that.
fn put_block<'a>(units: &mut UnitBuilder, rest: &'a str, block: Block) -> Result<&'a str, NoMemory>
    requires as_many { appears block.dead_before block.dead_after ≡ true → block.len ≤ length (chars rest.now) }
    requires room { units.old.base + block.len < 2 ^ 64 }
    ensures puts { IfOk result (λ left. PutsBlock (chars rest.now) block.len block.dead_before block.dead_after
        units.old units.new (chars left.now)) }
    ensures utf8 { IfOk result (λ left. IsUtf8 left.now) }
{
    match (block.dead_before, block.dead_after) {
        (false, false) => {
            units.keep(block.len)?;
            Ok(rest)
        }
        (false, true) => {
            units.pass(block.len)?;
            Ok(rest)
        }
        (true, false) => {
            let (front, back) = split_at_gap(rest, block.len);
            units.add(front)?;
            Ok(back)
        }
        (true, true) => Ok(rest),
    }
}
