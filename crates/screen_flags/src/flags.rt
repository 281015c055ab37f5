ghost use Rattle.std.specs.Prelude.{◌≡◌, ◌≤◌, ◌++◌, ◌∷◌, [], Bool, List, length, take, drop, replicate, IfOk, OnOk, OnErr, min, ◌+◌};
ghost use Rattle.serde_json.specs.View.{items_view, view};
ghost use Rattle.screen_flags.specs.declared.change.Change.{Change};
ghost use Rattle.screen_flags.specs.Flags.{change_in, changes_in, count_valid, flags_after, with_change};

use crate::change::{Change, change_in};
use plain_text::NoMemory;
use serde_json::Value;
use std::alloc::Global;
use std::marker::Model;

/// Whether each line of a screen is valid, from the top.
#[derive(Drop)]
pub struct Flags {
    flags: Vec<bool>,
}

impl Model for Flags {
    ghost use Rattle.std.specs.Prelude.{Bool, List};

    ghost Value = { List Bool };

    ghost view = { λ f. f.flags.items };
}

impl Flags {
    /// Those of a screen without lines.
    pub fn new(alloc: Global) -> Flags
        ensures { result ≡ [] }
    {
        Flags {
            flags: Vec::new(alloc),
        }
    }

    /// How many lines are valid.
    pub fn count(&self) -> u64
        ensures { result ≡ count_valid self.now }
    {
        self.flags.iter().filter(|flag| **flag).count() as u64
    }

    /// Takes the operations that these values say. What says none is passed over. It takes the time of the lines, old and new.
    pub fn take(&mut self, alloc: Global, items: &[Value]) -> Result<(), NoMemory>
        ensures all { OnOk result (self.new ≡ flags_after self.old (changes_in (items_view items.now))) }
        ensures unchanged { OnErr result (self.new ≡ self.old) }
    {
        let mut made = Vec::new(alloc);
        let mut at = 0;
        for item in items {
            at = put_item(&self.flags, at, item, &mut made)?;
        }
        self.flags = made;
        Ok(())
    }
}

/// Puts what the value says behind the flags that were made, and gives the place of the next old one.
fn put_item(old: &[bool], at: usize, item: &Value, made: &mut Vec<bool>) -> Result<usize, NoMemory>
    requires { at ≤ length old.now }
    ensures inside { IfOk result (λ next. next ≤ length old.now) }
    ensures puts { IfOk result (λ next. (later : List Change)
        → made.old.items ++ flags_after (drop at old.now) (with_change (change_in (view item.now)) later)
        ≡ made.new.items ++ flags_after (drop next old.now) later) }
{
    match change_in(item) {
        Some(change) => put_change(old, at, change, made),
        None => Ok(at),
    }
}

fn put_change(
    old: &[bool],
    at: usize,
    change: Change,
    made: &mut Vec<bool>,
) -> Result<usize, NoMemory>
    requires { at ≤ length old.now }
    ensures inside { IfOk result (λ next. next ≤ length old.now) }
    ensures puts { IfOk result (λ next. (later : List Change)
        → made.old.items ++ flags_after (drop at old.now) (change ∷ later)
        ≡ made.new.items ++ flags_after (drop next old.now) later) }
{
    match change {
        Change::Keeps(n) => put_old(old, at, n, made),
        Change::Skips(n) => Ok(past(at, n, old.len())),
        Change::Loses(n) => {
            put_all(made, n, false)?;
            Ok(at)
        }
        Change::Gains(n) => {
            put_all(made, n, true)?;
            Ok(at)
        }
    }
}

/// Puts so many old flags behind, as far as there are any.
fn put_old(old: &[bool], at: usize, n: u64, made: &mut Vec<bool>) -> Result<usize, NoMemory>
    requires { at ≤ length old.now }
    ensures next { IfOk result (λ next. next ≡ min (at + n) (length old.now)) }
    ensures puts { OnOk result (made.new.items ≡ made.old.items ++ take n (drop at old.now)) }
{
    let next = past(at, n, old.len());
    made.extend_from_slice(&old[at..next])?;
    Ok(next)
}

/// The place so many behind this one, or else the end.
fn past(at: usize, n: u64, end: usize) -> usize
    requires { at ≤ end }
    ensures { result ≡ min (at + n) end }
{
    let left = (end - at) as u64;
    if n < left { at + n as usize } else { end }
}

fn put_all(made: &mut Vec<bool>, n: u64, flag: bool) -> Result<(), NoMemory>
    ensures { OnOk result (made.new.items ≡ made.old.items ++ replicate n flag) }
{
    for _ in 0..n {
        made.push(flag)?;
    }
    Ok(())
}
