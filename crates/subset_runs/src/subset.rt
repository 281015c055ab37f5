ghost use Rattle.std.specs.Prelude.{◌≡◌, ℕ, ◌+◌, ◌^◌, ◌<◌, ◌≤◌, ◌↔◌, List, [], ◌++◌, Bool, true, false, length, replicate, IsTrue, IfOk, OnOk, OnErr, Contains};
ghost use Rattle.subset_runs.specs.Subset.{at_each, count, contains, members, union, minus, symmetric_difference, complement, expand_as, expand, expand_in, shrink};
ghost use Rattle.subset_runs.specs.Inner.{is_kept};
ghost use Rattle.subset_runs.specs.Renumbering.{Expands, Shrinks};
ghost use Rattle.subset_runs.specs.Ranges.{IsFirstFault, AreGood, HasRanges};
ghost use Rattle.subset_runs.specs.Runs.{AreSeparate, flags_in, is_in_some, next_start};
ghost use Rattle.subset_runs.specs.Inner.{AddsRun};

use crate::ranges::{first_fault, with_members_in};
use crate::steps::{Keep, next_both, next_expanded, next_flipped, next_outside};
use crate::{SubsetFault, Walk};
use std::alloc::{AllocError, Global};
use std::marker::Model;

/// A length and a set of positions below it, kept as its runs of members.
#[derive(Drop)]
pub struct Subset {
    runs: Vec<(u64, u64)>,
    len: u64,
    count: u64,
}

impl Model for Subset {
    ghost use Rattle.std.specs.Prelude.{List, Bool};
    ghost use Rattle.subset_runs.specs.Runs.{flags_in, IsStored};

    ghost Value = { List Bool };

    ghost view = { λ s. flags_in s.runs.items 0 s.len };

    ghost invariant = { λ s. IsStored s.runs.items s.len s.count };
}

impl Subset {
    /// The subset of a text of this length that has no members.
    pub fn none(alloc: Global, len: u64) -> Self
        ensures { result ≡ replicate len false }
    {
        Subset {
            runs: Vec::new(alloc),
            len,
            count: 0,
        }
    }

    /// The length of the text, in O(1).
    pub fn len(&self) -> u64
        ensures { result ≡ length self.now }
    {
        self.len
    }

    /// How many positions are members, in O(1).
    pub fn count(&self) -> u64
        ensures { result ≡ count self.now }
    {
        self.count
    }

    /// Whether the position is a member, in the logarithm of the number of runs. None is at the length or past it.
    pub fn contains(&self, i: u64) -> bool
        ensures flag { result ≡ contains self.now i }
        ensures member { IsTrue result ↔ Contains (members self.now) i }
    {
        is_in_some(&self.runs, i)
    }

    /// The runs of members as ranges, in O(1): each is its start and its end, the end not included.
    pub fn runs(&self) -> &[(u64, u64)]
        ensures apart { AreSeparate 0 result.now }
        ensures within { next_start 0 result.now ≤ length self.now + 1 }
        ensures members { HasRanges (length self.now) result.now self.now }
        ensures together { flags_in result.now 0 (length self.now) ≡ self.now }
    {
        &self.runs
    }

    /// A walk from the first position on, in O(1).
    pub fn walk(&self) -> Walk<'_>
        ensures all { result ≡ self.now }
        ensures bound { length self.now < 2 ^ 64 }
    {
        Walk::new(&self.runs, self.len)
    }

    /// Adds `n` positions at the end, all members or all none, in O(1) but for the growth of the list of runs.
    pub fn append(&mut self, n: u64, member: bool) -> Result<(), AllocError>
        requires { length self.old + n < 2 ^ 64 }
        ensures ok { OnOk result (self.new ≡ self.old ++ replicate n member) }
        ensures err { OnErr result (self.new ≡ self.old) }
    {
        let end = self.len + n;
        if !member || n == 0 {
            self.len = end;
            return Ok(());
        }
        add_run(&mut self.runs, self.len, end)?;
        self.count += n;
        self.len = end;
        Ok(())
    }

    /// The subset whose members are the positions in the ranges, in the time of the number of ranges. A range is its start and
    /// its end, the end not included. `Bad` has the index of the first range at fault.
    pub fn of_ranges(alloc: Global, len: u64, ranges: &[(u64, u64)]) -> Result<Self, SubsetFault>
        ensures bad { (i : ℕ) → (result ≡ Err (SubsetFault.Bad i)) ↔ IsFirstFault len 0 ranges.now i }
        ensures good { IfOk result (λ _. AreGood len 0 ranges.now) }
        ensures members { IfOk result (HasRanges len ranges.now) }
        ensures flags { IfOk result (λ s. s ≡ flags_in ranges.now 0 len) }
    {
        match first_fault(len, ranges) {
            Some(index) => Err(SubsetFault::Bad(index)),
            None => Ok(with_members_in(alloc, len, ranges)?),
        }
    }

    /// The members of both, in the time of the runs of both.
    pub fn union(&self, alloc: Global, other: &Subset) -> Result<Subset, AllocError>
        requires { length self.now ≡ length other.now }
        ensures { IfOk result (λ s. s ≡ union self.now other.now) }
    {
        combined(alloc, self, other, Keep::Either)
    }

    /// The members that are none of the other, in the time of the runs of both.
    pub fn minus(&self, alloc: Global, other: &Subset) -> Result<Subset, AllocError>
        requires { length self.now ≡ length other.now }
        ensures { IfOk result (λ s. s ≡ minus self.now other.now) }
    {
        combined(alloc, self, other, Keep::FirstAlone)
    }

    /// The positions that are members of exactly one of the two, in the time of the runs of both.
    pub fn symmetric_difference(&self, alloc: Global, other: &Subset) -> Result<Subset, AllocError>
        requires { length self.now ≡ length other.now }
        ensures { IfOk result (λ s. s ≡ symmetric_difference self.now other.now) }
    {
        combined(alloc, self, other, Keep::OneAlone)
    }

    /// The positions that are no members, in the time of the runs.
    pub fn complement(&self, alloc: Global) -> Result<Subset, AllocError>
        ensures { IfOk result (λ s. s ≡ complement self.now) }
    {
        let mut out = Subset::none(alloc, 0);
        let mut ahead = self.walk();
        while !ahead.is_empty() {
            let next = next_flipped(&mut ahead);
            out.append(next.len, next.member)?;
        }
        Ok(out)
    }

    /// The subset in the longer text that also has the positions `by`, which are no members: in the time of the runs of both.
    pub fn expand(&self, alloc: Global, by: &Subset) -> Result<Subset, AllocError>
        requires { length self.now + count by.now ≡ length by.now }
        ensures flags { IfOk result (λ s. s ≡ expand self.now by.now) }
        ensures renumbered { IfOk result (Expands false self.now by.now) }
    {
        expanded(alloc, self, by, false)
    }

    /// As `expand`, with the positions `by` as members.
    pub fn expand_in(&self, alloc: Global, by: &Subset) -> Result<Subset, AllocError>
        requires { length self.now + count by.now ≡ length by.now }
        ensures flags { IfOk result (λ s. s ≡ expand_in self.now by.now) }
        ensures renumbered { IfOk result (Expands true self.now by.now) }
    {
        expanded(alloc, self, by, true)
    }

    /// The subset in the shorter text that lacks the positions `by`, in the time of the runs of both.
    pub fn shrink(&self, alloc: Global, by: &Subset) -> Result<Subset, AllocError>
        requires { length self.now ≡ length by.now }
        ensures flags { IfOk result (λ s. s ≡ shrink self.now by.now) }
        ensures renumbered { IfOk result (Shrinks self.now by.now) }
    {
        shrunk(alloc, self, by)
    }

    /// The same subset once more, in the time of the runs.
    pub fn copy(&self, alloc: Global) -> Result<Subset, AllocError>
        ensures { IfOk result (λ s. s ≡ self.now) }
    {
        Ok(Subset {
            runs: Vec::from_slice(alloc, &self.runs)?,
            len: self.len,
            count: self.count,
        })
    }
}

/// Equal lengths and equal members, in the time of the runs.
impl PartialEq for Subset {
    ghost use Rattle.std.specs.Bool.{beq};
    ghost use Rattle.std.specs.Cmp.{partial_equiv_from_equiv, bool_eq_equiv};
    ghost use Rattle.std.specs.Cmp.Lexicographic.{pointwise, lists_equiv};

    ghost eq = { λ s t. pointwise beq s t };

    ghost laws = { partial_equiv_from_equiv (lists_equiv bool_eq_equiv) };

    fn eq(&self, other: &Self) -> bool {
        self.len == other.len && self.runs == other.runs
    }
}

impl Eq for Subset {
    ghost use Rattle.std.specs.Cmp.{bool_eq_equiv};
    ghost use Rattle.std.specs.Cmp.Lexicographic.{lists_equiv};

    ghost laws = { lists_equiv bool_eq_equiv };
}

// Whether one of the runs has the position.
fn is_in_some(runs: &[(u64, u64)], i: u64) -> bool
    requires { AreSeparate 0 runs.now }
    ensures { result ≡ is_in_some runs.now i }
{
    let after = runs.partition_point(|run| run.1 <= i);
    after < runs.len() && runs[after].0 <= i
}

// Puts a run after the runs, as a part of the last one where the two touch.
fn add_run(runs: &mut Vec<(u64, u64)>, start: u64, end: u64) -> Result<(), AllocError>
    requires order { start < end }
    requires apart { AreSeparate 0 runs.old.items }
    requires within { next_start 0 runs.old.items ≤ start + 1 }
    ensures ok { OnOk result (AddsRun 0 runs.old.items runs.new.items start end) }
    ensures err { OnErr result (runs.new.items ≡ runs.old.items) }
{
    let n = runs.len();
    if n > 0 && runs[n - 1].1 == start {
        runs[n - 1].1 = end;
        return Ok(());
    }
    runs.push((start, end))?;
    Ok(())
}

fn combined(
    alloc: Global,
    first: &Subset,
    second: &Subset,
    keep: Keep,
) -> Result<Subset, AllocError>
    requires { length first.now ≡ length second.now }
    ensures { IfOk result (λ s. s ≡ at_each (is_kept keep) first.now second.now) }
{
    let mut out = Subset::none(alloc, 0);
    let mut ahead = first.walk();
    let mut other = second.walk();
    while !ahead.is_empty() {
        let next = next_both(&mut ahead, &mut other, keep);
        out.append(next.len, next.member)?;
    }
    Ok(out)
}

fn expanded(alloc: Global, flags: &Subset, by: &Subset, inside: bool) -> Result<Subset, AllocError>
    requires { length flags.now + count by.now ≡ length by.now }
    ensures { IfOk result (λ s. s ≡ expand_as inside flags.now by.now) }
{
    let mut out = Subset::none(alloc, 0);
    let mut rest = flags.walk();
    let mut ahead = by.walk();
    while !ahead.is_empty() {
        let next = next_expanded(&mut rest, &mut ahead, inside);
        out.append(next.len, next.member)?;
    }
    Ok(out)
}

fn shrunk(alloc: Global, flags: &Subset, by: &Subset) -> Result<Subset, AllocError>
    requires { length flags.now ≡ length by.now }
    ensures { IfOk result (λ s. s ≡ shrink flags.now by.now) }
{
    let mut out = Subset::none(alloc, 0);
    let mut rest = flags.walk();
    let mut ahead = by.walk();
    while !ahead.is_empty() {
        let next = next_outside(&mut rest, &mut ahead);
        out.append(next.len, next.member)?;
    }
    Ok(out)
}
