ghost use Rattle.std.specs.Prelude.{◌≡◌, ◌⊎◌, ℕ, ◌+◌, ◌-◌, ◌^◌, ◌<◌, ◌≤◌, List, Bool, cond, length, Some, None};
ghost use Rattle.line_cache.specs.Stays.{AreStays, if_true, partner_by};
ghost use Rattle.line_cache.specs.Ahead.{EndsPast, FitsNumbers, IsAheadOf, IsLeftOf, moved_by};

use crate::old_lines::OldLines;
use crate::stay::Stay;

/// The partner of a line, where it has one that is valid, and how many lines from there on go on so, one after the other.
#[derive(Clone, Copy)]
pub(crate) struct Part {
    pub n: u64,
    pub partner: Option<(u64, bool)>,
}

/// The partners of the first of `most` lines, the first of which has the index `at`.
pub(crate) fn partner_from(lines: &mut OldLines<'_>, stays: &[Stay], at: u64, most: u64) -> Part
    requires room { (0 < most) × (at + most < 2 ^ 64) }
    requires fits { lines.old.done + length lines.old.truths < 2 ^ 64 }
    requires partners { AreStays (lines.old.done + length lines.old.truths) (at + most) stays.now }
    requires ahead { EndsPast at stays.now }
    requires behind { IsAheadOf stays.now at lines.old.done }
    ensures some { (0 < result.n) × (result.n ≤ most) }
    ensures left { (all : List Bool) → IsLeftOf all lines.old → IsLeftOf all lines.new }
    ensures done { (lines.new.done ≡ lines.old.done) ⊎ ((same : Bool) × (partner_by stays.now at ≡ Some (lines.new.done, same))) }
    ensures partners { (all : List Bool) → IsLeftOf all lines.old →
        (k : ℕ) → k < result.n → if_true all (partner_by stays.now (at + k)) ≡ moved_by k result.partner }
{
    match stays.first() {
        None => Part {
            n: most,
            partner: None,
        },
        Some(stay) => partner_in(lines, *stay, at, most),
    }
}

/// The same, where the line stands before the end of this run.
fn partner_in(lines: &mut OldLines<'_>, stay: Stay, at: u64, most: u64) -> Part
    requires room { (0 < most) × (at + most < 2 ^ 64) }
    requires fits { lines.old.done + length lines.old.truths < 2 ^ 64 }
    requires within { (stay.old + stay.n ≤ lines.old.done + length lines.old.truths) × (stay.new + stay.n ≤ at + most) }
    requires ahead { at < stay.new + stay.n }
    requires behind { stay.new ≤ at → lines.old.done ≤ stay.old + (at - stay.new) }
    ensures some { (0 < result.n) × (result.n ≤ most) }
    ensures left { (all : List Bool) → IsLeftOf all lines.old → IsLeftOf all lines.new }
    ensures before { at < stay.new → (result.partner ≡ None) × (at + result.n ≤ stay.new) × (lines.new.done ≡ lines.old.done) }
    ensures inside { stay.new ≤ at → (at + result.n ≤ stay.new + stay.n) × (lines.new.done ≡ stay.old + (at - stay.new)) }
    ensures partners { (all : List Bool) → IsLeftOf all lines.old → stay.new ≤ at →
        (k : ℕ) → k < result.n → if_true all (Some (stay.old + (at - stay.new) + k, stay.same)) ≡ moved_by k result.partner }
{
    if at < stay.new {
        return Part {
            n: stay.new - at,
            partner: None,
        };
    }
    let old = stay.old + (at - stay.new);
    let front = lines.stretch_from(old);
    Part {
        n: front.len.min(stay.new + stay.n - at),
        partner: if_member(front.member, old, stay.same),
    }
}

fn if_member(member: bool, old: u64, same: bool) -> Option<(u64, bool)>
    ensures { result ≡ cond member (Some (old, same)) None }
{
    if member { Some((old, same)) } else { None }
}

/// The runs that end behind a line.
pub(crate) fn rest_past(stays: &[Stay], at: u64) -> &[Stay]
    requires { FitsNumbers stays.now }
    ensures ahead { EndsPast at result.now }
    ensures partners { (index : ℕ) → at ≤ index → partner_by result.now index ≡ partner_by stays.now index }
    ensures stays { (count total : ℕ) → AreStays count total stays.now → AreStays count total result.now }
{
    let mut rest = stays;
    while !rest.is_empty() && rest[0].new + rest[0].n <= at {
        rest = &rest[1..];
    }
    rest
}
