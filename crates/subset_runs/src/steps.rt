// One step of a walk over two subsets: the stretch that the result has next.
ghost use Rattle.std.specs.Prelude.{◌≡◌, ◌≢◌, ◌+◌, ◌<◌, ◌≤◌, ◌++◌, [], length, replicate};
ghost use Rattle.subset_runs.specs.Inner.{is_kept};
ghost use Rattle.subset_runs.specs.Subset.{at_each, complement, count, expand_as, shrink};

use crate::{Stretch, Walk};

// Which positions of two subsets the result has.
#[derive(Clone, Copy)]
pub(crate) enum Keep {
    Either,
    FirstAlone,
    OneAlone,
}

impl Keep {
    fn keeps(self, first: bool, second: bool) -> bool
        ensures { result ≡ is_kept self first second }
    {
        match self {
            Keep::Either => first || second,
            Keep::FirstAlone => first && !second,
            Keep::OneAlone => first != second,
        }
    }
}

pub(crate) fn next_flipped(flags: &mut Walk) -> Stretch
    requires { flags.old ≢ [] }
    ensures next { complement flags.old
        ≡ replicate result.len result.member ++ complement flags.new }
    ensures ahead { result.len + length flags.new ≡ length flags.old }
    ensures some { 0 < result.len }
{
    let next = flags.front();
    flags.skip(next.len);
    Stretch {
        len: next.len,
        member: !next.member,
    }
}

pub(crate) fn next_both(first: &mut Walk, second: &mut Walk, keep: Keep) -> Stretch
    requires more { first.old ≢ [] }
    requires same_length { length first.old ≡ length second.old }
    ensures next { at_each (is_kept keep) first.old second.old
        ≡ replicate result.len result.member ++ at_each (is_kept keep) first.new second.new }
    ensures same_length { length first.new ≡ length second.new }
    ensures ahead { result.len + length first.new ≡ length first.old }
    ensures some { 0 < result.len }
{
    let one = first.front();
    let other = second.front();
    let len = one.len.min(other.len);
    first.skip(len);
    second.skip(len);
    Stretch {
        len,
        member: keep.keeps(one.member, other.member),
    }
}

pub(crate) fn next_expanded(flags: &mut Walk, by: &mut Walk, inside: bool) -> Stretch
    requires more { by.old ≢ [] }
    requires same_outside { length flags.old + count by.old ≡ length by.old }
    ensures next { expand_as inside flags.old by.old
        ≡ replicate result.len result.member ++ expand_as inside flags.new by.new }
    ensures same_outside { length flags.new + count by.new ≡ length by.new }
    ensures ahead { result.len + length by.new ≡ length by.old }
    ensures some { 0 < result.len }
{
    let gap = by.front();
    if gap.member {
        by.skip(gap.len);
        return Stretch {
            len: gap.len,
            member: inside,
        };
    }
    let piece = flags.front();
    let len = piece.len.min(gap.len);
    flags.skip(len);
    by.skip(len);
    Stretch {
        len,
        member: piece.member,
    }
}

// The stretch has no positions where those ahead are left out.
pub(crate) fn next_outside(flags: &mut Walk, by: &mut Walk) -> Stretch
    requires more { by.old ≢ [] }
    requires same_length { length flags.old ≡ length by.old }
    ensures next { shrink flags.old by.old
        ≡ replicate result.len result.member ++ shrink flags.new by.new }
    ensures same_length { length flags.new ≡ length by.new }
    ensures ahead { result.len + length by.new ≤ length by.old }
    ensures some { length by.new < length by.old }
{
    let gap = by.front();
    if gap.member {
        flags.skip(gap.len);
        by.skip(gap.len);
        return Stretch {
            len: 0,
            member: false,
        };
    }
    let piece = flags.front();
    let len = piece.len.min(gap.len);
    flags.skip(len);
    by.skip(len);
    Stretch {
        len,
        member: piece.member,
    }
}
