ghost use Rattle.std.specs.Prelude.{◌≡◌, ◌+◌, ◌*◌, ◌^◌, ◌<◌, ◌≤◌, length, drop};
ghost use Rattle.std.specs.Iterator.{item_count};
ghost use Rattle.std.specs.Str.{chars};

use crate::first::{first_alone, first_cluster, past_alone};
use crate::widths::{char_count, column_after};

/// A cluster of a line, with the gap where it ends and the column after it.
#[derive(Clone, Copy, Debug, PartialEq, Eq)]
pub struct Placed<'a> {
    pub cluster: &'a str,
    pub end: u64,
    pub column: u128,
}

/// A walk along a logical line, cluster by cluster. It takes no memory.
#[derive(Drop)]
pub struct Walk<'a> {
    rest: &'a str,
    tab: u32,
    gap: u64,
    column: u128,
    ghost room: { gap + length rest.now < 2 ^ 64 },
    ghost bound: { column + 2 ^ 32 * length rest.now ≤ 2 ^ 96 },
}

impl<'a> Walk<'a> {
    ghost use Rattle.cluster_core.specs.Boundaries.{clusters_in};
    ghost use Rattle.cluster_core.specs.Walk.{AreFirst, counted_anew, placed, WalkBegins, walk_left, walk_tab};

    /// A walk from the line's start, where columns are counted from 0.
    pub fn new(line: &'a str, tab: u32) -> Walk<'a>
        ensures left { walk_left result ≡ placed tab 0 0 (clusters_in (chars line.now)) }
        ensures tab { walk_tab result ≡ tab }
    {
        Walk {
            rest: line,
            tab,
            gap: 0,
            column: 0,
        }
    }

    /// The same walk, as it stands, to come back to.
    pub fn copy(&self) -> Walk<'a>
        ensures left { walk_left result ≡ walk_left self.now }
        ensures tab { walk_tab result ≡ walk_tab self.now }
    {
        Walk {
            rest: self.rest,
            tab: self.tab,
            gap: self.gap,
            column: self.column,
        }
    }

    /// The characters from a space to `~` that come next, at most so many, each of which is a cluster. It takes their time, and passes over
    /// none of them.
    pub fn alone(&self, most: u64) -> &'a [u8]
        ensures first { AreFirst result.now (walk_left self.now) }
        ensures begins { WalkBegins self.now result.now }
        ensures few { length result.now ≤ most }
    {
        first_alone(self.rest, most)
    }

    /// The walk past these characters, which come next. Its time does not depend on how many they are.
    pub fn past(&self, run: &[u8]) -> Walk<'a>
        requires { WalkBegins self.now run.now }
        ensures left { walk_left result ≡ drop (length run.now) (walk_left self.now) }
        ensures tab { walk_tab result ≡ walk_tab self.now }
    {
        let rest = past_alone(self.rest, run);
        let count = run.len();
        Walk {
            rest,
            tab: self.tab,
            gap: self.gap + count as u64,
            column: self.column + count as u128,
        }
    }

    /// From here on columns are counted from 0, as those of a piece that begins here.
    pub fn begin_piece(&mut self)
        ensures left { walk_left self.new ≡ counted_anew (walk_tab self.old) 0 (walk_left self.old) }
        ensures tab { walk_tab self.new ≡ walk_tab self.old }
    {
        self.column = 0;
    }
}

impl<'a> Iterator for Walk<'a> {
    ghost use Rattle.cluster_core.specs.Walk.{Walks, walk_left};

    type Item = Placed<'a>;

    ghost next_gives = { Walks };

    ghost remaining = { item_count walk_left };

    fn next(&mut self) -> Option<Placed<'a>> {
        match first_cluster(self.rest) {
            Some((cluster, rest)) => {
                self.gap += char_count(cluster);
                self.column = column_after(self.tab, self.column, cluster);
                self.rest = rest;
                Some(Placed {
                    cluster,
                    end: self.gap,
                    column: self.column,
                })
            }
            None => None,
        }
    }
}
