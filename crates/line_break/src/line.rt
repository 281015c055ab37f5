ghost use Rattle.std.specs.Prelude.{◌≡◌, ℕ, ◌+◌, ◌^◌, ◌<◌, ◌≤◌, ◌↔◌, ◌==◌, ◌&&◌, ◌||◌, cond, is_none, IfOk, IsNone, IfSome, length, take, true, ◌∷◌};
ghost use Rattle.std.specs.Str.{all_scalars, chars};
ghost use Rattle.cluster_core.specs.Columns.{column_after};
ghost use Rattle.cluster_core.specs.Walk.{placed_view, walk_left, walk_tab};
ghost use Rattle.line_break.specs.Breaks.{piece_end};
ghost use Rattle.line_break.specs.Inner.{AddsPieces, IsTail, StandsAt, IsAhead, IsLater, Looked, IsThrough, inside_column};

use crate::plain::plain_end;
use crate::tail::{Tail, tail_of};
use cluster_core::{Placed, Walk};
use plain_text::{NoMemory, split_at_gap};
use unicode_width::UnicodeWidthStr;

/// How many characters more than fit into the width are looked at together.
const STRETCH: u64 = 4096;

/// A line that is wrapped, with its length in characters.
#[derive(Clone, Copy)]
pub(crate) struct Line<'a> {
    pub text: &'a str,
    pub len: u64,
    pub width: u32,
    pub tab: u32,
    ghost counted: { len ≡ length (chars text.now) },
    ghost scalars: { all_scalars (chars text.now) ≡ true },
}

/// A gap where a piece ends, with a walk from there.
#[derive(Drop)]
pub(crate) struct Place<'a> {
    pub end: u64,
    pub rest: Walk<'a>,
}

/// What is known of a piece, as far as its clusters were looked at.
#[derive(Drop)]
pub(crate) struct Look<'a> {
    /// The columns up to here.
    pub column: u128,
    /// The columns up to here without trailing blanks.
    pub solid: u128,
    /// The last candidate that fits.
    pub candidate: Option<Place<'a>>,
    /// The last cluster's end that fits, or the first that does not.
    pub fitting: Option<Place<'a>>,
}

impl<'a> Line<'a> {
    /// The start of the line.
    pub fn start(&self) -> Place<'a>
        ensures at { result.end ≡ 0 }
        ensures stands { StandsAt self.now.tab (chars self.now.text.now) result }
    {
        Place {
            end: 0,
            rest: Walk::new(self.text, self.tab),
        }
    }

    /// The end of the piece that starts here; `None` at the line's end.
    pub fn next_piece(&self, from: &Place<'a>) -> Option<Place<'a>>
        requires { StandsAt self.now.tab (chars self.now.text.now) from.now }
        ensures end { IfSome result (λ p. p.end ≡ piece_end self.now.width self.now.tab (chars self.now.text.now) from.now.end) }
        ensures ahead { IfSome result (IsAhead self.now.tab (chars self.now.text.now) from.now.end) }
        ensures none { IsNone result ↔ (from.now.end ≡ length (chars self.now.text.now)) }
    {
        let run = from.rest.alone(self.width as u64 + 2);
        match plain_end(run, self.width) {
            Some(len) => Some(Place {
                end: from.end + len as u64,
                rest: from.rest.past(run.split_at(len).0),
            }),
            None => {
                let look = self.look_through(from);
                look.candidate.or(look.fitting)
            }
        }
    }

    /// The place behind the pieces that go on from here, as far as plain characters alone tell them; their ends are put behind the others.
    pub fn plain_pieces(&self, from: Place<'a>, ends: &mut Vec<u64>) -> Result<Place<'a>, NoMemory>
        requires { StandsAt self.now.tab (chars self.now.text.now) from }
        ensures stands { IfOk result (StandsAt self.now.tab (chars self.now.text.now)) }
        ensures pieces { IfOk result (λ place. AddsPieces self.now.width self.now.tab (chars self.now.text.now)
            from.entry.end place.end ends.old.items ends.new.items) }
        ensures order { IfOk result (λ place. from.entry.end ≤ place.end) }
    {
        let run = from.rest.alone(self.width as u64 + STRETCH);
        let mut len: usize = 0;
        while let Some(next) = plain_end(run.split_at(len).1, self.width) {
            len += next;
            ends.push(from.end + len as u64)?;
        }
        Ok(Place {
            end: from.end + len as u64,
            rest: from.rest.past(run.split_at(len).0),
        })
    }

    /// The clusters of the piece, and those after it up to where no later one can end it.
    fn look_through(&self, from: &Place<'a>) -> Look<'a>
        requires { StandsAt self.now.tab (chars self.now.text.now) from.now }
        ensures { IsThrough self.now.width self.now.tab (chars self.now.text.now) from.now.end result }
    {
        let mut ahead = from.rest.copy();
        ahead.begin_piece();
        let mut look = Look {
            column: 0,
            solid: 0,
            candidate: None,
            fitting: None,
        };
        while let Some(cluster) = ahead.next() {
            let tail = tail_of(cluster.cluster);
            if tail.shown > 0 && look.column > self.width as u128 {
                return look;
            }
            self.pass(&mut look, cluster, tail, &ahead);
        }
        look
    }

    /// What is known past one cluster more, after which `rest` goes on. Only what changes is written: a place is taken at most twice.
    fn pass(&self, look: &mut Look<'a>, cluster: Placed<'a>, tail: Tail, rest: &Walk<'a>)
        requires tail { IsTail (chars cluster.cluster.now) tail }
        requires reached { 0 < tail.shown → look.old.column ≤ self.now.width }
        requires tab { walk_tab rest.now ≡ self.now.tab }
        ensures { (start : ℕ) →
            Looked self.now.width self.now.tab (chars self.now.text.now) start look.old
            (placed_view cluster.entry ∷ walk_left rest.now) →
            Looked self.now.width self.now.tab (chars self.now.text.now) start look.new
            (walk_left rest.now) }
    {
        let width = self.width as u128;
        let columns = shown_columns(look.column, look.solid, cluster, tail);
        let fits = columns <= width;
        let ends = is_candidate(fits, cluster.end == self.len, tail.breaks);
        let takes = is_first_or(fits, &look.fitting);
        look.column = cluster.column;
        look.solid = solid_columns(columns, cluster, tail);
        take_later(&mut look.candidate, ends, cluster.end, rest);
        take_later(&mut look.fitting, takes, cluster.end, rest);
    }
}

/// Whether a cluster's end is a candidate that fits: the line's end, or one after a character that breaks.
fn is_candidate(fits: bool, last: bool, breaks: bool) -> bool
    ensures { result ≡ (fits && (last || breaks)) }
{
    fits && (last || breaks)
}

/// Whether a cluster's end fits, or is the first.
fn is_first_or(fits: bool, before: &Option<Place<'_>>) -> bool
    ensures { result ≡ (fits || is_none before.now) }
{
    fits || before.is_none()
}

/// Puts the place behind a cluster for the one before it, where it is taken.
fn take_later<'a>(place: &mut Option<Place<'a>>, takes: bool, end: u64, rest: &Walk<'a>)
    ensures { IsLater place.old takes end rest.now place.new }
{
    if takes {
        *place = Some(Place {
            end,
            rest: rest.copy(),
        });
    }
}

/// The columns of the piece that ends after the cluster, which begins at `column`; up to there without trailing blanks are `solid`.
fn shown_columns(column: u128, solid: u128, cluster: Placed<'_>, tail: Tail) -> u128
    requires tail { IsTail (chars cluster.cluster.now) tail }
    requires reached { 0 < tail.shown → column < 2 ^ 33 }
    ensures none { tail.shown ≡ 0 → result ≡ solid }
    ensures some { (tab : ℕ) → 0 < tail.shown → cluster.entry.column ≡ column_after tab column (chars cluster.entry.cluster.now)
        → result ≡ column_after tab column (take tail.shown (chars cluster.entry.cluster.now)) }
{
    if tail.shown == 0 {
        solid
    } else if tail.shown == tail.len {
        cluster.column
    } else {
        inside_column(
            column,
            cluster.column,
            split_at_gap(cluster.cluster, tail.shown).0,
        )
    }
}

/// The columns without trailing blanks up to the end of the cluster, where these are those of the piece that ends there.
fn solid_columns(columns: u128, cluster: Placed<'_>, tail: Tail) -> u128
    ensures { result ≡ cond (tail.solid == tail.len) cluster.entry.column columns }
{
    if tail.solid == tail.len {
        cluster.column
    } else {
        columns
    }
}

/// The column after the first characters of a cluster that begins at `column`, where `whole` is that after all of it.
fn inside_column(column: u128, whole: u128, part: &str) -> u128
    requires { column < 2 ^ 33 }
    ensures { result ≡ inside_column column whole (chars part.now) }
{
    match part.chars().next() {
        Some(c) if !c.is_control() => column + part.width() as u128,
        _ => whole,
    }
}
