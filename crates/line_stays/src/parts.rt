// The lines of a part that stay: logical lines without a mark are the same, the others are rendered and compared.
ghost use Rattle.std.specs.Prelude.{◌≡◌, ℕ, ◌+◌, ◌-◌, ◌^◌, ◌<◌, ◌≤◌, Bool, true, false, List, length, drop, Option, IfNone, IfOk, IfSome, OnOk};
ghost use Rattle.plain_screen.specs.View.{layout_line_of, start_of};
ghost use Rattle.subset_runs.specs.Subset.{contains};
ghost use Rattle.match_index.specs.Found.{runs_in};
ghost use Rattle.doc_layout.specs.Found.{MayShow};
ghost use Rattle.doc_layout.specs.Layout.{layout};
ghost use Rattle.line_stays.specs.Edges.{first_piece, past_piece};
ghost use Rattle.line_stays.specs.Inner.{ArePartnersIn, SayPartners, AreStyledAlike, AreWhole, EndBefore, IsSharedPart, IsUnmarked, is_same_logical};

use crate::change::Change;
use crate::edges::{first_piece, past_piece, piece_at};
use crate::marks::{Gaps, marks_in};
use crate::stays::Stays;
use doc_layout::laws::pieces_read;
use doc_layout::{Shown, are_alike};
use line_cache::{Mirror, Stay};
use plain_screen::TextView;
use plain_text::{NoMemory, Run};
use std::alloc::Global;
use subset_runs::{Subset, Walk};

// The `n` lines before an event from `old` on, and after it from `new` on.
#[derive(Clone, Copy)]
pub(crate) struct Part {
    pub(crate) old: u64,
    pub(crate) new: u64,
    pub(crate) n: u64,
}

// A logical line with a mark: its first line, and the gap at which the mark stands.
#[derive(Clone, Copy)]
struct Marked {
    first: u64,
    gap: u64,
}

/// Puts the lines of a part that stay at the end.
pub(crate) fn put_stays<T: TextView>(
    alloc: Global,
    stays: &mut Stays,
    had: &Mirror,
    before: &Shown<'_, T>,
    after: &Shown<'_, T>,
    change: Change,
    part: Part,
) -> Result<(), NoMemory>
    requires one { MayShow (T.text_of before.now.view.now) before.now.sel.now.regions before.now.results.now }
    requires another { MayShow (T.text_of after.now.view.now) after.now.sel.now.regions after.now.results.now }
    requires fits { length (T.text_of before.now.view.now) + 1 < 2 ^ 64 }
    requires fits_after { length (T.text_of after.now.view.now) + 1 < 2 ^ 64 }
    requires part { IsSharedPart (T.text_of before.now.view.now) (T.text_of after.now.view.now)
        (T.pieces_of before.now.view.now) (T.pieces_of after.now.view.now) part.old part.new part.n }
    requires styled { AreStyledAlike change (T.pieces_of before.now.view.now) (T.pieces_of after.now.view.now)
        before.now.layers.now after.now.layers.now part.old part.new part.n }
    ensures { OnOk result ((partner : ℕ → Option (ℕ × Bool))
        → ArePartnersIn (is_same_logical (T.text_of before.now.view.now) (T.pieces_of before.now.view.now)
        (layout (T.text_of before.now.view.now) (T.pieces_of before.now.view.now) before.now.sel.now.regions
        (runs_in before.now.results.now) before.now.layers.now)
        (layout (T.text_of after.now.view.now) (T.pieces_of after.now.view.now) after.now.sel.now.regions
        (runs_in after.now.results.now) after.now.layers.now) part.old part.new) part.old part.new part.n partner
        → SayPartners had.now partner part.old part.new stays.old
        → SayPartners had.now partner (part.old + part.n) (part.new + part.n) stays.new) }
{
    // 64 bits count the lines of both.
    let _lines = before.view.lines();
    let _counterparts = after.view.lines();
    let end = part.old + part.n;
    let mut at = part.old;
    while let Some(run) = next_in(had, at, end) {
        let first = first_piece(before.view, run.start);
        let past = past_piece(before.view, run.end - 1);
        let lines = Part {
            old: first,
            new: part.new + (first - part.old),
            n: past - first,
        };
        let marks = marks_of(alloc, before, after, change, lines)?;
        put_marked(alloc, stays, before, after, lines, &marks)?;
        at = past;
    }
    Ok(())
}

// The first lines that a front end has from one on, as far as they stand before another.
fn next_in(had: &Mirror, from: u64, end: u64) -> Option<Run>
    ensures some { IfSome result (λ run. (from ≤ run.start) × (run.start < run.end) × (run.end ≤ end)) }
    ensures before { IfSome result (λ run. (index : ℕ) → from ≤ index → index < run.start → contains had.now index ≡ false) }
    ensures none { IfNone result ((index : ℕ) → from ≤ index → index < end → contains had.now index ≡ false) }
{
    match had.next_run(from) {
        None => None,
        Some(run) => {
            if run.start < end {
                Some(Run {
                    start: run.start,
                    end: run.end.min(end),
                })
            } else {
                None
            }
        }
    }
}

// The marks of whole logical lines, from the gap at their start to that at their end.
fn marks_of<T: TextView>(
    alloc: Global,
    before: &Shown<'_, T>,
    after: &Shown<'_, T>,
    change: Change,
    part: Part,
) -> Result<Subset, NoMemory>
    requires one { MayShow (T.text_of before.now.view.now) before.now.sel.now.regions before.now.results.now }
    requires another { MayShow (T.text_of after.now.view.now) after.now.sel.now.regions after.now.results.now }
    requires fits { length (T.text_of before.now.view.now) + 1 < 2 ^ 64 }
    requires fits_after { length (T.text_of after.now.view.now) + 1 < 2 ^ 64 }
    requires some { 0 < part.n }
    requires part { IsSharedPart (T.text_of before.now.view.now) (T.text_of after.now.view.now)
        (T.pieces_of before.now.view.now) (T.pieces_of after.now.view.now) part.old part.new part.n }
    requires styled { AreStyledAlike change (T.pieces_of before.now.view.now) (T.pieces_of after.now.view.now)
        before.now.layers.now after.now.layers.now part.old part.new part.n }
    ensures reach { IfOk result (λ marks. EndBefore (T.pieces_of before.now.view.now) part.old part.n (length marks)) }
    ensures count { IfOk result (λ marks. start_of (T.pieces_of before.now.view.now) part.old + length marks
        ≤ length (T.text_of before.now.view.now) + 1) }
    ensures plain { IfOk result (λ marks. (x : ℕ) → part.old ≤ x → x < part.old + part.n
        → IsUnmarked (T.text_of before.now.view.now) (T.pieces_of before.now.view.now) marks
        (start_of (T.pieces_of before.now.view.now) part.old) x
        → is_same_logical (T.text_of before.now.view.now) (T.pieces_of before.now.view.now)
        (layout (T.text_of before.now.view.now) (T.pieces_of before.now.view.now) before.now.sel.now.regions
        (runs_in before.now.results.now) before.now.layers.now)
        (layout (T.text_of after.now.view.now) (T.pieces_of after.now.view.now) after.now.sel.now.regions
        (runs_in after.now.results.now) after.now.layers.now) part.old part.new x ≡ true) }
{
    // 64 bits count the lines of both.
    let _lines = before.view.lines();
    let _counterparts = after.view.lines();
    let old = piece_at(before.view, part.old).start;
    let end = piece_at(before.view, part.old + part.n - 1).end;
    let new = piece_at(after.view, part.new).start;
    let gaps = Gaps {
        old,
        new,
        n: end - old + 1,
    };
    // A line reads no more than what is shown on its piece.
    pieces_read();
    let marks = marks_in(alloc, before, after, change, gaps)?;
    Ok(marks)
}

// Puts the lines of whole logical lines at the end: a logical line with a mark is rendered and compared, and all others are the same.
fn put_marked<T: TextView>(
    alloc: Global,
    stays: &mut Stays,
    before: &Shown<'_, T>,
    after: &Shown<'_, T>,
    part: Part,
    marks: &Subset,
) -> Result<(), NoMemory>
    requires one { MayShow (T.text_of before.now.view.now) before.now.sel.now.regions before.now.results.now }
    requires another { MayShow (T.text_of after.now.view.now) after.now.sel.now.regions after.now.results.now }
    requires fits { length (T.text_of before.now.view.now) + 1 < 2 ^ 64 }
    requires count { start_of (T.pieces_of before.now.view.now) part.old + length marks.now ≤ length (T.text_of before.now.view.now) + 1 }
    requires inside { part.old + part.n ≤ length (T.pieces_of before.now.view.now) }
    requires too { part.new + part.n ≤ length (T.pieces_of after.now.view.now) }
    requires whole { AreWhole (T.text_of before.now.view.now) (T.pieces_of before.now.view.now) part.old part.n
        × EndBefore (T.pieces_of before.now.view.now) part.old part.n (length marks.now) }
    requires some { 0 < part.n }
    requires plain { (x : ℕ) → part.old ≤ x → x < part.old + part.n
        → IsUnmarked (T.text_of before.now.view.now) (T.pieces_of before.now.view.now) marks.now
        (start_of (T.pieces_of before.now.view.now) part.old) x
        → is_same_logical (T.text_of before.now.view.now) (T.pieces_of before.now.view.now)
        (layout (T.text_of before.now.view.now) (T.pieces_of before.now.view.now) before.now.sel.now.regions
        (runs_in before.now.results.now) before.now.layers.now)
        (layout (T.text_of after.now.view.now) (T.pieces_of after.now.view.now) after.now.sel.now.regions
        (runs_in after.now.results.now) after.now.layers.now) part.old part.new x ≡ true }
    ensures { OnOk result ((had : List Bool) (partner : ℕ → Option (ℕ × Bool))
        → ArePartnersIn (is_same_logical (T.text_of before.now.view.now) (T.pieces_of before.now.view.now)
        (layout (T.text_of before.now.view.now) (T.pieces_of before.now.view.now) before.now.sel.now.regions
        (runs_in before.now.results.now) before.now.layers.now)
        (layout (T.text_of after.now.view.now) (T.pieces_of after.now.view.now) after.now.sel.now.regions
        (runs_in after.now.results.now) after.now.layers.now) part.old part.new) part.old part.new part.n partner
        → SayPartners had partner part.old part.new stays.old
        → SayPartners had partner (part.old + part.n) (part.new + part.n) stays.new) }
{
    // 64 bits count the lines of both.
    let _lines = before.view.lines();
    let _counterparts = after.view.lines();
    let end = part.old + part.n;
    let mut walk = marks.walk();
    // The lines that are done with, and the gap that the walk stands at.
    let mut at = part.old;
    let mut gap = piece_at(before.view, at).start;
    while at < end {
        match next_marked(before.view, &mut walk, gap, end) {
            None => {
                put_same(stays, part, at, end)?;
                return Ok(());
            }
            Some(marked) => {
                put_same(stays, part, at, marked.first)?;
                at = put_compared(alloc, stays, before, after, part, marked.first)?;
                gap = piece_at(before.view, at - 1).end;
                walk.skip(gap - marked.gap);
            }
        }
    }
    Ok(())
}

// Goes on to the next mark, where that stands before a line, and gives the first line of its logical line; `None` where no mark is left there.
fn next_marked<T: TextView>(view: &T, walk: &mut Walk<'_>, from: u64, end: u64) -> Option<Marked>
    requires fits { from + length walk.old < 2 ^ 64 }
    ensures some { IfSome result (λ marked. marked.first ≡ first_piece (T.text_of view.now) (T.pieces_of view.now)
        (layout_line_of (T.pieces_of view.now) marked.gap)) }
    ensures before { IfSome result (λ marked. marked.first < end) }
    ensures gone { IfSome result (λ marked. (k : ℕ) → from + k < marked.gap → contains walk.old k ≡ false) }
    ensures rest { IfSome result (λ marked. (from ≤ marked.gap) × (marked.gap < from + length walk.old)
        × (walk.new ≡ drop (marked.gap - from) walk.old)) }
    ensures none { IfNone result ((k : ℕ) → k < length walk.old → layout_line_of (T.pieces_of view.now) (from + k) < end
        → contains walk.old k ≡ false) }
{
    let n = to_mark(walk);
    if walk.is_empty() {
        return None;
    }
    let gap = from + n;
    let first = first_piece(view, view.line_of(gap));
    if first < end {
        Some(Marked { first, gap })
    } else {
        None
    }
}

// Goes on to the next mark, or to the end, and gives how many gaps that is.
fn to_mark(walk: &mut Walk<'_>) -> u64
    ensures gone { (k : ℕ) → k < result → contains walk.old k ≡ false }
    ensures within { result ≤ length walk.old }
    ensures rest { walk.new ≡ drop result walk.old }
{
    if walk.is_empty() {
        return 0;
    }
    let front = walk.front();
    if front.member {
        return 0;
    }
    walk.skip(front.len);
    front.len
}

// Puts the lines from one of a part on up to another, which are the same.
fn put_same(stays: &mut Stays, part: Part, from: u64, to: u64) -> Result<(), NoMemory>
    requires low { part.old ≤ from }
    requires ordered { from ≤ to }
    requires fits { part.new + (to - part.old) < 2 ^ 64 }
    ensures { OnOk result ((had : List Bool) (partner : ℕ → Option (ℕ × Bool)) (same : ℕ → Bool)
        → ArePartnersIn same part.old part.new (to - part.old) partner
        → ((x : ℕ) → from ≤ x → x < to → same x ≡ true)
        → SayPartners had partner from (part.new + (from - part.old)) stays.old
        → SayPartners had partner to (part.new + (to - part.old)) stays.new) }
{
    stays.push(stay_in(part, from, to, true))?;
    Ok(())
}

// Puts the lines of the logical line that begins with a line, rendered and compared, and gives the line behind it.
fn put_compared<T: TextView>(
    alloc: Global,
    stays: &mut Stays,
    before: &Shown<'_, T>,
    after: &Shown<'_, T>,
    part: Part,
    first: u64,
) -> Result<u64, NoMemory>
    requires one { MayShow (T.text_of before.now.view.now) before.now.sel.now.regions before.now.results.now }
    requires another { MayShow (T.text_of after.now.view.now) after.now.sel.now.regions after.now.results.now }
    requires inside { part.old + part.n ≤ length (T.pieces_of before.now.view.now) }
    requires too { part.new + part.n ≤ length (T.pieces_of after.now.view.now) }
    requires whole { AreWhole (T.text_of before.now.view.now) (T.pieces_of before.now.view.now) part.old part.n }
    requires low { part.old ≤ first }
    requires high { first < part.old + part.n }
    requires begins { first_piece (T.text_of before.now.view.now) (T.pieces_of before.now.view.now) first ≡ first }
    ensures past { IfOk result (λ past. past ≡ past_piece (T.pieces_of before.now.view.now) first) }
    ensures settled { IfOk result (λ past. (had : List Bool) (partner : ℕ → Option (ℕ × Bool))
        → ArePartnersIn (is_same_logical (T.text_of before.now.view.now) (T.pieces_of before.now.view.now)
        (layout (T.text_of before.now.view.now) (T.pieces_of before.now.view.now) before.now.sel.now.regions
        (runs_in before.now.results.now) before.now.layers.now)
        (layout (T.text_of after.now.view.now) (T.pieces_of after.now.view.now) after.now.sel.now.regions
        (runs_in after.now.results.now) after.now.layers.now) part.old part.new) part.old part.new part.n partner
        → SayPartners had partner first (part.new + (first - part.old)) stays.old
        → SayPartners had partner past (part.new + (past - part.old)) stays.new) }
{
    // 64 bits count the lines of both.
    let _lines = before.view.lines();
    let _counterparts = after.view.lines();
    let past = past_piece(before.view, first);
    let new = part.new + (first - part.old);
    let same = are_alike(alloc, before, first, after, new, past - first)?;
    stays.push(stay_in(part, first, past, same))?;
    Ok(past)
}

// The lines of a part from one line before the event up to another.
fn stay_in(part: Part, from: u64, to: u64, same: bool) -> Stay
    requires low { part.old ≤ from }
    requires ordered { from ≤ to }
    requires fits { part.new + (to - part.old) < 2 ^ 64 }
    ensures { result ≡ record { old = from; new = part.new + (from - part.old); n = to - from; same = same } }
{
    Stay {
        old: from,
        new: part.new + (from - part.old),
        n: to - from,
        same,
    }
}
