// Whether two texts are shown alike, line by line, up to the first line that differs.
ghost use Rattle.std.specs.Prelude.{◌≡◌, ◌+◌, ◌≤◌, drop, length, take, IfOk};
ghost use Rattle.std.specs.Str.{bytes_eq};
ghost use Rattle.std.specs.Cmp.Lexicographic.{pointwise};
ghost use Rattle.match_index.specs.Found.{runs_in};
ghost use Rattle.plain_screen.specs.SameLayout.{is_same_layout, is_same_line, is_same_number, is_same_triple};
ghost use Rattle.plain_screen.specs.Touched.{is_same_but_number};
ghost use Rattle.doc_layout.specs.Found.{MayShow};
ghost use Rattle.doc_layout.specs.Layout.{layout};

use crate::layout::{Shown, line_at};
use plain_screen::{Line, TextView, Triple};
use plain_text::{NoMemory, Text};
use std::alloc::Global;

/// Whether two layouts are the same, of which the lines before this one are. This renders the lines of both from there up to the first
/// that differs, where there are as many.
pub fn is_same_layout<T: TextView>(
    alloc: Global,
    shown: &Shown<'_, T>,
    other: &Shown<'_, T>,
    from: u64,
) -> Result<bool, NoMemory>
    requires one { MayShow (T.text_of shown.now.view.now) shown.now.sel.now.regions shown.now.results.now }
    requires another { MayShow (T.text_of other.now.view.now) other.now.sel.now.regions other.now.results.now }
    requires inside { from ≤ length (T.pieces_of shown.now.view.now) }
    requires alike { take from (layout (T.text_of shown.now.view.now) (T.pieces_of shown.now.view.now) shown.now.sel.now.regions
        (runs_in shown.now.results.now) shown.now.layers.now)
        ≡ take from (layout (T.text_of other.now.view.now) (T.pieces_of other.now.view.now) other.now.sel.now.regions
        (runs_in other.now.results.now) other.now.layers.now) }
    ensures { IfOk result (λ same. same ≡ is_same_layout
        (layout (T.text_of shown.now.view.now) (T.pieces_of shown.now.view.now) shown.now.sel.now.regions
        (runs_in shown.now.results.now) shown.now.layers.now)
        (layout (T.text_of other.now.view.now) (T.pieces_of other.now.view.now) other.now.sel.now.regions
        (runs_in other.now.results.now) other.now.layers.now)) }
{
    let len = shown.view.lines();
    if len != other.view.lines() {
        return Ok(false);
    }
    for index in from..len {
        let line = line_at(alloc, shown, index)?;
        let counterpart = line_at(alloc, other, index)?;
        if !is_same_line(&line, &counterpart) {
            return Ok(false);
        }
    }
    Ok(true)
}

/// Whether the `n` lines of one layout from `at` on are those of another one from `from` on, but for their numbers. This renders both, up to the
/// first that differs.
pub fn are_alike<T: TextView>(
    alloc: Global,
    shown: &Shown<'_, T>,
    at: u64,
    other: &Shown<'_, T>,
    from: u64,
    n: u64,
) -> Result<bool, NoMemory>
    requires one { MayShow (T.text_of shown.now.view.now) shown.now.sel.now.regions shown.now.results.now }
    requires another { MayShow (T.text_of other.now.view.now) other.now.sel.now.regions other.now.results.now }
    requires inside { at + n ≤ length (T.pieces_of shown.now.view.now) }
    requires too { from + n ≤ length (T.pieces_of other.now.view.now) }
    ensures { IfOk result (λ same. same ≡ pointwise is_same_but_number
        (take n (drop at (layout (T.text_of shown.now.view.now) (T.pieces_of shown.now.view.now) shown.now.sel.now.regions
        (runs_in shown.now.results.now) shown.now.layers.now)))
        (take n (drop from (layout (T.text_of other.now.view.now) (T.pieces_of other.now.view.now) other.now.sel.now.regions
        (runs_in other.now.results.now) other.now.layers.now)))) }
{
    // 64 bits count the lines of both.
    let _count = shown.view.lines();
    let _counterparts = other.view.lines();
    for index in 0..n {
        let line = line_at(alloc, shown, at + index)?;
        let counterpart = line_at(alloc, other, from + index)?;
        if !is_same_but_number(&line, &counterpart) {
            return Ok(false);
        }
    }
    Ok(true)
}

fn is_same_but_number(line: &Line, other: &Line) -> bool
    ensures { result ≡ is_same_but_number line.now other.now }
{
    is_same_text(&line.text, &other.text)
        && line.ln.is_some() == other.ln.is_some()
        && are_same_places(line.cursor.as_slice(), other.cursor.as_slice())
        && are_same_styles(line.styles.as_slice(), other.styles.as_slice())
}

fn is_same_line(line: &Line, other: &Line) -> bool
    ensures { result ≡ is_same_line line.now other.now }
{
    is_same_text(&line.text, &other.text)
        && is_same_number(line.ln, other.ln)
        && are_same_places(line.cursor.as_slice(), other.cursor.as_slice())
        && are_same_styles(line.styles.as_slice(), other.styles.as_slice())
}

fn is_same_text(text: &Text, other: &Text) -> bool
    ensures { result ≡ bytes_eq text.now other.now }
{
    text.as_str() == other.as_str()
}

fn is_same_number(number: Option<u64>, other: Option<u64>) -> bool
    ensures { result ≡ is_same_number number other }
{
    match (number, other) {
        (None, None) => true,
        (Some(number), Some(other)) => number == other,
        _ => false,
    }
}

fn are_same_places(places: &[u64], others: &[u64]) -> bool
    ensures { result ≡ bytes_eq places.now others.now }
{
    places == others
}

fn are_same_styles(styles: &[Triple], others: &[Triple]) -> bool
    ensures { result ≡ pointwise is_same_triple styles.now others.now }
{
    styles == others
}
