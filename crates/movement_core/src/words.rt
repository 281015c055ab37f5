ghost use Rattle.std.specs.Prelude.{◌≡◌, ℕ, ◌+◌, ◌^◌, ◌<◌, ◌≤◌, true, List, [], ◌∷◌, ◌++◌, length, reverse, take, drop, unwrap_or, Some, IfOk};
ghost use Rattle.std.specs.Str.{all_scalars, chars};
ghost use Rattle.movement_core.specs.Words.{class_number, is_alike, is_between_words, run_len, word_left, word_len, word_right};
ghost use Rattle.movement_core.specs.Inner.{IsTrail, begun, goes_on, run_with};

use crate::lines::text_end;
use crate::places::{outward_left, outward_right};
use cluster_core::{Class, class_of};
use plain_screen::TextView;
use plain_text::NoMemory;
use std::alloc::Global;

/// How many characters are read first; each further part is twice as long.
const FIRST_PART: u64 = 32;

fn is_between_words(c: char) -> bool
    ensures { result ≡ is_between_words c }
{
    c == '\n' || c == ' ' || c == '\t' || c == '\r'
}

fn class_number(class: Class) -> u8
    ensures { result ≡ class_number class }
{
    match class {
        Class::Feed => 0,
        Class::Blank => 1,
        Class::Punct => 2,
        Class::Other => 3,
    }
}

fn is_alike(first: char, c: char) -> bool
    ensures { result ≡ is_alike first c }
{
    class_number(class_of(c)) == class_number(class_of(first))
}

/// Whether a character is passed over, where the word begins with this first one; `None` before a word begins.
fn goes_on(first: Option<char>, c: char) -> bool
    ensures { result ≡ goes_on first c }
{
    match first {
        None => true,
        Some(first) => is_alike(first, c),
    }
}

/// The first character of the word, past one character more.
fn begun(first: Option<char>, c: char) -> Option<char>
    ensures { result ≡ begun first c }
{
    match first {
        Some(first) => Some(first),
        None => { if is_between_words(c) { None } else { Some(c) } }
    }
}

/// How far a word reaches from the start of a text.
fn reach(text: &str) -> u64
    ensures { result ≡ word_len (chars text.now) }
{
    let mut len: u64 = 0;
    let mut first = None;
    for c in text.chars() {
        if goes_on(first, c) {
            first = begun(first, c);
            len += 1;
        } else {
            return len;
        }
    }
    len
}

/// What the end of a text is to a word motion to the left: how far it reaches, and the run of the last character's class.
#[derive(Clone, Copy)]
struct Trail {
    len: u64,
    run: u64,
    last: Option<char>,
}

/// The trail of a text with one character more.
fn with_last(trail: Trail, c: char) -> Trail
    requires len { trail.len + 1 < 2 ^ 64 }
    requires run { trail.run + 1 < 2 ^ 64 }
    ensures { (text : List ℕ) → IsTrail text trail → IsTrail (text ++ c ∷ []) result }
{
    let run = run_with(trail.last, trail.run, c);
    let len = if is_between_words(c) {
        trail.len + 1
    } else {
        run
    };
    Trail {
        len,
        run,
        last: Some(c),
    }
}

/// The run of a character's class, after a run of this last character's.
fn run_with(last: Option<char>, run: u64, c: char) -> u64
    requires { run + 1 < 2 ^ 64 }
    ensures { result ≡ run_with last run c }
{
    match last {
        None => 1,
        Some(last) => { if is_alike(c, last) { run + 1 } else { 1 } }
    }
}

/// The trail of a text.
fn trail_of(text: &str) -> Trail
    ensures { IsTrail (chars text.now) result }
{
    let mut trail = Trail {
        len: 0,
        run: 0,
        last: None,
    };
    for c in text.chars() {
        trail = with_last(trail, c);
    }
    trail
}

/// How far a word reaches to the left from the end of a text.
fn reach_back(text: &str) -> u64
    ensures { result ≡ word_len (reverse (chars text.now)) }
{
    trail_of(text).len
}

/// How long the run of one class is at the end of a text.
fn run_back(text: &str) -> u64
    ensures { result ≡ run_len (reverse (chars text.now)) }
{
    trail_of(text).run
}

/// The first character of a run, past one character more.
fn begin(first: Option<char>, c: char) -> Option<char>
    ensures { result ≡ Some (unwrap_or first c) }
{
    match first {
        Some(first) => Some(first),
        None => Some(c),
    }
}

/// How long the run of one class is at the start of a text.
fn run_ahead(text: &str) -> u64
    ensures { result ≡ run_len (chars text.now) }
{
    let mut len: u64 = 0;
    let mut first = None;
    for c in text.chars() {
        if goes_on(first, c) {
            first = begin(first, c);
            len += 1;
        } else {
            return len;
        }
    }
    len
}

/// Where a word ends that reaches to the right from a gap. This reads at most twice what it passes over, or the first part.
fn reach_right<T: TextView>(alloc: Global, view: &T, gap: u64) -> Result<u64, NoMemory>
    requires { gap ≤ length (T.text_of view.now) }
    ensures { IfOk result (λ to. to ≡ gap + word_len (drop gap (T.text_of view.now))) }
{
    let room = text_end(view) - gap;
    let mut len = room.min(FIRST_PART);
    loop {
        let part = view.text(alloc, gap, gap + len)?;
        let found = reach(part.as_str());
        if found < len {
            return Ok(gap + found);
        }
        if len == room {
            return Ok(gap + found);
        }
        len += len.min(room - len);
    }
}

/// How far a word reaches to the left from a gap, as [`reach_right`] to the right.
fn reach_left<T: TextView>(alloc: Global, view: &T, gap: u64) -> Result<u64, NoMemory>
    requires { gap ≤ length (T.text_of view.now) }
    ensures { IfOk result (λ len. len ≡ word_len (reverse (take gap (T.text_of view.now)))) }
{
    let mut len = gap.min(FIRST_PART);
    loop {
        let part = view.text(alloc, gap - len, gap)?;
        let found = reach_back(part.as_str());
        if found < len {
            return Ok(found);
        }
        if len == gap {
            return Ok(found);
        }
        len += len.min(gap - len);
    }
}

/// Where a word motion to the right takes a caret.
pub(crate) fn word_right<T: TextView>(alloc: Global, view: &T, gap: u64) -> Result<u64, NoMemory>
    requires characters { all_scalars (T.text_of view.now) ≡ true }
    requires inside { gap ≤ length (T.text_of view.now) }
    ensures { IfOk result (λ place. place ≡ word_right (T.text_of view.now) gap) }
{
    let to = reach_right(alloc, view, gap)?;
    outward_right(alloc, view, to)
}

/// Where a word motion to the left takes a caret.
pub(crate) fn word_left<T: TextView>(alloc: Global, view: &T, gap: u64) -> Result<u64, NoMemory>
    requires characters { all_scalars (T.text_of view.now) ≡ true }
    requires inside { gap ≤ length (T.text_of view.now) }
    ensures { IfOk result (λ place. place ≡ word_left (T.text_of view.now) gap) }
{
    let len = reach_left(alloc, view, gap)?;
    outward_left(alloc, view, gap.saturating_sub(len))
}

/// How many characters the run of one class has that begins at a gap, whatever class that is; at the text's end it has none. This
/// reads at most twice what it gives, or the first part.
pub fn run_right<T: TextView>(alloc: Global, view: &T, gap: u64) -> Result<u64, NoMemory>
    requires { gap ≤ length (T.text_of view.now) }
    ensures { IfOk result (λ len. len ≡ run_len (drop gap (T.text_of view.now))) }
{
    let room = text_end(view) - gap;
    let mut len = room.min(FIRST_PART);
    loop {
        let part = view.text(alloc, gap, gap + len)?;
        let found = run_ahead(part.as_str());
        if found < len {
            return Ok(found);
        }
        if len == room {
            return Ok(found);
        }
        len += len.min(room - len);
    }
}

/// How many characters the run of one class has that ends at a gap, as [`run_right`] the one that begins there.
pub fn run_left<T: TextView>(alloc: Global, view: &T, gap: u64) -> Result<u64, NoMemory>
    requires { gap ≤ length (T.text_of view.now) }
    ensures { IfOk result (λ len. len ≡ run_len (reverse (take gap (T.text_of view.now)))) }
{
    let mut len = gap.min(FIRST_PART);
    loop {
        let part = view.text(alloc, gap - len, gap)?;
        let found = run_back(part.as_str());
        if found < len {
            return Ok(found);
        }
        if len == gap {
            return Ok(found);
        }
        len += len.min(gap - len);
    }
}
