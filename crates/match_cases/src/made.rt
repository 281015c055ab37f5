//! Indices of matches, and what is in them.

ghost use Rattle.std.specs.Prelude.{◌≡◌, IfOk};

use delta_core::{apply, fits, to_units};
use match_index::Matches;
use plain_edits::Delta;
use plain_text::{NoMemory, Run, Text};
use rope_tree::Rope;
use std::alloc::Global;

// The matches of characters in a text.
pub(crate) fn matches_in(
    alloc: Global,
    text: &Text,
    chars: &Text,
    fold: bool,
) -> Result<Matches, NoMemory> {
    let rope = Rope::of_text(alloc, text)?;
    Matches::of_rope(alloc, &rope, chars, fold)
}

// The text of the matches.
fn whole(alloc: Global, matches: &Matches) -> Result<Text, NoMemory>
    ensures { IfOk result (λ text. text ≡ matches.now.text) }
{
    matches.rope().slice(alloc, 0, matches.rope().len())
}

// The matches after an edit of their text, and that text as a plain one.
pub(crate) fn edited(
    alloc: Global,
    matches: &Matches,
    delta: &Delta,
) -> Result<(Matches, Text), NoMemory> {
    let text = whole(alloc, matches)?;
    if fits(&text, delta).is_err() {
        return Err(NoMemory);
    }
    let units = to_units(alloc, &text, delta)?;
    let after = apply(alloc, &text, &units)?;
    let _bytes = after.byte_len();
    let rope = matches.rope().edited(alloc, &units)?;
    let made = matches.edited(alloc, &rope, &units)?;
    Ok((made, after))
}

// Whether these are the matches, one after the other, from the left and from the right.
pub(crate) fn are_matches(matches: &Matches, runs: &[(u64, u64)]) -> bool {
    let mut from: u64 = 0;
    for (start, end) in runs {
        let run = Some(Run {
            start: *start,
            end: *end,
        });
        if matches.first_from(from) != run || matches.last_to(*end) != run {
            return false;
        }
        from = *end;
    }
    matches.first_from(from).is_none() && matches.len() == runs.len() as u64
}
