ghost use Rattle.std.specs.Prelude.{◌≡◌, ◌<◌, length, map, IfOk};
ghost use Rattle.std.specs.Char.{to_ascii_lowercase};
ghost use Rattle.find_core.specs.Matches.{matches_from, matches_of};

use memchr::memmem;
use plain_text::{NoMemory, Run, Runs, Text};
use std::alloc::Global;

/// The matches of the characters in the text, from the left, none of which overlaps the one before, as runs of characters; none where
/// there are no characters. With `fold` ASCII letters are equal in both cases, and no other character is. Want of memory is its only
/// error.
///
/// It takes the time of the text and of the characters, and memory for its answer and, with `fold`, for one folded copy of each.
pub fn matches(alloc: Global, text: &Text, chars: &Text, fold: bool) -> Result<Runs, NoMemory>
    ensures { IfOk result (λ runs. runs ≡ matches_of text.now chars.now fold) }
{
    if chars.is_empty() {
        return Ok(Runs::new(alloc));
    }
    if fold {
        let folded_text = folded(alloc, text)?;
        let folded_chars = folded(alloc, chars)?;
        return matches_in(alloc, &folded_text, &folded_chars);
    }
    matches_in(alloc, text, chars)
}

/// The text with each ASCII capital as its small letter.
fn folded(alloc: Global, text: &Text) -> Result<Text, NoMemory>
    ensures { IfOk result (λ made. made ≡ map to_ascii_lowercase text.now) }
{
    Ok(Text::from_string(text.as_str().to_ascii_lowercase(alloc)?))
}

/// The matches of characters as they stand.
fn matches_in(alloc: Global, text: &Text, chars: &Text) -> Result<Runs, NoMemory>
    requires { 0 < length chars.now }
    ensures { IfOk result (λ runs. runs ≡ matches_from chars.now 0 0 text.now) }
{
    let len = chars.char_count();
    let mut found = Runs::new(alloc);
    let mut place: u64 = 0;
    let mut gap: u64 = 0;
    for at in memmem::find_iter(text.as_str().as_bytes(), chars.as_str().as_bytes()) {
        let next = at as u64;
        gap += text.gaps_between(place, next);
        place = next;
        found.push(Run {
            start: gap,
            end: gap + len,
        })?;
    }
    Ok(found)
}
