//! What would be visible if exactly some groups were undone.

ghost use Rattle.std.specs.Prelude.{◌≡◌, ◌||◌, nat_lt, IfOk, map};
ghost use Rattle.std.specs.List.{filter, list_all};
ghost use Rattle.plain_text.specs.Numbers.{has};
ghost use Rattle.plain_edits.specs.History.{group_of, is_visible_under};

use plain_history::{PlainHistory, Tagged, group_of, has};
use plain_text::{NoMemory, Text};
use std::alloc::Global;

/// Whether the group of the revision is among these.
fn is_among(history: &PlainHistory, groups: &[u64], rev: u64) -> bool
    ensures { result ≡ has groups.now (group_of history.now.revisions rev) }
{
    has(groups, group_of(history.revisions(), rev))
}

/// Whether each of these deletions comes after the revision or is of one of the groups.
fn is_spared(history: &PlainHistory, groups: &[u64], at: u64, deleted: &[u64]) -> bool
    ensures { result ≡ list_all (λ rev. nat_lt at rev || has groups.now (group_of history.now.revisions rev)) deleted.now }
{
    deleted
        .iter()
        .all(|rev| at < *rev || is_among(history, groups, *rev))
}

/// Whether a character would be visible at a revision if exactly these groups were undone there.
pub fn is_visible_under(history: &PlainHistory, groups: &[u64], at: u64, tagged: &Tagged) -> bool
    ensures { result ≡ is_visible_under history.now.revisions groups.now at tagged.now }
{
    tagged.inserted() <= at
        && !is_among(history, groups, tagged.inserted())
        && is_spared(history, groups, at, tagged.deleted())
}

/// What a revision would show if exactly these groups were undone there.
pub fn text_under(
    alloc: Global,
    history: &PlainHistory,
    groups: &[u64],
    at: u64,
) -> Result<Text, NoMemory>
    ensures { IfOk result (λ text. text ≡ map (λ tagged. tagged.character)
        (filter (is_visible_under history.now.revisions groups.now at) history.now.characters)) }
{
    let mut text = Text::new(alloc);
    for tagged in history.characters() {
        if is_visible_under(history, groups, at, tagged) {
            text.push(tagged.character())?;
        }
    }
    Ok(text)
}
