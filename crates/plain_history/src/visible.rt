//! Which groups are undone at a revision, and which characters it shows.

ghost use Rattle.std.specs.Prelude.{◌≡◌, ℕ, ◌||◌, take, nat_lt, [], map, IfOk};
ghost use Rattle.std.specs.List.{filter, list_all, count_by};
ghost use Rattle.std.specs.Option.{option_copied};
ghost use Rattle.plain_text.specs.Numbers.{has};
ghost use Rattle.plain_edits.specs.History.{revision_at, group_of, rank_of, undone, is_undone, is_visible, undone_after};

use crate::revision::{LOWEST, Revision};
use crate::tagged::Tagged;
use plain_edits::Rank;
use plain_text::{NoMemory, Text};
use std::alloc::Global;

/// Whether the number is in the list.
pub fn has(numbers: &[u64], n: u64) -> bool
    ensures { result ≡ has numbers.now n }
{
    numbers.iter().any(|m| *m == n)
}

/// The first revisions, up to and with this number.
fn first_of(revisions: &[Revision], rev: u64) -> &[Revision]
    ensures { result.now ≡ take rev revisions.now }
{
    if rev < revisions.len() as u64 {
        &revisions[..rev as usize]
    } else {
        revisions
    }
}

/// The groups that are undone after these revisions.
fn undone_after(revisions: &[Revision]) -> &[u64]
    ensures { result.now ≡ undone_after [] revisions.now }
{
    let mut groups: &[u64] = &[];
    for revision in revisions {
        if let Some(said) = revision.undone() {
            groups = said.as_slice();
        }
    }
    groups
}

/// The groups that are undone at a revision.
pub fn undone(revisions: &[Revision], rev: u64) -> &[u64]
    ensures { result.now ≡ undone revisions.now rev }
{
    undone_after(first_of(revisions, rev))
}

/// The revision with this number, where it is not the loaded text.
pub fn revision_at(revisions: &[Revision], rev: u64) -> Option<&Revision>
    ensures { option_copied result ≡ revision_at revisions.now rev }
{
    if rev == 0 {
        None
    } else {
        revisions.get((rev - 1) as usize)
    }
}

/// The group of a revision; the loaded text and an undo have group 0.
pub fn group_of(revisions: &[Revision], rev: u64) -> u64
    ensures { result ≡ group_of revisions.now rev }
{
    match revision_at(revisions, rev) {
        Some(revision) => revision.group(),
        None => 0,
    }
}

/// What orders the insertions of a revision; the loaded text and an undo have the lowest rank.
pub fn rank_of(revisions: &[Revision], rev: u64) -> Rank
    ensures { result ≡ rank_of revisions.now rev }
{
    match revision_at(revisions, rev) {
        Some(revision) => revision.rank(),
        None => LOWEST,
    }
}

/// Whether the group of a revision is undone at the revision `at`.
pub fn is_undone(revisions: &[Revision], at: u64, rev: u64) -> bool
    ensures { result ≡ is_undone revisions.now at rev }
{
    has(undone(revisions, at), group_of(revisions, rev))
}

/// Whether each of these deletions is undone at the revision or comes after it.
fn is_spared(revisions: &[Revision], at: u64, deleted: &[u64]) -> bool
    ensures { result ≡ list_all (λ rev. nat_lt at rev || is_undone revisions.now at rev) deleted.now }
{
    deleted
        .iter()
        .all(|rev| at < *rev || is_undone(revisions, at, *rev))
}

/// Whether a character is visible at a revision.
pub fn is_visible(revisions: &[Revision], at: u64, tagged: &Tagged) -> bool
    ensures { result ≡ is_visible revisions.now at tagged.now }
{
    tagged.inserted() <= at
        && !is_undone(revisions, at, tagged.inserted())
        && is_spared(revisions, at, tagged.deleted())
}

/// How many of the characters are visible at a revision.
pub fn count_visible(revisions: &[Revision], at: u64, characters: &[Tagged]) -> u64
    ensures { result ≡ count_by (is_visible revisions.now at) characters.now }
{
    characters
        .iter()
        .filter(|tagged| is_visible(revisions, at, tagged))
        .count() as u64
}

/// The text of the characters that are visible at a revision.
pub fn text_of(
    alloc: Global,
    revisions: &[Revision],
    at: u64,
    characters: &[Tagged],
) -> Result<Text, NoMemory>
    ensures { IfOk result (λ text. text ≡ map (λ tagged. tagged.character) (filter (is_visible revisions.now at) characters.now)) }
{
    let mut text = Text::new(alloc);
    for tagged in characters {
        if is_visible(revisions, at, tagged) {
            text.push(tagged.character())?;
        }
    }
    Ok(text)
}
