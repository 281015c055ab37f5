//! Which characters no kept revision can show again.

ghost use Rattle.std.specs.Prelude.{◌≡◌};
ghost use Rattle.std.specs.List.{list_any};
ghost use Rattle.plain_edits.specs.Collection.{is_collected, is_dropped, kept};
ghost use Rattle.plain_collection.specs.Inner.{is_lasting};

use plain_history::{PlainHistory, Tagged, group_of, has, is_undone};

/// Whether the revision is of a collected group.
fn is_collected(history: &PlainHistory, rev: u64) -> bool
    ensures { result ≡ is_collected history.now rev }
{
    has(history.collected(), group_of(history.revisions(), rev))
}

/// Whether the revision is of a collected group that is not undone at the head.
fn is_lasting(history: &PlainHistory, rev: u64) -> bool
    ensures { result ≡ is_lasting history.now rev }
{
    is_collected(history, rev) && !is_undone(history.revisions(), history.head(), rev)
}

/// Whether one of the deletions lasts.
fn is_deleted_for_good(history: &PlainHistory, deleted: &[u64]) -> bool
    ensures { result ≡ list_any (is_lasting history.now) deleted.now }
{
    deleted.iter().any(|rev| is_lasting(history, *rev))
}

/// Whether no kept revision can show the character again.
pub fn is_dropped(history: &PlainHistory, tagged: &Tagged) -> bool
    ensures { result ≡ is_dropped history.now tagged.now }
{
    let rev = tagged.inserted();
    is_collected(history, rev) && is_undone(history.revisions(), history.head(), rev)
        || is_deleted_for_good(history, tagged.deleted())
}

/// How many characters some kept revision can still show.
pub fn kept(history: &PlainHistory) -> u64
    ensures { result ≡ kept history.now }
{
    history
        .characters()
        .iter()
        .filter(|tagged| !is_dropped(history, tagged))
        .count() as u64
}
