//! Worked rows of undo, collection, change and styles, each the contract of a function.

ghost use Rattle.plain_laws.specs.HistoryRows.{HiddenOnArrival, CollectionAfterGroups, DroppedCharacters, CleanFloors, RanksAtOneGap, MergedEdits, EditRefusals, StalePluginInsertion, CaretBesideInsertion, EditsSince, StaleSpans, SelectiveUndo, FlippedSets};

/// An edit in an undone group is hidden on arrival and hides nothing.
pub fn hidden_on_arrival()
    ensures { HiddenOnArrival }
{}

/// A retired group is collected once the sessions have acknowledged its edits, and what lies before is then refused.
pub fn collection_after_groups()
    ensures { CollectionAfterGroups }
{}

/// A collected group drops what no revision can show again.
pub fn dropped_characters()
    ensures { DroppedCharacters }
{}

/// An edit against an old base keeps the floors after that base from being clean.
pub fn clean_floors()
    ensures { CleanFloors }
{}

/// Of equal priorities the higher author stands right, whichever comes first.
pub fn ranks_at_one_gap()
    ensures { RanksAtOneGap }
{}

/// Edits of one text come to one text, in whatever order they are named.
pub fn merged_edits()
    ensures { MergedEdits }
{}

/// Each refusal of an edit, in their order.
pub fn edit_refusals()
    ensures { EditRefusals }
{}

/// A plugin's insertion against an old revision leaves the caret behind what the front end typed since.
pub fn stale_plugin_insertion()
    ensures { StalePluginInsertion }
{}

/// A caret goes right of an insertion at its gap, or stays left of it.
pub fn caret_beside_an_insertion()
    ensures { CaretBesideInsertion }
{}

/// What came since a revision is an edit of its text, whatever was collected.
pub fn edits_since()
    ensures { EditsSince }
{}

/// Spans against an old revision style the characters that they named.
pub fn stale_spans()
    ensures { StaleSpans }
{}

/// An undo of one group more hides what it inserted, and shows what it deleted.
pub fn selective_undo()
    ensures { SelectiveUndo }
{}

/// Two sets give the numbers in exactly one of them.
pub fn flipped_sets()
    ensures { FlippedSets }
{}
