//! Laws of the plugins that ship, on data alone. Each is the contract of a function that does nothing.

ghost use Rattle.shipped_plugins.specs.Laws.{AcksAreTold, AcksFollowSpans, EditsFit, IdsComeOnce, SpansStandInTexts};

/// The spans of a chunk are where `TODO` stands in it, and their ends are places of each text that begins with the chunk.
pub fn spans_stand_in_texts()
    ensures { SpansStandInTexts }
{}

/// Each read has an id of its own, and nothing else has one.
pub fn ids_come_once()
    ensures { IdsComeOnce }
{}

/// No revision is acknowledged more often than it was told.
pub fn acks_are_told()
    ensures { AcksAreTold }
{}

/// Each acknowledgement stands right behind the spans of its revision.
pub fn acks_follow_spans()
    ensures { AcksFollowSpans }
{}

/// Each edit of the storm's plugin fits the text of the revision that it names, where the notices said the lengths of the texts.
pub fn edits_fit()
    ensures { EditsFit }
{}
