//! Laws of undo, collection, change, carets and styles, each the contract of a function: they hold of all sound histories.

ghost use Rattle.plain_laws.specs.HistoryLaws.{RanksAreOrdered, EditsGoByBlocks, CanonicalDeltasAreOne, LastUndoCounts, UndoneEditsHide, CollectionsChangeNoText, StepsGiveNothingBack, HistoriesStayWellFormed, CollectionsMayCome, LaterRevisionsGiveNothing, DroppedIsHidden, DroppedStays, ChangesLead, CaretsFollowChanges, StylesFollowChanges, StylesStay, SpansReachTheirCharacters, RestIsTested, RestingGroupsQualify, CleanFloorsAreGreatest, FlippedIsExclusive};

/// Of two distinct ranks one is lower, and only one, and it passes on.
pub fn ranks_are_ordered()
    ensures { RanksAreOrdered }
{}

/// An edit goes block by block: an insertion goes into the block of its gap.
pub fn edits_go_by_blocks()
    ensures { EditsGoByBlocks }
{}

/// Two canonical deltas of one meaning are one.
pub fn canonical_deltas_are_one()
    ensures { CanonicalDeltasAreOne }
{}

/// Of two undos, one after the other, the last one alone counts.
pub fn last_undo_counts()
    ensures { LastUndoCounts }
{}

/// An edit in an undone group is hidden on arrival, and hides nothing.
pub fn undone_edits_hide()
    ensures { UndoneEditsHide }
{}

/// A collection changes no text of any revision.
pub fn collections_change_no_text()
    ensures { CollectionsChangeNoText }
{}

/// No step lowers the floor or gives a collected group back.
pub fn steps_give_nothing_back()
    ensures { StepsGiveNothingBack }
{}

/// A history is well formed when it is loaded, and stays so by every step that may come.
pub fn histories_stay_well_formed()
    ensures { HistoriesStayWellFormed }
{}

/// What is collected after an entry may be collected.
pub fn collections_may_come()
    ensures { CollectionsMayCome }
{}

/// Where nothing is collected, nothing is after more revisions, while no session acknowledges more and no group retires.
pub fn later_revisions_give_nothing()
    ensures { LaterRevisionsGiveNothing }
{}

/// No revision from the floor to the head shows a dropped character.
pub fn dropped_is_hidden()
    ensures { DroppedIsHidden }
{}

/// What is dropped stays dropped, by every step that may come.
pub fn dropped_stays()
    ensures { DroppedStays }
{}

/// A change leads from the one text to the other.
pub fn changes_lead()
    ensures { ChangesLead }
{}

/// Over a change a caret goes where the caret rule takes it: for edits, undos and collections.
pub fn carets_follow_changes()
    ensures { CaretsFollowChanges }
{}

/// Over a change a layer becomes what the style rule makes of it.
pub fn styles_follow_changes()
    ensures { StylesFollowChanges }
{}

/// A style never moves to another character, whatever steps come between.
pub fn styles_stay()
    ensures { StylesStay }
{}

/// Spans against a revision style the characters that they named, where the head shows them, and no others.
pub fn spans_reach_their_characters()
    ensures { SpansReachTheirCharacters }
{}

/// The test of rest and being at rest are the same.
pub fn rest_is_tested()
    ensures { RestIsTested }
{}

/// The clean floor up to a revision is clean, and the greatest one.
pub fn clean_floors_are_greatest()
    ensures { CleanFloorsAreGreatest }
{}

/// The resting groups are those that qualify and are not collected yet.
pub fn resting_groups_qualify()
    ensures { RestingGroupsQualify }
{}

/// Two sets give the numbers in exactly one of them.
pub fn flipped_is_exclusive()
    ensures { FlippedIsExclusive }
{}
