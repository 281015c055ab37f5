//! The laws of collection, each the contract of a function: they hold of all histories that may forget.

ghost use Rattle.collection_laws.specs.Laws.{LoadedMayForget, StepsKeepForgetting, DroppedIsOld, DroppedIsUnseen, DroppedStandsApart, RunsStay, CharactersStay, TextsStay, KeptAreLeft, NothingCollectedIsLeft, NothingDroppedIsLeft, HeadsStay, LeftIsWellFormed, EditsGoAlong, UndosGoAlong, CollectionsGoAlong, CollectionsStay, NothingIsLost, ChangesKeepTheSame, ChangesAddTheSame, ForgettingHoldsWhatIsLeft, ForgettingIsUnseen};

/// A history may forget when it is loaded, and after every step that may come.
pub fn histories_may_forget()
    ensures loaded { LoadedMayForget }
    ensures steps { StepsKeepForgetting }
{}

/// A dropped character was inserted by the floor, and no revision from there to the head shows it.
pub fn dropped_is_past()
    ensures old { DroppedIsOld }
    ensures unseen { DroppedIsUnseen }
{}

/// No dropped character stands directly right of one that came after the floor, so no run needs one.
pub fn dropped_stands_apart()
    ensures apart { DroppedStandsApart }
    ensures runs { RunsStay }
{}

/// What is left shows at each kept revision what the history shows.
pub fn texts_stay()
    ensures characters { CharactersStay }
    ensures texts { TextsStay }
{}

/// What is left has the kept characters, and all revisions.
pub fn sizes_stay()
    ensures kept { KeptAreLeft }
    ensures heads { HeadsStay }
{}

/// Of what is left nothing is collected, and no character is dropped.
pub fn nothing_forgotten_is_left()
    ensures collected { NothingCollectedIsLeft }
    ensures dropped { NothingDroppedIsLeft }
{}

/// What is left is a well formed history.
pub fn left_is_well_formed()
    ensures { LeftIsWellFormed }
{}

/// What is left after a step is that step of what was left.
pub fn steps_go_along()
    ensures edits { EditsGoAlong }
    ensures undoes { UndosGoAlong }
    ensures collects { CollectionsGoAlong }
{}

/// What is collected after an entry is the same, asked of what is left.
pub fn collections_stay()
    ensures { CollectionsStay }
{}

/// Of a history that never collected all is left.
pub fn nothing_is_lost()
    ensures { NothingIsLost }
{}

/// What changes between two kept revisions is the same in what is left.
pub fn changes_stay()
    ensures keeps { ChangesKeepTheSame }
    ensures adds { ChangesAddTheSame }
{}

/// One that forgets at each collection shows what one shows that forgot nothing.
pub fn forgetting_is_unseen()
    ensures holds { ForgettingHoldsWhatIsLeft }
    ensures texts { ForgettingIsUnseen }
{}
