//! Laws of the definitions, each the contract of a function: they hold of all texts, histories and screens.

ghost use Rattle.plain_laws.specs.Laws.{GapsHavePlaces, HistoriesAreSound, EditsApply, RevisionsStay, UndoGoesBack, PlacesRise, WholeCopyStays, LinesAddUp, PlansShow, InputsAreLines};

/// A byte offset is a place of the text for one gap at most, and that gap is found.
pub fn gaps_have_places()
    ensures { GapsHavePlaces }
{}

/// A history never names a revision that it does not have.
pub fn histories_are_sound()
    ensures { HistoriesAreSound }
{}

/// An edit against the head does to the head text what it says.
pub fn edits_apply()
    ensures { EditsApply }
{}

/// What an old revision shows never changes by a later edit or undo.
pub fn revisions_stay()
    ensures { RevisionsStay }
{}

/// To undo a set and then the set before shows the former text.
pub fn undo_goes_back()
    ensures { UndoGoesBack }
{}

/// Two gaps never have one insertion place.
pub fn places_rise()
    ensures { PlacesRise }
{}

/// One copy of a whole screen, without a line number, leaves it.
pub fn whole_copy_stays()
    ensures { WholeCopyStays }
{}

/// Defined operations make as many lines as they copy, invalidate and insert.
pub fn lines_add_up()
    ensures { LinesAddUp }
{}

/// An update plan without partners shows the lines of the window, and the right number of lines.
pub fn plans_show()
    ensures { PlansShow }
{}

/// Nothing of an input is lost in its lines, and it does not matter in which pieces it comes.
pub fn inputs_are_lines()
    ensures { InputsAreLines }
{}
