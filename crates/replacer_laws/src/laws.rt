//! Laws of a replacer, on data alone. Each function does nothing: its clause is the law, and its proof proves it.

ghost use Rattle.replacer_laws.specs.Laws.{EachTextIsEdited, EditsAreTrue, EditsComeOnce, NoOtherTextIsEdited, TurnsFollow, WholeTextsAreSearched};

/// Over the lines of who tells each view's texts as they follow from each other, and between them the asks of its book, a replacer hears no
/// fault; and each edit fits the text of the revision that it names, and leads to that text with each spot replaced.
pub fn edits_are_true()
    ensures { EditsAreTrue }
{}

/// Whatever it is told, it edits no view twice.
pub fn edits_come_once()
    ensures { EditsComeOnce }
{}

/// Whatever it was told, each text that is whole was searched.
pub fn whole_texts_are_searched()
    ensures { WholeTextsAreSearched }
{}

/// Each text that is whole with a line, of a view that was not searched before, is edited there, if it has a spot.
pub fn each_text_is_edited()
    ensures { EachTextIsEdited }
{}

/// No other text is edited with a line: neither one that was whole before, nor one without a spot.
pub fn no_other_text_is_edited()
    ensures { NoOtherTextIsEdited }
{}

/// Turns, one after the other, come to what their events come to at once.
pub fn turns_follow()
    ensures { TurnsFollow }
{}
