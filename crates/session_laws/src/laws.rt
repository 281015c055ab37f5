//! Laws of the definitions, each the contract of a function: they hold of all journals and all bytes.

ghost use Rattle.session_laws.specs.Laws.{AllAreConfigured, AllHaveSessions, EditsAreTold, EndsAreEverywhere, NoTextIsTold, NothingWaits, OtherViewIsPassedOver, PluginsScrollNothing, RevisionsAreFew, ShelfFailureIsTold, StylesAreToldOnce, UnreadShowsNothing};

/// A document has at most as many revisions as its journal has entries.
pub fn revisions_are_few()
    ensures { RevisionsAreFew }
{}

/// All views are laid out and edited as their session is.
pub fn all_are_configured()
    ensures { AllAreConfigured }
{}

/// In the documents of a session no group waits to be collected, and none at all once no plugin's session is open.
pub fn nothing_waits()
    ensures { NothingWaits }
{}

/// A note `update` that can't be read shows no screen of any view.
pub fn unread_shows_nothing()
    ensures { UnreadShowsNothing }
{}

/// An update of another view leaves a screen as it was.
pub fn other_view_is_passed_over()
    ensures { OtherViewIsPassedOver }
{}

/// Code 1 answers an entry exactly where its note says that the shelf failed.
pub fn shelf_failure_is_told()
    ensures { ShelfFailureIsTold }
{}

/// Code 2 answers an entry exactly where its note holds bytes that are no text.
pub fn no_text_is_told()
    ensures { NoTextIsTold }
{}

/// Each document has a session of each plugin.
pub fn all_have_sessions()
    ensures { AllHaveSessions }
{}

/// A plugin's session is open in each view until its end.
pub fn ends_are_everywhere()
    ensures { EndsAreEverywhere }
{}

/// No entry of a plugin scrolls.
pub fn plugins_scroll_nothing()
    ensures { PluginsScrollNothing }
{}

/// Each style is told once, under its own number.
pub fn styles_are_told_once()
    ensures { StylesAreToldOnce }
{}

/// Each edit of a plugin is told once, and nothing else that plugins ask.
pub fn edits_are_told()
    ensures { EditsAreTold }
{}
