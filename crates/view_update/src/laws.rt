//! Laws of the written notes on data alone, each the contract of a function: the layers above speak of bytes that definitions give.

ghost use Rattle.view_update.specs.Laws.{UpdatesReadBack, UpdatesAreRead, ScrollsReadBack, AlertsReadBack, StylesReadBack, OthersAreNoUpdates};

/// The line of an update says the same update of the same view to a front end.
pub fn updates_read_back()
    ensures { UpdatesReadBack }
{}

/// No note `update` is passed over.
pub fn updates_are_read()
    ensures { UpdatesAreRead }
{}

/// The line of a scroll says the same place.
pub fn scrolls_read_back()
    ensures { ScrollsReadBack }
{}

/// The line of an alert says the same message.
pub fn alerts_read_back()
    ensures { AlertsReadBack }
{}

/// The line of a style says the same style, with its number.
pub fn styles_read_back()
    ensures { StylesReadBack }
{}

/// Responses and notes of other methods say no update.
pub fn others_are_no_updates()
    ensures { OthersAreNoUpdates }
{}
