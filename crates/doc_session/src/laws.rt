//! Laws of the definitions, each the contract of a function: they hold of all documents.

ghost use Rattle.doc_session.specs.Laws.{CommandsFit, CommandsPut, LinesAreHad, ScreensShow, UpdatesShow};

/// An updated screen shows the layout: its length, and no line of it is another; the lines of the window are there.
pub fn screens_show()
    ensures { ScreensShow }
{}

/// An update makes the screen that the document says its front end has.
pub fn updates_show()
    ensures { UpdatesShow }
{}

/// Whether a view says that its front end has the lines that are asked for is whether its screen shows them.
pub fn lines_are_had()
    ensures { LinesAreHad }
{}

/// A command of the front end is refused only where its characters are spent.
pub fn commands_fit()
    ensures { CommandsFit }
{}

/// The delta of a command of the front end fits, and leads to the text after its replacements.
pub fn commands_put()
    ensures { CommandsPut }
{}
