//! Laws of the lines to plugins on data alone, each the contract of a function: the layers above speak of bytes that definitions give.

ghost use Rattle.plugin_wire.specs.Laws.{NoticesReadBack, AnswersAreNoNotices};

/// A plugin hears in the line of a notice what it is told, and no answer.
pub fn notices_read_back()
    ensures { NoticesReadBack }
{}

/// A plugin hears no notice in an answer.
pub fn answers_are_no_notices()
    ensures { AnswersAreNoNotices }
{}
