//! Laws of lines on data alone, each the contract of a function: the layers above speak of bytes that definitions give.

ghost use Rattle.json_rpc.specs.Laws.{LinesReadBack, LinesComeApart, EndsDoNotMatter, ReadingsAreProper, RequestsAreAsked, RepliesReadBack, ErrorsReadBack, NotesReadBack};

/// The line of a value is one line of text, and reads as the value.
pub fn lines_read_back()
    ensures { LinesReadBack }
{}

/// Lines that are written one after the other come apart again.
pub fn lines_come_apart()
    ensures { LinesComeApart }
{}

/// A line reads the same with its LF and without it.
pub fn ends_do_not_matter()
    ensures { EndsDoNotMatter }
{}

/// What a line reads as has whole numbers in range, texts of UTF-8 and rising names, nested at most 127 deep.
pub fn readings_are_proper()
    ensures { ReadingsAreProper }
{}

/// The request that a line is can be answered.
pub fn requests_are_asked()
    ensures { RequestsAreAsked }
{}

/// The line of a reply says whom it answers and with what result.
pub fn replies_read_back()
    ensures { RepliesReadBack }
{}

/// The line of an error says whom it answers, and the error.
pub fn errors_read_back()
    ensures { ErrorsReadBack }
{}

/// The line of a notification reads as the request that it is.
pub fn notes_read_back()
    ensures { NotesReadBack }
{}
