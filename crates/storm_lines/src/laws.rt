//! Laws of a storm on data alone, each the contract of a function.

ghost use Rattle.storm_lines.specs.Laws.{InputsComeApart, SummariesReadBack};

/// An input has as many lines as words were drawn and one more, and each is whole and short.
pub fn inputs_come_apart()
    ensures { InputsComeApart }
{}

/// Who reads the lines of a summary has its numbers.
pub fn summaries_read_back()
    ensures { SummariesReadBack }
{}
