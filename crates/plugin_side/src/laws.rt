//! Laws of a plugin's side on data alone, each the contract of a function: the layers above speak of lines that definitions give.

ghost use Rattle.plugin_side.specs.Laws.{CommandsReadBack, LinesAreAskedAgain, NoticesAreHeard, AnswersAreHeard, LinesComeApart, ResultsComeApart};

/// The line of a command asks the command.
pub fn commands_read_back()
    ensures { CommandsReadBack }
{}

/// What a line asks is refused, or asked again by the line that is written of it.
pub fn lines_are_asked_again()
    ensures { LinesAreAskedAgain }
{
    json_rpc::laws::requests_are_asked();
}

/// The line of a notice is heard as what it tells.
pub fn notices_are_heard()
    ensures { NoticesAreHeard }
{}

/// The line of an answer is heard as what it gives, and whom it answers.
pub fn answers_are_heard()
    ensures { AnswersAreHeard }
{}

/// No line is heard as a notice and as an answer, and one that is neither is heard as nothing.
pub fn lines_come_apart()
    ensures { LinesComeApart }
{}

/// Each result of the protocol is heard as its own kind.
pub fn results_come_apart()
    ensures { ResultsComeApart }
{}
