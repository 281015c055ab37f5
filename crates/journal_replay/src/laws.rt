//! Laws of replays. Each function does nothing: its clause is the law.

ghost use Rattle.journal_replay.specs.Laws.{AnswersExactly, OwnJournalFollows, OwnJournalIsShown};

/// Where no write failed and memory did not want, each answer comes exactly where it is due.
pub fn answers_exactly()
    ensures { AnswersExactly }
{}

/// The journal of a run follows on the tape of the run.
pub fn own_journal_follows()
    ensures { OwnJournalFollows }
{
    plugin_side::laws::lines_are_asked_again();
}

/// Hence a replay of it shows it again, where no write failed and memory did not want.
pub fn own_journal_is_shown()
    ensures { OwnJournalIsShown }
{
    plugin_side::laws::lines_are_asked_again();
}
