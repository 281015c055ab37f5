//! Worked rows, each the contract of a function: what a session writes and what a run comes to in small cases, and what is none.

ghost use Rattle.session_laws.specs.Rows.{EndsStandOnce, FirstInsertion, FirstReadFails, FirstView, HalfLine, LateView, PluginAlert, StrangeNotes, ThirdWriteFails, ThreeInsertions};

/// The first view is answered, and has one empty line with the caret.
pub fn first_view()
    ensures { FirstView }
{}

/// An insertion into it tells its line, and where the caret is.
pub fn first_insertion()
    ensures { FirstInsertion }
{}

/// Each insertion tells its line and where the caret is.
pub fn three_insertions()
    ensures { ThreeInsertions }
{}

/// Notes that no core writes show no screen.
pub fn strange_notes()
    ensures { StrangeNotes }
{}

/// A run whose first read fails has the closing entry alone.
pub fn first_read_fails()
    ensures { FirstReadFails }
{}

/// Where the third of three entries was not sent, the sink holds what the first two write, and a part of the third piece.
pub fn third_write_fails()
    ensures { ThirdWriteFails }
{}

/// Half a line is none, whatever stops a run within it.
pub fn half_line()
    ensures { HalfLine }
{}

/// A plugin's alert is told the front end, and nothing else.
pub fn plugin_alert()
    ensures { PluginAlert }
{}

/// In a view that is opened after sessions of plugins ended, they have ended.
pub fn late_view()
    ensures { LateView }
{}

/// The plugins whose sessions have ended stand once each.
pub fn ends_stand_once()
    ensures { EndsStandOnce }
{}
