//! Views that are closed, sessions of plugins that have ended, and the end of it all.

use crate::lines::{
    EDITED, EMPTY_EDIT, LINE_COUNT, NEW_BUFFER, NEW_VIEW, NO_VIEW, ONE_LINE, SHOWN, SHUTDOWN,
    UPDATED,
};
use crate::play::Outcome::{Answered, Closed, Nothing, Refused, Taken, Tells, TellsLast, Unsent};
use crate::play::Step::{Close, First, FirstEnds, Front, Look, Second, SecondEnds};
use crate::play::{Row, first_other};

const CLOSE_VIEW: &str = r#"{"method":"close_view","params":{"view_id":"view-id-1"}}"#;

const DID_CLOSE: &str = r#"{"method":"did_close","params":{"view_id":"view-id-1"}}
"#;

// Between two lines of a plugin its view is closed.
const VIEWS: [Row; 7] = [
    (Front(NEW_VIEW), Taken),
    (First(LINE_COUNT), Answered(ONE_LINE, "")),
    (Front(CLOSE_VIEW), Answered("", "")),
    (First(LINE_COUNT), Refused(NO_VIEW)),
    (
        Second(EMPTY_EDIT),
        Refused(r#"{"error":{"code":-32602,"message":"invalid params: view_id"},"id":1}"#),
    ),
    (Look(1, 2), Tells(3, DID_CLOSE)),
    (Look(2, 3), Nothing(3)),
];

#[test]
fn a_view_is_closed_under_a_plugin(rt: HostRuntime) {
    let other = first_other(rt.alloc(), 0, &VIEWS);
    assert!(rt; other == None, "{other:?}");
}

const NEW_BUFFER_2: &str =
    r#"{"method":"new_buffer","params":{"len":0,"rev":0,"view_id":"view-id-2"}}
"#;

const COUNT_2: &str = r#"{"id":"x","method":"line_count","params":{"view_id":"view-id-2"}}"#;

// A session that has ended takes lines as before, and ends again.
const ENDS: [Row; 9] = [
    (Front(NEW_VIEW), Taken),
    (FirstEnds, Answered("", "")),
    (First(EMPTY_EDIT), Answered(EDITED, SHOWN)),
    (Look(1, 1), Tells(3, UPDATED)),
    (FirstEnds, Answered("", "")),
    (Front(NEW_VIEW), Taken),
    (First(COUNT_2), Answered(ONE_LINE, "")),
    (First(LINE_COUNT), Answered(ONE_LINE, "")),
    (Look(2, 3), Tells(7, NEW_BUFFER_2)),
];

#[test]
fn lines_after_an_end_are_taken(rt: HostRuntime) {
    let other = first_other(rt.alloc(), 0, &ENDS);
    assert!(rt; other == None, "{other:?}");
}

// A closed session takes nothing, not even what can't be read.
const CLOSED: [Row; 9] = [
    (Front(NEW_VIEW), Taken),
    (Look(1, 0), Tells(1, NEW_BUFFER)),
    (Close, Taken),
    (First("{"), Closed),
    (Front(NEW_VIEW), Closed),
    (SecondEnds, Closed),
    (Close, Closed),
    (Look(1, 1), TellsLast(2, SHUTDOWN)),
    (Look(1, 2), Nothing(2)),
];

#[test]
fn nothing_is_taken_after_the_closing(rt: HostRuntime) {
    let other = first_other(rt.alloc(), 0, &CLOSED);
    assert!(rt; other == None, "{other:?}");
}

// The second write fails. The entry that was not sent is told of, and the last one but for the closing.
const UNSENT: [Row; 9] = [
    (Front(NEW_VIEW), Taken),
    (First(LINE_COUNT), Answered(ONE_LINE, "")),
    (First(EMPTY_EDIT), Unsent),
    (First(LINE_COUNT), Closed),
    (Front(NEW_VIEW), Closed),
    (FirstEnds, Closed),
    (Look(1, 1), Tells(3, UPDATED)),
    (Close, Taken),
    (Look(2, 3), TellsLast(4, SHUTDOWN)),
];

#[test]
fn an_entry_that_was_not_sent_is_the_last(rt: HostRuntime) {
    let other = first_other(rt.alloc(), 2, &UNSENT);
    assert!(rt; other == None, "{other:?}");
}
