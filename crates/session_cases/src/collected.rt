//! Twenty-one new lines, each a group of its own, of which no undo reaches the oldest: what plugins are told once it is collected.

use crate::lines::{EMPTY_EDIT, LINE_COUNT, NEW_VIEW, NEWLINE, ONE_LINE};
use crate::play::Outcome::{Answered, Refused, Taken, Tells};
use crate::play::Step::{First, FirstEnds, Front, Look, Often, Second, SecondEnds};
use crate::play::{Row, first_other};

const COLLECTED: &str = r#"{"error":{"code":5,"message":"collected revision: 21"},"id":1}"#;

const ACK_20: &str = r#"{"id":1,"method":"ack","params":{"rev":20,"view_id":"view-id-1"}}"#;

const ACK_21: &str = r#"{"id":1,"method":"ack","params":{"rev":21,"view_id":"view-id-1"}}"#;

const READ_20: &str =
    r#"{"id":1,"method":"get_data","params":{"max_size":1,"rev":20,"start":0,"view_id":"view-id-1"}}"#;

const EDIT_22: &str =
    r#"{"id":1,"method":"edit","params":{"after_cursor":false,"author":"p","delta":{"base_len":0,"els":[]},"priority":1,"rev":22,"view_id":"view-id-1"}}"#;

// An edit that names the oldest group gets one of its own.
const JOIN_FIRST: &str =
    r#"{"id":1,"method":"edit","params":{"after_cursor":false,"author":"p","delta":{"base_len":21,"els":[{"copy":[0,21]}]},"priority":1,"rev":21,"undo_group":1,"view_id":"view-id-1"}}"#;

const TOLD_22: &str =
    r#"{"method":"update","params":{"author":1,"delta":{"base_len":21,"els":[{"copy":[0,21]}]},"new_len":21,"rev":22,"view_id":"view-id-1"}}
"#;

const LAGGING: [Row; 10] = [
    (Front(NEW_VIEW), Taken),
    (Often(21, NEWLINE), Taken),
    (SecondEnds, Answered("", "")),
    (First(ACK_21), Answered(r#"{"id":1,"result":null}"#, "")),
    (First(EMPTY_EDIT), Refused(COLLECTED)),
    (
        First(EDIT_22),
        Refused(r#"{"error":{"code":4,"message":"unknown revision: 21"},"id":1}"#),
    ),
    (First(READ_20), Refused(COLLECTED)),
    (First(ACK_20), Refused(COLLECTED)),
    (
        First(JOIN_FIRST),
        Answered(r#"{"id":1,"result":{"rev":22,"undo_group":22}}"#, ""),
    ),
    (Look(1, 24), Tells(25, TOLD_22)),
];

#[test]
fn what_is_acknowledged_is_collected(rt: HostRuntime) {
    let other = first_other(rt.alloc(), 0, &LAGGING);
    assert!(rt; other == None, "{other:?}");
}

// Both sessions ended before the view was opened: a line does not open one again.
const ENDED: [Row; 7] = [
    (FirstEnds, Answered("", "")),
    (SecondEnds, Answered("", "")),
    (Front(NEW_VIEW), Taken),
    (First(LINE_COUNT), Answered(ONE_LINE, "")),
    (Often(21, NEWLINE), Taken),
    (First(EMPTY_EDIT), Refused(COLLECTED)),
    (Second(READ_20), Refused(COLLECTED)),
];

#[test]
fn an_ended_session_holds_nothing_back(rt: HostRuntime) {
    let other = first_other(rt.alloc(), 0, &ENDED);
    assert!(rt; other == None, "{other:?}");
}
