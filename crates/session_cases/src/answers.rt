//! Lines of plugins that change no text, and the shortest edit.

use crate::lines::{EDITED, EMPTY_EDIT, LINE_COUNT, NEW_VIEW, ONE_LINE, SHOWN, UPDATED};
use crate::play::Outcome::{Answered, Nothing, Taken, Tells};
use crate::play::Step::{First, Front, Look, Second};
use crate::play::{Row, first_other};

// A line without an id is answered nothing. All plugins are told of the edit alone.
const ANSWERS: [Row; 9] = [
    (Front(NEW_VIEW), Taken),
    (First(EMPTY_EDIT), Answered(EDITED, SHOWN)),
    (Second(LINE_COUNT), Answered(ONE_LINE, "")),
    (
        Second(r#"{"method":"line_count","params":{"view_id":"view-id-1"}}"#),
        Answered("", ""),
    ),
    (
        Second(
            r#"{"id":3,"method":"get_data","params":{"max_size":0,"rev":1,"start":0,"view_id":"view-id-1"}}"#,
        ),
        Answered(r#"{"id":3,"result":{"chunk":"","offset":0}}"#, ""),
    ),
    (
        First(r#"{"id":4,"method":"alert","params":{"msg":"hi"}}"#),
        Answered(
            r#"{"id":4,"result":null}"#,
            "{\"method\":\"alert\",\"params\":{\"msg\":\"hi\"}}\n",
        ),
    ),
    (Look(1, 1), Tells(6, UPDATED)),
    (Look(2, 2), Tells(6, "")),
    (Look(2, 6), Nothing(6)),
];

#[test]
fn lines_are_answered(rt: HostRuntime) {
    let other = first_other(rt.alloc(), 0, &ANSWERS);
    assert!(rt; other == None, "{other:?}");
}
