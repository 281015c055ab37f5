//! Edits of plugins beside those of the front end: none of them moves a caret to another character, or scrolls.

use crate::lines::{MOVE_LEFT, NEW_VIEW};
use crate::play::Outcome::{Answered, Taken, Tells};
use crate::play::Step::{First, Front, Look, Second};
use crate::play::{Row, first_other};

const TYPE_AC: &str =
    r#"{"method":"edit","params":{"method":"insert","params":{"chars":"ac"},"view_id":"view-id-1"}}"#;

const TYPE_X: &str =
    r#"{"method":"edit","params":{"method":"insert","params":{"chars":"X"},"view_id":"view-id-1"}}"#;

// Puts `Y` at the end of `ac`.
const PUT_Y: &str =
    r#"{"id":1,"method":"edit","params":{"after_cursor":false,"author":"p","delta":{"base_len":2,"els":[{"copy":[0,2]},{"insert":"Y"}]},"priority":1,"rev":1,"view_id":"view-id-1"}}"#;

const AXCY: &str =
    r#"{"method":"update","params":{"update":{"ops":[{"lines":[{"cursor":[2],"ln":1,"styles":[],"text":"aXcY"}],"n":1,"op":"ins"}],"pristine":false},"view_id":"view-id-1"}}
"#;

const TOLD_Y: &str =
    r#"{"method":"update","params":{"author":1,"delta":{"base_len":3,"els":[{"copy":[0,3]},{"insert":"Y"}]},"new_len":4,"rev":3,"view_id":"view-id-1"}}
"#;

const STALE: [Row; 6] = [
    (Front(NEW_VIEW), Taken),
    (Front(TYPE_AC), Taken),
    (Front(MOVE_LEFT), Taken),
    (Front(TYPE_X), Taken),
    (
        First(PUT_Y),
        Answered(r#"{"id":1,"result":{"rev":3,"undo_group":3}}"#, AXCY),
    ),
    (Look(2, 4), Tells(5, TOLD_Y)),
];

#[test]
fn a_stale_edit_keeps_what_came_since(rt: HostRuntime) {
    let other = first_other(rt.alloc(), 0, &STALE);
    assert!(rt; other == None, "{other:?}");
}

const TYPE_A: &str =
    r#"{"method":"edit","params":{"method":"insert","params":{"chars":"a"},"view_id":"view-id-1"}}"#;

const UNDO: &str = r#"{"method":"edit","params":{"method":"undo","view_id":"view-id-1"}}"#;

const REDO: &str = r#"{"method":"edit","params":{"method":"redo","view_id":"view-id-1"}}"#;

// Inserts `Z` into the group of `a`, which was taken back.
const JOIN_Z: &str =
    r#"{"id":1,"method":"edit","params":{"after_cursor":false,"author":"p","delta":{"base_len":0,"els":[{"insert":"Z"}]},"priority":1,"rev":2,"undo_group":1,"view_id":"view-id-1"}}"#;

const HIDDEN: &str =
    r#"{"method":"update","params":{"author":1,"delta":{"base_len":0,"els":[]},"new_len":0,"rev":3,"view_id":"view-id-1"}}
"#;

const AZ: &str =
    r#"{"method":"update","params":{"update":{"ops":[{"lines":[{"cursor":[2],"ln":1,"styles":[],"text":"aZ"}],"n":1,"op":"ins"}],"pristine":false},"view_id":"view-id-1"}}
{"method":"scroll_to","params":{"col":2,"line":0,"view_id":"view-id-1"}}
"#;

const TOLD_AZ: &str =
    r#"{"method":"update","params":{"author":0,"delta":{"base_len":0,"els":[{"insert":"aZ"}]},"new_len":2,"rev":4,"view_id":"view-id-1"}}
"#;

// What joins a group that was taken back is hidden, and comes back with it.
const JOINED: [Row; 7] = [
    (Front(NEW_VIEW), Taken),
    (Front(TYPE_A), Taken),
    (Front(UNDO), Taken),
    (
        First(JOIN_Z),
        Answered(r#"{"id":1,"result":{"rev":3,"undo_group":1}}"#, ""),
    ),
    (Look(1, 3), Tells(4, HIDDEN)),
    (Front(REDO), Answered("", AZ)),
    (Look(1, 4), Tells(5, TOLD_AZ)),
];

#[test]
fn an_edit_joins_a_group(rt: HostRuntime) {
    let other = first_other(rt.alloc(), 0, &JOINED);
    assert!(rt; other == None, "{other:?}");
}

const TYPE_AB: &str =
    r#"{"method":"edit","params":{"method":"insert","params":{"chars":"ab"},"view_id":"view-id-1"}}"#;

// Inserts `Z` at the caret, which goes behind it.
const PUT_Z: &str =
    r#"{"id":1,"method":"edit","params":{"after_cursor":false,"author":"p","delta":{"base_len":2,"els":[{"copy":[0,1]},{"insert":"Z"},{"copy":[1,2]}]},"priority":1,"rev":1,"view_id":"view-id-1"}}"#;

const AZB: &str =
    r#"{"method":"update","params":{"update":{"ops":[{"lines":[{"cursor":[2],"ln":1,"styles":[],"text":"aZb"}],"n":1,"op":"ins"}],"pristine":false},"view_id":"view-id-1"}}
"#;

// Inserts `W` after the caret, which stays.
const PUT_W: &str =
    r#"{"id":1,"method":"edit","params":{"after_cursor":true,"author":"p","delta":{"base_len":3,"els":[{"copy":[0,2]},{"insert":"W"},{"copy":[2,3]}]},"priority":1,"rev":2,"view_id":"view-id-1"}}"#;

const AZWB: &str =
    r#"{"method":"update","params":{"update":{"ops":[{"lines":[{"cursor":[2],"ln":1,"styles":[],"text":"aZWb"}],"n":1,"op":"ins"}],"pristine":false},"view_id":"view-id-1"}}
"#;

const TOLD_BOTH: &str =
    r#"{"method":"update","params":{"author":1,"delta":{"base_len":2,"els":[{"copy":[0,1]},{"insert":"Z"},{"copy":[1,2]}]},"new_len":3,"rev":2,"view_id":"view-id-1"}}
{"method":"update","params":{"author":2,"delta":{"base_len":3,"els":[{"copy":[0,2]},{"insert":"W"},{"copy":[2,3]}]},"new_len":4,"rev":3,"view_id":"view-id-1"}}
"#;

const CARETS: [Row; 6] = [
    (Front(NEW_VIEW), Taken),
    (Front(TYPE_AB), Taken),
    (Front(MOVE_LEFT), Taken),
    (
        First(PUT_Z),
        Answered(r#"{"id":1,"result":{"rev":2,"undo_group":2}}"#, AZB),
    ),
    (
        Second(PUT_W),
        Answered(r#"{"id":1,"result":{"rev":3,"undo_group":3}}"#, AZWB),
    ),
    (Look(1, 3), Tells(5, TOLD_BOTH)),
];

#[test]
fn a_caret_stands_beside_an_insertion(rt: HostRuntime) {
    let other = first_other(rt.alloc(), 0, &CARETS);
    assert!(rt; other == None, "{other:?}");
}
