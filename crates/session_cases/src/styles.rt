//! Styles of plugins: each has its number from its first use on, whichever plugin uses it.

use crate::lines::NEW_VIEW;
use crate::play::Outcome::{Answered, Refused, Taken, Tells};
use crate::play::Step::{First, Front, Look, Second};
use crate::play::{Row, first_other};

const TYPE_ABCD: &str =
    r#"{"method":"edit","params":{"method":"insert","params":{"chars":"abcd"},"view_id":"view-id-1"}}"#;

// Puts `X` before it.
const PUT_X: &str =
    r#"{"id":1,"method":"edit","params":{"after_cursor":false,"author":"p","delta":{"base_len":4,"els":[{"insert":"X"},{"copy":[0,4]}]},"priority":1,"rev":1,"view_id":"view-id-1"}}"#;

const XABCD: &str =
    r#"{"method":"update","params":{"update":{"ops":[{"lines":[{"cursor":[5],"ln":1,"styles":[],"text":"Xabcd"}],"n":1,"op":"ins"}],"pristine":false},"view_id":"view-id-1"}}
"#;

// `bc` of the text before `X` came.
const BOLD: &str =
    r#"{"id":2,"method":"update_spans","params":{"len":4,"rev":1,"spans":[{"end":3,"start":1,"style":{"weight":700}}],"start":0,"view_id":"view-id-1"}}"#;

const BOLD_SHOWN: &str = r#"{"method":"def_style","params":{"id":2,"weight":700}}
{"method":"update","params":{"update":{"ops":[{"lines":[{"cursor":[5],"ln":1,"styles":[2,2,2],"text":"Xabcd"}],"n":1,"op":"ins"}],"pristine":false},"view_id":"view-id-1"}}
"#;

// The first character in the same style, and none in another one.
const BOLD_AND_SLANTED: &str =
    r#"{"id":3,"method":"update_spans","params":{"len":5,"rev":2,"spans":[{"end":1,"start":0,"style":{"weight":700}},{"end":0,"start":0,"style":{"italic":true}}],"start":0,"view_id":"view-id-1"}}"#;

const BOTH_SHOWN: &str = r#"{"method":"def_style","params":{"id":3,"italic":true}}
{"method":"update","params":{"update":{"ops":[{"lines":[{"cursor":[5],"ln":1,"styles":[0,1,2,1,2,2],"text":"Xabcd"}],"n":1,"op":"ins"}],"pristine":false},"view_id":"view-id-1"}}
"#;

const FROM_6: &str =
    r#"{"id":4,"method":"update_spans","params":{"len":0,"rev":2,"spans":[],"start":6,"view_id":"view-id-1"}}"#;

const FROM_1_TO_10: &str =
    r#"{"id":5,"method":"update_spans","params":{"len":9,"rev":2,"spans":[],"start":1,"view_id":"view-id-1"}}"#;

const PAST_LEN: &str =
    r#"{"id":6,"method":"update_spans","params":{"len":1,"rev":2,"spans":[{"end":2,"start":0,"style":{}}],"start":0,"view_id":"view-id-1"}}"#;

const TOLD_X: &str =
    r#"{"method":"update","params":{"author":2,"delta":{"base_len":4,"els":[{"insert":"X"},{"copy":[0,4]}]},"new_len":5,"rev":2,"view_id":"view-id-1"}}
"#;

// Spans make no revision: plugins are not told of them.
const STYLES: [Row; 10] = [
    (Front(NEW_VIEW), Taken),
    (Front(TYPE_ABCD), Taken),
    (
        Second(PUT_X),
        Answered(r#"{"id":1,"result":{"rev":2,"undo_group":2}}"#, XABCD),
    ),
    (
        First(BOLD),
        Answered(r#"{"id":2,"result":null}"#, BOLD_SHOWN),
    ),
    (
        Second(BOLD_AND_SLANTED),
        Answered(r#"{"id":3,"result":null}"#, BOTH_SHOWN),
    ),
    (
        Second(FROM_6),
        Refused(r#"{"error":{"code":-32602,"message":"invalid params: start"},"id":4}"#),
    ),
    (
        Second(FROM_1_TO_10),
        Refused(r#"{"error":{"code":-32602,"message":"invalid params: len"},"id":5}"#),
    ),
    (
        Second(PAST_LEN),
        Refused(r#"{"error":{"code":-32602,"message":"invalid params: spans"},"id":6}"#),
    ),
    (Look(1, 2), Tells(5, TOLD_X)),
    (Look(1, 3), Tells(5, "")),
];

#[test]
fn a_style_has_its_number_from_its_first_use(rt: HostRuntime) {
    let other = first_other(rt.alloc(), 0, &STYLES);
    assert!(rt; other == None, "{other:?}");
}
