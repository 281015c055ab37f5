//! Lines of plugins that are refused, after `new_view`: none is an entry, and none writes anything.

use crate::lines::{NEW_BUFFER, NEW_VIEW};
use crate::play::Outcome::{Refused, Taken, Tells};
use crate::play::Step::{First, Front, Look, Second};
use crate::play::{Row, first_other};

// What no line of a plugin may be. The range of the spans is looked at before their revision.
const SHAPES: [Row; 10] = [
    (Front(NEW_VIEW), Taken),
    (
        First("{"),
        Refused(r#"{"error":{"code":-32700,"message":"parse error"},"id":null}"#),
    ),
    (
        First("[]"),
        Refused(r#"{"error":{"code":-32600,"message":"invalid request"},"id":null}"#),
    ),
    (
        First(r#"{"id":1,"method":"insert","params":{"view_id":"view-id-1"}}"#),
        Refused(r#"{"error":{"code":-32601,"message":"method not found: insert"},"id":1}"#),
    ),
    (
        First(r#"{"id":1,"method":"edit","params":{}}"#),
        Refused(r#"{"error":{"code":-32602,"message":"invalid params: view_id"},"id":1}"#),
    ),
    (
        First(
            r#"{"id":1,"method":"edit","params":{"after_cursor":false,"author":"p","delta":{"base_len":0,"els":[]},"priority":1,"rev":-1,"view_id":"view-id-1"}}"#,
        ),
        Refused(r#"{"error":{"code":-32602,"message":"invalid params: rev"},"id":1}"#),
    ),
    (
        Second(
            r#"{"id":1,"method":"edit","params":{"after_cursor":false,"author":"p","delta":{"base_len":0,"els":[]},"priority":4294967296,"rev":0,"view_id":"view-id-1"}}"#,
        ),
        Refused(r#"{"error":{"code":-32602,"message":"invalid params: priority"},"id":1}"#),
    ),
    (
        Second(
            r#"{"id":1,"method":"edit","params":{"after_cursor":false,"author":"p","delta":{"base_len":0,"els":[]},"priority":1.5,"rev":0,"view_id":"view-id-1"}}"#,
        ),
        Refused(r#"{"error":{"code":-32602,"message":"invalid params: priority"},"id":1}"#),
    ),
    (
        First(
            r#"{"id":1,"method":"update_spans","params":{"len":1,"rev":9,"spans":[{"end":2,"start":0,"style":{}}],"start":0,"view_id":"view-id-1"}}"#,
        ),
        Refused(r#"{"error":{"code":-32602,"message":"invalid params: spans"},"id":1}"#),
    ),
    (Look(2, 0), Tells(1, NEW_BUFFER)),
];

// What does not go with the views and the texts as they are.
const TEXTS: [Row; 8] = [
    (Front(NEW_VIEW), Taken),
    (
        First(
            r#"{"id":1,"method":"edit","params":{"after_cursor":false,"author":"p","delta":{"base_len":0,"els":[]},"priority":1,"rev":0,"view_id":"view-id-2"}}"#,
        ),
        Refused(r#"{"error":{"code":-32602,"message":"invalid params: view_id"},"id":1}"#),
    ),
    (
        First(r#"{"method":"line_count","params":{"view_id":"view-id-9"}}"#),
        Refused(r#"{"error":{"code":-32602,"message":"invalid params: view_id"},"id":null}"#),
    ),
    (
        First(
            r#"{"id":1,"method":"edit","params":{"after_cursor":false,"author":"p","delta":{"base_len":0,"els":[]},"priority":1,"rev":7,"view_id":"view-id-1"}}"#,
        ),
        Refused(r#"{"error":{"code":4,"message":"unknown revision: 0"},"id":1}"#),
    ),
    (
        First(
            r#"{"id":1,"method":"edit","params":{"after_cursor":false,"author":"p","delta":{"base_len":0,"els":[{"copy":[0,1]}]},"priority":1,"rev":0,"view_id":"view-id-1"}}"#,
        ),
        Refused(r#"{"error":{"code":6,"message":"misfit 3 at 1"},"id":1}"#),
    ),
    (
        Second(
            r#"{"id":1,"method":"edit","params":{"after_cursor":false,"author":"p","delta":{"base_len":0,"els":[{"insert":"01234567890123456789012345678901234567890"}]},"priority":1,"rev":0,"view_id":"view-id-1"}}"#,
        ),
        Refused(r#"{"error":{"code":3,"message":"spent"},"id":1}"#),
    ),
    (
        First(
            r#"{"id":1,"method":"get_data","params":{"max_size":9,"rev":0,"start":1,"view_id":"view-id-1"}}"#,
        ),
        Refused(r#"{"error":{"code":-32602,"message":"invalid params: start"},"id":1}"#),
    ),
    (Look(2, 0), Tells(1, NEW_BUFFER)),
];

#[test]
fn lines_of_other_shapes_are_refused(rt: HostRuntime) {
    let other = first_other(rt.alloc(), 0, &SHAPES);
    assert!(rt; other == None, "{other:?}");
}

#[test]
fn what_does_not_fit_a_text_is_refused(rt: HostRuntime) {
    let other = first_other(rt.alloc(), 0, &TEXTS);
    assert!(rt; other == None, "{other:?}");
}
