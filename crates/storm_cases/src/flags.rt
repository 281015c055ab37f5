//! How many lines of a screen are valid that a front end has rebuilt.

use screen_flags::count_valid;
use std::alloc::Global;

fn counts(alloc: Global, told: &str, valid: u64) -> bool {
    match count_valid(alloc, told.as_bytes(), "view-id-1") {
        Ok(count) => count == valid,
        Err(_) => false,
    }
}

const OPENED: &str = r#"{"id":0,"result":"view-id-1"}
{"method":"update","params":{"update":{"ops":[{"lines":[{"cursor":[0],"ln":1,"styles":[],"text":""}],"n":1,"op":"ins"}],"pristine":true},"view_id":"view-id-1"}}
"#;

const PARTLY: &str =
    r#"{"method":"update","params":{"update":{"ops":[{"lines":[{"cursor":[0],"ln":1,"styles":[],"text":"a\n"},{"cursor":[],"ln":2,"styles":[],"text":"b\n"}],"n":2,"op":"ins"},{"n":3,"op":"invalidate"}],"pristine":true},"view_id":"view-id-1"}}
"#;

// Of five lines the first stays, the second goes, one that is not valid stays, and the last two are not there any more.
const EACH: &str =
    r#"{"method":"update","params":{"update":{"ops":[{"lines":[{"cursor":[0],"ln":1,"styles":[],"text":"a\n"},{"cursor":[],"ln":2,"styles":[],"text":"b\n"}],"n":2,"op":"ins"},{"n":3,"op":"invalidate"}],"pristine":true},"view_id":"view-id-1"}}
{"method":"update","params":{"update":{"ops":[{"ln":1,"n":1,"op":"copy"},{"n":1,"op":"skip"},{"lines":[{"cursor":[],"styles":[]}],"n":1,"op":"update"}],"pristine":false},"view_id":"view-id-1"}}
"#;

const OTHERS: &str =
    r#"{"method":"update","params":{"update":{"ops":[{"lines":[{"cursor":[0],"ln":1,"styles":[],"text":""}],"n":1,"op":"ins"}],"pristine":true},"view_id":"view-id-1"}}
{"method":"update","params":{"update":{"ops":[],"pristine":true},"view_id":"view-id-2"}}
{"method":"scroll_to","params":{"col":0,"line":0,"view_id":"view-id-1"}}
{nope
{"id":1,"method":"update","params":{"update":{"ops":[],"pristine":true},"view_id":"view-id-1"}}"#;

#[test]
fn a_screen_of_nothing_has_no_valid_line(rt: HostRuntime) {
    assert!(rt; counts(rt.alloc(), "", 0));
    assert!(rt; counts(rt.alloc(), "\n\n", 0));
}

#[test]
fn lines_that_are_sent_are_valid(rt: HostRuntime) {
    assert!(rt; counts(rt.alloc(), OPENED, 1));
    assert!(rt; counts(rt.alloc(), PARTLY, 2));
}

#[test]
fn old_lines_stay_as_valid_as_they_were(rt: HostRuntime) {
    assert!(rt; counts(rt.alloc(), EACH, 1));
}

#[test]
fn what_is_no_update_of_the_view_counts_nothing(rt: HostRuntime) {
    assert!(rt; counts(rt.alloc(), OTHERS, 1));
}
