//! Five lines of a front end.

/// An opening, three inserts, and an undo of them.
pub const FIVE_LINES: [&str; 5] = [
    "{\"id\":0,\"method\":\"new_view\"}\n",
    "{\"method\":\"edit\",\"params\":{\"method\":\"insert\",\"params\":{\"chars\":\"a\"},\"view_id\":\"view-id-1\"}}\n",
    "{\"method\":\"edit\",\"params\":{\"method\":\"insert\",\"params\":{\"chars\":\"é\"},\"view_id\":\"view-id-1\"}}\n",
    "{\"method\":\"edit\",\"params\":{\"method\":\"insert\",\"params\":{\"chars\":\"\\n\"},\"view_id\":\"view-id-1\"}}\n",
    "{\"id\":1,\"method\":\"edit\",\"params\":{\"method\":\"undo\",\"view_id\":\"view-id-1\"}}\n",
];

/// What each of them writes.
pub const FIVE_PIECES: [&str; 5] = [
    r#"{"id":0,"result":"view-id-1"}
{"method":"update","params":{"update":{"ops":[{"lines":[{"cursor":[0],"ln":1,"styles":[],"text":""}],"n":1,"op":"ins"}],"pristine":true},"view_id":"view-id-1"}}
"#,
    r#"{"method":"update","params":{"update":{"ops":[{"lines":[{"cursor":[1],"ln":1,"styles":[],"text":"a"}],"n":1,"op":"ins"}],"pristine":false},"view_id":"view-id-1"}}
{"method":"scroll_to","params":{"col":1,"line":0,"view_id":"view-id-1"}}
"#,
    r#"{"method":"update","params":{"update":{"ops":[{"lines":[{"cursor":[3],"ln":1,"styles":[],"text":"aé"}],"n":1,"op":"ins"}],"pristine":false},"view_id":"view-id-1"}}
{"method":"scroll_to","params":{"col":3,"line":0,"view_id":"view-id-1"}}
"#,
    r#"{"method":"update","params":{"update":{"ops":[{"lines":[{"cursor":[],"ln":1,"styles":[],"text":"aé\n"},{"cursor":[0],"ln":2,"styles":[],"text":""}],"n":2,"op":"ins"}],"pristine":false},"view_id":"view-id-1"}}
{"method":"scroll_to","params":{"col":0,"line":1,"view_id":"view-id-1"}}
"#,
    r#"{"id":1,"result":null}
{"method":"update","params":{"update":{"ops":[{"lines":[{"cursor":[0],"ln":1,"styles":[],"text":""}],"n":1,"op":"ins"}],"pristine":false},"view_id":"view-id-1"}}
{"method":"scroll_to","params":{"col":0,"line":0,"view_id":"view-id-1"}}
"#,
];
