//! A session of a user: an opening of a file, motions, typing, a save and the view's end.

/// Its lines. The file is `notes.txt`, and has `hello` and `world` on two lines, each with its LF.
pub const USUAL: &str = r#"{"method":"client_started","params":{}}
{"method":"set_theme","params":{"theme_name":"InspiredGitHub"}}
{"id":0,"method":"new_view","params":{"file_path":"notes.txt"}}
{"method":"edit","params":{"method":"scroll","params":[0,40],"view_id":"view-id-1"}}
{"method":"edit","params":{"method":"click","params":[1,5,0,1],"view_id":"view-id-1"}}
{"method":"edit","params":{"method":"insert","params":{"chars":"!"},"view_id":"view-id-1"}}
{"id":1,"method":"save","params":{"file_path":"notes.txt","view_id":"view-id-1"}}
{"method":"close_view","params":{"view_id":"view-id-1"}}
"#;

/// What they write.
pub const USUAL_WRITES: &str = r#"{"id":0,"result":"view-id-1"}
{"method":"update","params":{"update":{"ops":[{"lines":[{"cursor":[0],"ln":1,"styles":[],"text":"hello\n"},{"cursor":[],"ln":2,"styles":[],"text":"world\n"},{"cursor":[],"ln":3,"styles":[],"text":""}],"n":3,"op":"ins"}],"pristine":true},"view_id":"view-id-1"}}
{"method":"update","params":{"update":{"ops":[{"lines":[{"cursor":[],"ln":1,"styles":[],"text":"hello\n"},{"cursor":[5],"ln":2,"styles":[],"text":"world\n"},{"cursor":[],"ln":3,"styles":[],"text":""}],"n":3,"op":"ins"}],"pristine":true},"view_id":"view-id-1"}}
{"method":"scroll_to","params":{"col":5,"line":1,"view_id":"view-id-1"}}
{"method":"update","params":{"update":{"ops":[{"lines":[{"cursor":[],"ln":1,"styles":[],"text":"hello\n"},{"cursor":[6],"ln":2,"styles":[],"text":"world!\n"},{"cursor":[],"ln":3,"styles":[],"text":""}],"n":3,"op":"ins"}],"pristine":false},"view_id":"view-id-1"}}
{"method":"scroll_to","params":{"col":6,"line":1,"view_id":"view-id-1"}}
{"id":1,"result":null}
{"method":"update","params":{"update":{"ops":[{"lines":[{"cursor":[],"ln":1,"styles":[],"text":"hello\n"},{"cursor":[6],"ln":2,"styles":[],"text":"world!\n"},{"cursor":[],"ln":3,"styles":[],"text":""}],"n":3,"op":"ins"}],"pristine":true},"view_id":"view-id-1"}}
"#;
