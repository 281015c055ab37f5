//! Lines that several tables have, and what they come to.

/// Opens a view on an empty text.
pub const NEW_VIEW: &str = r#"{"id":0,"method":"new_view","params":{}}"#;

pub const NEW_BUFFER: &str =
    r#"{"method":"new_buffer","params":{"len":0,"rev":0,"view_id":"view-id-1"}}
"#;

pub const MOVE_LEFT: &str =
    r#"{"method":"edit","params":{"method":"move_left","view_id":"view-id-1"}}"#;

pub const NEWLINE: &str =
    r#"{"method":"edit","params":{"method":"insert_newline","view_id":"view-id-1"}}"#;

/// An edit of a plugin that changes nothing of an empty text, its answer, what is written of it, and what plugins are told.
pub const EMPTY_EDIT: &str =
    r#"{"id":1,"method":"edit","params":{"after_cursor":false,"author":"p","delta":{"base_len":0,"els":[]},"priority":1,"rev":0,"view_id":"view-id-1"}}"#;

pub const EDITED: &str = r#"{"id":1,"result":{"rev":1,"undo_group":1}}"#;

pub const SHOWN: &str =
    r#"{"method":"update","params":{"update":{"ops":[{"lines":[{"cursor":[0],"ln":1,"styles":[],"text":""}],"n":1,"op":"ins"}],"pristine":false},"view_id":"view-id-1"}}
"#;

pub const UPDATED: &str =
    r#"{"method":"update","params":{"author":1,"delta":{"base_len":0,"els":[]},"new_len":0,"rev":1,"view_id":"view-id-1"}}
"#;

/// How many lines the text has.
pub const LINE_COUNT: &str = r#"{"id":"x","method":"line_count","params":{"view_id":"view-id-1"}}"#;

pub const ONE_LINE: &str = r#"{"id":"x","result":1}"#;

/// The view is not there.
pub const NO_VIEW: &str =
    r#"{"error":{"code":-32602,"message":"invalid params: view_id"},"id":"x"}"#;

pub const SHUTDOWN: &str = r#"{"method":"shutdown","params":{}}
"#;
