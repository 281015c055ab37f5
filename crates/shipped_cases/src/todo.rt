//! What the marker of `TODO` reads, and what it marks.

use crate::played::gives;
use shipped_plugins::TodoMarks;
use std::alloc::Global;

const OPENED: &str = r#"{"method":"new_buffer","params":{"len":0,"rev":0,"view_id":"view-id-1"}}"#;

const READ: &str =
    r#"{"id":0,"method":"get_data","params":{"max_size":1048576,"rev":0,"start":0,"view_id":"view-id-1"}}|"#;

const NO_SPANS: &str =
    r#"{"method":"update_spans","params":{"len":0,"rev":0,"spans":[],"start":0,"view_id":"view-id-1"}}|{"method":"ack","params":{"rev":0,"view_id":"view-id-1"}}|"#;

// What it gives for the answer to its first read.
fn marks(alloc: Global, answer: &str, expected: &str) -> bool {
    let mut plugin = TodoMarks::new(alloc);
    gives(alloc, &mut plugin, OPENED, READ) && gives(alloc, &mut plugin, answer, expected)
}

#[test]
fn each_revision_is_read_and_then_marked(rt: HostRuntime) {
    let alloc = rt.alloc();
    let mut plugin = TodoMarks::new(alloc);
    assert!(rt;
        gives(
            alloc,
            &mut plugin,
            r#"{"method":"initialize","params":{"plugin_id":1}}"#,
            ""
        )
    );
    assert!(rt; gives(alloc, &mut plugin, OPENED, READ));
    assert!(rt;
        gives(
            alloc,
            &mut plugin,
            r#"{"id":0,"result":{"chunk":"","offset":0}}|{"method":"update","params":{"author":0,"delta":{"base_len":0,"els":[{"insert":"a"}]},"new_len":1,"rev":1,"view_id":"view-id-1"}}"#,
            r#"{"method":"update_spans","params":{"len":0,"rev":0,"spans":[],"start":0,"view_id":"view-id-1"}}|{"method":"ack","params":{"rev":0,"view_id":"view-id-1"}}|{"id":1,"method":"get_data","params":{"max_size":1048576,"rev":1,"start":0,"view_id":"view-id-1"}}|"#
        )
    );
    assert!(rt;
        gives(
            alloc,
            &mut plugin,
            r#"{"method":"shutdown","params":{}}"#,
            ""
        )
    );
    assert!(rt; !plugin.is_short());
}

#[test]
fn marks_stand_where_the_word_does(rt: HostRuntime) {
    let alloc = rt.alloc();
    assert!(rt;
        marks(
            alloc,
            r#"{"id":0,"result":{"chunk":"TODO","offset":0}}"#,
            r#"{"method":"update_spans","params":{"len":4,"rev":0,"spans":[{"end":4,"start":0,"style":{"weight":700}}],"start":0,"view_id":"view-id-1"}}|{"method":"ack","params":{"rev":0,"view_id":"view-id-1"}}|"#
        )
    );
    assert!(rt;
        marks(
            alloc,
            r#"{"id":0,"result":{"chunk":"xTODOTODOy","offset":0}}"#,
            r#"{"method":"update_spans","params":{"len":10,"rev":0,"spans":[{"end":5,"start":1,"style":{"weight":700}},{"end":9,"start":5,"style":{"weight":700}}],"start":0,"view_id":"view-id-1"}}|{"method":"ack","params":{"rev":0,"view_id":"view-id-1"}}|"#
        )
    );
    assert!(rt;
        marks(
            alloc,
            r#"{"id":0,"result":{"chunk":"TODTODO","offset":0}}"#,
            r#"{"method":"update_spans","params":{"len":7,"rev":0,"spans":[{"end":7,"start":3,"style":{"weight":700}}],"start":0,"view_id":"view-id-1"}}|{"method":"ack","params":{"rev":0,"view_id":"view-id-1"}}|"#
        )
    );
    assert!(rt;
        marks(
            alloc,
            r#"{"id":0,"result":{"chunk":"é𝄞TODO","offset":0}}"#,
            r#"{"method":"update_spans","params":{"len":10,"rev":0,"spans":[{"end":10,"start":6,"style":{"weight":700}}],"start":0,"view_id":"view-id-1"}}|{"method":"ack","params":{"rev":0,"view_id":"view-id-1"}}|"#
        )
    );
}

#[test]
fn nothing_else_is_marked(rt: HostRuntime) {
    let alloc = rt.alloc();
    assert!(rt;
        marks(
            alloc,
            r#"{"id":0,"result":{"chunk":"","offset":0}}"#,
            NO_SPANS
        )
    );
    assert!(rt;
        marks(
            alloc,
            r#"{"id":0,"result":{"chunk":"TOD\nO","offset":0}}"#,
            r#"{"method":"update_spans","params":{"len":5,"rev":0,"spans":[],"start":0,"view_id":"view-id-1"}}|{"method":"ack","params":{"rev":0,"view_id":"view-id-1"}}|"#
        )
    );
    assert!(rt;
        marks(
            alloc,
            r#"{"id":0,"result":{"chunk":"todo","offset":0}}"#,
            r#"{"method":"update_spans","params":{"len":4,"rev":0,"spans":[],"start":0,"view_id":"view-id-1"}}|{"method":"ack","params":{"rev":0,"view_id":"view-id-1"}}|"#
        )
    );
}

#[test]
fn an_answer_is_used_once(rt: HostRuntime) {
    let alloc = rt.alloc();
    let chunk = r#"{"id":0,"result":{"chunk":"","offset":0}}"#;
    let twice =
        r#"{"id":0,"result":{"chunk":"","offset":0}}|{"id":0,"result":{"chunk":"","offset":0}}"#;
    let error = r#"{"error":{"code":5,"message":"collected revision: 1"},"id":0}"#;
    let refused =
        r#"{"error":{"code":5,"message":"collected revision: 1"},"id":0}|{"id":0,"result":{"chunk":"","offset":0}}"#;
    assert!(rt; marks(alloc, twice, NO_SPANS));
    assert!(rt; marks(alloc, error, ""));
    assert!(rt; marks(alloc, refused, ""));
    let mut plugin = TodoMarks::new(alloc);
    assert!(rt; gives(alloc, &mut plugin, chunk, ""));
    assert!(rt; gives(alloc, &mut plugin, OPENED, READ));
    assert!(rt;
        gives(
            alloc,
            &mut plugin,
            r#"{"id":1,"result":{"chunk":"","offset":0}}"#,
            ""
        )
    );
    assert!(rt;
        gives(
            alloc,
            &mut plugin,
            r#"{"id":"0","result":{"chunk":"","offset":0}}"#,
            ""
        )
    );
    assert!(rt;
        gives(
            alloc,
            &mut plugin,
            r#"{"id":-1,"result":{"chunk":"","offset":0}}"#,
            ""
        )
    );
    assert!(rt; gives(alloc, &mut plugin, chunk, NO_SPANS));
}

#[test]
fn what_is_no_line_of_a_session_is_passed_over(rt: HostRuntime) {
    let alloc = rt.alloc();
    assert!(rt; marks(alloc, "{nope|[]|{}", ""));
    assert!(rt; marks(alloc, r#"{"id":0,"result":null}"#, ""));
    let mut plugin = TodoMarks::new(alloc);
    assert!(rt; gives(alloc, &mut plugin, "", ""));
    assert!(rt;
        gives(
            alloc,
            &mut plugin,
            r#"{"method":"update","params":{"author":0,"delta":{"base_len":0,"els":[]},"new_len":0,"rev":9223372036854775808,"view_id":"v"}}|{"method":"did_close","params":{"view_id":"v"}}"#,
            ""
        )
    );
    assert!(rt; gives(alloc, &mut plugin, OPENED, READ));
}

#[test]
fn two_views_are_kept_apart(rt: HostRuntime) {
    let alloc = rt.alloc();
    let mut plugin = TodoMarks::new(alloc);
    assert!(rt;
        gives(
            alloc,
            &mut plugin,
            r#"{"method":"new_buffer","params":{"len":0,"rev":0,"view_id":"a"}}|{"method":"new_buffer","params":{"len":0,"rev":0,"view_id":"b"}}"#,
            r#"{"id":0,"method":"get_data","params":{"max_size":1048576,"rev":0,"start":0,"view_id":"a"}}|{"id":1,"method":"get_data","params":{"max_size":1048576,"rev":0,"start":0,"view_id":"b"}}|"#
        )
    );
    assert!(rt;
        gives(
            alloc,
            &mut plugin,
            r#"{"id":1,"result":{"chunk":"TODO","offset":0}}|{"id":0,"result":{"chunk":"","offset":0}}"#,
            r#"{"method":"update_spans","params":{"len":4,"rev":0,"spans":[{"end":4,"start":0,"style":{"weight":700}}],"start":0,"view_id":"b"}}|{"method":"ack","params":{"rev":0,"view_id":"b"}}|{"method":"update_spans","params":{"len":0,"rev":0,"spans":[],"start":0,"view_id":"a"}}|{"method":"ack","params":{"rev":0,"view_id":"a"}}|"#
        )
    );
    assert!(rt;
        gives(
            alloc,
            &mut plugin,
            r#"{"method":"update","params":{"author":0,"delta":{"base_len":0,"els":[]},"new_len":4,"rev":1,"view_id":"b"}}|{"method":"update","params":{"author":0,"delta":{"base_len":0,"els":[]},"new_len":4,"rev":1,"view_id":"a"}}|{"method":"update","params":{"author":0,"delta":{"base_len":0,"els":[]},"new_len":4,"rev":2,"view_id":"b"}}"#,
            r#"{"id":2,"method":"get_data","params":{"max_size":1048576,"rev":1,"start":0,"view_id":"b"}}|{"id":3,"method":"get_data","params":{"max_size":1048576,"rev":1,"start":0,"view_id":"a"}}|{"id":4,"method":"get_data","params":{"max_size":1048576,"rev":2,"start":0,"view_id":"b"}}|"#
        )
    );
    assert!(rt;
        gives(
            alloc,
            &mut plugin,
            r#"{"id":3,"result":{"chunk":"TODO","offset":0}}|{"id":4,"result":{"chunk":"todo","offset":0}}|{"id":2,"result":{"chunk":"","offset":0}}"#,
            r#"{"method":"update_spans","params":{"len":4,"rev":1,"spans":[{"end":4,"start":0,"style":{"weight":700}}],"start":0,"view_id":"a"}}|{"method":"ack","params":{"rev":1,"view_id":"a"}}|{"method":"update_spans","params":{"len":4,"rev":2,"spans":[],"start":0,"view_id":"b"}}|{"method":"ack","params":{"rev":2,"view_id":"b"}}|{"method":"update_spans","params":{"len":0,"rev":1,"spans":[],"start":0,"view_id":"b"}}|{"method":"ack","params":{"rev":1,"view_id":"b"}}|"#
        )
    );
}
