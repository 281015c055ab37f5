//! What the storm's plugin counts, and what it edits.

use crate::played::gives;
use plain_text::{NoMemory, Text};
use plugin_session::Plugin;
use shipped_plugins::StormPlugin;
use std::alloc::Global;

// The notice of a revision, and the length that it has.
fn update(alloc: Global, rev: u64, len: u64) -> Result<Text, NoMemory> {
    Ok(Text::from_string(format!(in alloc;
        "{{\"method\":\"update\",\"params\":{{\"author\":0,\"delta\":{{\"base_len\":0,\"els\":[]}},\"new_len\":{len},\"rev\":{rev},\"view_id\":\"view-id-1\"}}}}"
    )?))
}

// Whether these revisions, each a byte longer than its number, give nothing.
fn pass<P: Plugin>(alloc: Global, plugin: &mut P, first: u64, last: u64) -> bool {
    for rev in first..last {
        if !at(alloc, plugin, rev, "") {
            return false;
        }
    }
    true
}

fn at<P: Plugin>(alloc: Global, plugin: &mut P, rev: u64, expected: &str) -> bool {
    match update(alloc, rev, rev.saturating_add(1)) {
        Ok(line) => gives(alloc, plugin, line.as_str(), expected),
        Err(_) => false,
    }
}

#[test]
fn each_eighth_change_is_answered_by_an_edit_of_the_first(rt: HostRuntime) {
    let alloc = rt.alloc();
    let mut plugin = StormPlugin::new(alloc);
    assert!(rt;
        gives(
            alloc,
            &mut plugin,
            r#"{"method":"new_buffer","params":{"len":0,"rev":0,"view_id":"view-id-1"}}"#,
            ""
        )
    );
    assert!(rt; pass(alloc, &mut plugin, 2, 9));
    assert!(rt;
        at(
            alloc,
            &mut plugin,
            9,
            r#"{"method":"edit","params":{"after_cursor":false,"author":"storm","delta":{"base_len":3,"els":[{"insert":"*"},{"copy":[0,3]}]},"priority":1,"rev":2,"view_id":"view-id-1"}}|{"method":"ack","params":{"rev":9,"view_id":"view-id-1"}}|"#
        )
    );
    assert!(rt; pass(alloc, &mut plugin, 10, 17));
    assert!(rt;
        at(
            alloc,
            &mut plugin,
            17,
            r#"{"method":"edit","params":{"after_cursor":false,"author":"storm","delta":{"base_len":11,"els":[{"insert":"*"},{"copy":[0,11]}]},"priority":1,"rev":10,"view_id":"view-id-1"}}|{"method":"ack","params":{"rev":17,"view_id":"view-id-1"}}|"#
        )
    );
    assert!(rt; !plugin.is_short());
}

#[test]
fn nothing_else_counts(rt: HostRuntime) {
    let alloc = rt.alloc();
    let mut plugin = StormPlugin::new(alloc);
    assert!(rt; pass(alloc, &mut plugin, 0, 7));
    assert!(rt;
        gives(
            alloc,
            &mut plugin,
            r#"{nope|{"id":0,"result":null}|{"method":"did_close","params":{"view_id":"view-id-1"}}"#,
            ""
        )
    );
    assert!(rt; at(alloc, &mut plugin, 9223372036854775808, ""));
    assert!(rt; at(alloc, &mut plugin, 9223372036854775807, ""));
    assert!(rt;
        at(
            alloc,
            &mut plugin,
            7,
            r#"{"method":"edit","params":{"after_cursor":false,"author":"storm","delta":{"base_len":1,"els":[{"insert":"*"},{"copy":[0,1]}]},"priority":1,"rev":0,"view_id":"view-id-1"}}|{"method":"ack","params":{"rev":7,"view_id":"view-id-1"}}|"#
        )
    );
}
