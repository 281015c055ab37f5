//! Journals of runs: files, refusals and a plugin.

use crate::played::{File, Ran, run_over, writes_the_same};
use plain_text::NoMemory;
use shipped_plugins::TodoMarks;
use std::alloc::Global;
use std::test::Fail;
use xi_top::Plugin;

// A run without plugins.
pub(crate) fn alone(
    alloc: Global,
    lines: &str,
    files: &[File],
    refused: &[u64],
) -> Result<Option<Ran>, NoMemory> {
    let plugins: Vec<Box<dyn Plugin + Send>> = Vec::new(alloc);
    run_over(alloc, lines, files, refused, plugins)
}

// Whether a run is played again as it was.
fn is_same(alloc: Global, lines: &str, files: &[File], refused: &[u64]) -> Result<bool, NoMemory> {
    match alone(alloc, lines, files, refused)? {
        None => Ok(false),
        Some(ran) => writes_the_same(alloc, &ran, 0),
    }
}

// A file that is no text, and one that is not there.
const NO_TEXT: &str = r#"{"id":0,"method":"new_view","params":{"file_path":"ff"}}
{"id":1,"method":"new_view","params":{"file_path":"missing"}}
"#;

// A file is opened twice, edited, saved elsewhere, saved under its own name, and opened again. A view that is not there is saved too.
const FILES: &str = r#"{"id":0,"method":"new_view","params":{"file_path":"a"}}
{"id":1,"method":"new_view","params":{"file_path":"a"}}
{"method":"edit","params":{"method":"insert","params":{"chars":"x"},"view_id":"view-id-1"}}
{"id":2,"method":"save","params":{"file_path":"b","view_id":"view-id-1"}}
{"id":3,"method":"save","params":{"file_path":"a","view_id":"view-id-1"}}
{"id":4,"method":"save","params":{"file_path":"a","view_id":"view-id-9"}}
{"id":5,"method":"new_view","params":{"file_path":"a"}}
{"id":6,"method":"new_view","params":{"file_path":"b"}}
"#;

// Lines that say nothing, or nothing that there is.
const STRANGE: &str =
    "nothing\n{\"id\":7}\n{\"id\":1,\"method\":\"fly\"}\n{\"id\":2,\"method\":\"close_view\",\"params\":{}}\n\u{e9}\n{\"id\":3,\"method\":\"client_started\"}";

#[test]
fn runs_with_files_are_played_again(rt: HostRuntime) -> Result<(), Fail> {
    let alloc = rt.alloc();
    assert!(rt;
        is_same(alloc, NO_TEXT, &[("ff", &[255])], &[])?,
        "a file that is no text"
    );
    for refused in 0..8 {
        assert!(rt;
            is_same(alloc, FILES, &[("a", "one\ntwo".as_bytes())], &[refused])?,
            "call {refused} of the shelf fails"
        );
    }
    Ok(())
}

#[test]
fn strange_lines_are_played_again(rt: HostRuntime) -> Result<(), Fail> {
    let alloc = rt.alloc();
    assert!(rt; is_same(alloc, STRANGE, &[], &[])?, "strange lines");
    assert!(rt; is_same(alloc, "", &[], &[])?, "no line");
    Ok(())
}

// A view with the word in it.
const TODO: &str = r#"{"id":0,"method":"new_view"}
{"method":"edit","params":{"method":"insert","params":{"chars":"a TODO"},"view_id":"view-id-1"}}
{"method":"edit","params":{"method":"insert","params":{"chars":"\nTODO b"},"view_id":"view-id-1"}}
{"method":"edit","params":{"method":"undo","view_id":"view-id-1"}}
"#;

#[test]
fn a_plugins_journal_is_played_again(rt: HostRuntime) -> Result<(), Fail> {
    let alloc = rt.alloc();
    let mut plugins = Vec::new(alloc);
    plugins.push(TodoMarks::new(alloc))?;
    let Some(ran) = run_over(alloc, TODO, &[], &[], plugins)? else {
        assert!(rt; false, "the run ends well");
        return Ok(());
    };
    assert!(rt; ran.journal.len() > 12, "the plugin asks");
    assert!(rt;
        writes_the_same(alloc, &ran, 1)?,
        "the marks are shown again"
    );
    assert!(rt;
        !writes_the_same(alloc, &ran, 0)?,
        "and not without a plugin"
    );
    Ok(())
}
