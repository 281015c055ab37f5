//! Folders of runs: what is saved is played again, and what is wrong with a folder is named.

use crate::played::{Ran, shelf_of};
use crate::runs::alone;
use outside::{MemShelf, MemSink};
use plain_text::{NoMemory, Text};
use run_folder::{Ending, Part, Saved, replay_folder, save_run};
use std::alloc::Global;
use std::test::Fail;

const LINES: &str = r#"{"id":0,"method":"new_view","params":{"file_path":"ff"}}
{"id":1,"method":"new_view","params":{"file_path":"a"}}
{"method":"edit","params":{"method":"insert","params":{"chars":"é"},"view_id":"view-id-1"}}
nothing
{"id":2,"method":"save","params":{"file_path":"b","view_id":"view-id-1"}}
"#;

fn a_run(alloc: Global) -> Result<Option<Ran>, NoMemory> {
    alone(alloc, LINES, &[("ff", &[255]), ("a", b"TODO\n")], &[])
}

fn a_folder(alloc: Global) -> Result<Text, NoMemory> {
    Text::from_str(alloc, "runs/1")
}

// What playing a folder of a shelf comes to, whose calls with these numbers fail, and what it writes into a sink whose writes with these do.
fn plays(
    alloc: Global,
    shelf: &mut MemShelf,
    failing: &[u64],
) -> Result<(Ending, Vec<u8>), NoMemory> {
    let sink = MemSink::new(alloc, 4096, Vec::from_slice(alloc, failing)?);
    let (ending, sink) = replay_folder(alloc, shelf, &a_folder(alloc)?, sink);
    match sink.into_bytes() {
        None => Err(NoMemory),
        Some(bytes) => Ok((ending, bytes)),
    }
}

#[test]
fn what_is_saved_is_played_again(rt: HostRuntime) -> Result<(), Fail> {
    let alloc = rt.alloc();
    let Some(ran) = a_run(alloc)? else {
        assert!(rt; false, "the run ends well");
        return Ok(());
    };
    let mut shelf = shelf_of(alloc, &[], &[])?;
    let saved = save_run(
        alloc,
        &mut shelf,
        &a_folder(alloc)?,
        &ran.tape,
        &ran.journal,
    );
    assert!(rt; saved == Saved::Whole, "it is saved");
    let (ending, bytes) = plays(alloc, &mut shelf, &[])?;
    assert!(rt;
        ending == Ending::Whole && bytes.as_slice() == ran.bytes.as_slice(),
        "the same bytes"
    );
    let (ending, _part) = plays(alloc, &mut shelf, &[3])?;
    assert!(rt; ending == Ending::SinkFault, "a write fails");
    Ok(())
}

#[test]
fn what_is_not_saved_is_named(rt: HostRuntime) -> Result<(), Fail> {
    let alloc = rt.alloc();
    let Some(ran) = a_run(alloc)? else {
        assert!(rt; false, "the run ends well");
        return Ok(());
    };
    for (failing, saved, ending) in [
        (1, Saved::Failed(Part::Tape), Ending::Missing(Part::Tape)),
        (
            2,
            Saved::Failed(Part::Journal),
            Ending::Missing(Part::Journal),
        ),
    ] {
        let mut shelf = shelf_of(alloc, &[], &[failing])?;
        let came = save_run(
            alloc,
            &mut shelf,
            &a_folder(alloc)?,
            &ran.tape,
            &ran.journal,
        );
        assert!(rt; came == saved, "call {failing} fails");
        let (came, bytes) = plays(alloc, &mut shelf, &[])?;
        assert!(rt; came == ending && bytes.is_empty(), "and nothing is played");
    }
    Ok(())
}

// A shelf with the tape of an opening, and this journal.
fn with_journal(
    alloc: Global,
    journal: &'static [u8],
    refused: &[u64],
) -> Result<MemShelf, NoMemory> {
    shelf_of(
        alloc,
        &[
            ("runs/1/tape", b"{\"id\":0,\"method\":\"new_view\"}\n"),
            ("runs/1/journal", journal),
        ],
        refused,
    )
}

// An opening, and the closing; the same of which the last line is cut off; and one whose second entry is not that of the tape.
const GOOD: &[u8] =
    br#"{"caller":0,"command":"{\"id\":0,\"method\":\"new_view\",\"params\":{}}","note":null,"sent":true}
{"caller":0,"command":null,"note":null,"sent":true}
"#;

const CUT: &[u8] =
    br#"{"caller":0,"command":"{\"id\":0,\"method\":\"new_view\",\"params\":{}}","note":null,"sent":true}
{"caller":0,"command":null,"note":null,"se"#;

const OTHER: &[u8] =
    br#"{"caller":0,"command":"{\"id\":0,\"method\":\"new_view\",\"params\":{}}","note":null,"sent":true}
{"caller":0,"command":"{\"method\":\"client_started\",\"params\":{}}","note":null,"sent":true}
"#;

const FAR: &[u8] =
    br#"{"caller":0,"command":"{\"id\":0,\"method\":\"new_view\",\"params\":{}}","note":null,"sent":true}
{"caller":4294967295,"command":null,"note":null,"sent":true}
"#;

#[test]
fn what_is_wrong_with_a_folder_is_named(rt: HostRuntime) -> Result<(), Fail> {
    let alloc = rt.alloc();
    for (what, journal, refused, ending, pieces) in [
        ("all is well", GOOD, 0, Ending::Whole, 1),
        (
            "the tape can't be read",
            GOOD,
            1,
            Ending::Unread(Part::Tape),
            0,
        ),
        (
            "the journal can't be read",
            GOOD,
            2,
            Ending::Unread(Part::Journal),
            0,
        ),
        ("a line is cut off", CUT, 0, Ending::NoEntry(1), 0),
        ("an entry without a line", OTHER, 0, Ending::Differs(1), 1),
        ("a plugin that no run has", FAR, 0, Ending::Differs(1), 1),
    ] {
        let mut shelf = with_journal(alloc, journal, &[refused])?;
        let (came, bytes) = plays(alloc, &mut shelf, &[])?;
        assert!(rt;
            came == ending && bytes.is_empty() == (pieces == 0),
            "{what}"
        );
    }
    Ok(())
}
