//! Journals that were changed: the first entry that does not follow is named, and those before it are written.

use crate::played::{Came, Ran, played};
use crate::runs::alone;
use journal_replay::{Entry, ReplayFault};
use plain_edits::{Delta, El};
use plain_text::{Bytes, List, NoMemory, Text, TryClone};
use std::alloc::Global;
use std::test::Fail;
use xi_plain::{Act, Command, EditAct, Id, ShelfNote};

// An opening, three inserts, and an undo of them.
const LINES: [&str; 5] = [
    "{\"id\":0,\"method\":\"new_view\"}\n",
    "{\"method\":\"edit\",\"params\":{\"method\":\"insert\",\"params\":{\"chars\":\"a\"},\"view_id\":\"view-id-1\"}}\n",
    "{\"method\":\"edit\",\"params\":{\"method\":\"insert\",\"params\":{\"chars\":\"é\"},\"view_id\":\"view-id-1\"}}\n",
    "{\"method\":\"edit\",\"params\":{\"method\":\"insert\",\"params\":{\"chars\":\"\\n\"},\"view_id\":\"view-id-1\"}}\n",
    "{\"id\":1,\"method\":\"edit\",\"params\":{\"method\":\"undo\",\"view_id\":\"view-id-1\"}}\n",
];

// What each of them writes.
const PIECES: [&str; 5] = [
    r#"{"id":0,"result":"view-id-1"}
{"method":"update","params":{"update":{"ops":[{"lines":[{"cursor":[0],"ln":1,"styles":[],"text":""}],"n":1,"op":"ins"}],"pristine":true},"view_id":"view-id-1"}}
"#,
    r#"{"method":"update","params":{"update":{"ops":[{"lines":[{"cursor":[1],"ln":1,"styles":[],"text":"a"}],"n":1,"op":"ins"}],"pristine":false},"view_id":"view-id-1"}}
{"method":"scroll_to","params":{"col":1,"line":0,"view_id":"view-id-1"}}
"#,
    r#"{"method":"update","params":{"update":{"ops":[{"lines":[{"cursor":[3],"ln":1,"styles":[],"text":"aé"}],"n":1,"op":"ins"}],"pristine":false},"view_id":"view-id-1"}}
{"method":"scroll_to","params":{"col":3,"line":0,"view_id":"view-id-1"}}
"#,
    r#"{"method":"update","params":{"update":{"ops":[{"lines":[{"cursor":[],"ln":1,"styles":[],"text":"aé\n"},{"cursor":[0],"ln":2,"styles":[],"text":""}],"n":2,"op":"ins"}],"pristine":false},"view_id":"view-id-1"}}
{"method":"scroll_to","params":{"col":0,"line":1,"view_id":"view-id-1"}}
"#,
    r#"{"id":1,"result":null}
{"method":"update","params":{"update":{"ops":[{"lines":[{"cursor":[0],"ln":1,"styles":[],"text":""}],"n":1,"op":"ins"}],"pristine":false},"view_id":"view-id-1"}}
{"method":"scroll_to","params":{"col":0,"line":0,"view_id":"view-id-1"}}
"#,
];

// What is done to a journal before it is played.
#[derive(Clone, Copy)]
enum Change {
    Nothing,
    // The entry inserts `b`.
    Inserts(usize),
    // The entry is of this caller.
    Caller(usize, u32),
    // It was not sent.
    Unsent(usize),
    // The shelf gave it a file.
    Held(usize),
    // It stands twice.
    Twice(usize),
    // The closing entry stands there too.
    Closes(usize),
    // A plugin's session ends there.
    Ends(usize),
    // A plugin edits there, over a text of so many bytes.
    Edits(usize, u64),
    // A plugin acknowledges this revision there.
    Acks(usize, u64),
    // There are no entries from there on.
    Cut(usize),
}

// One that asks the shelf for nothing, and was sent.
pub(crate) fn entry(caller: u32, id: Id, act: Act) -> Entry {
    Entry {
        caller,
        command: Command { id, act },
        shelf: ShelfNote::NoCall,
        sent: true,
    }
}

// The entry that a change puts in, if it does.
fn put_in(alloc: Global, change: Change) -> Result<Option<Entry>, NoMemory> {
    let view = Text::from_str(alloc, "view-id-1")?;
    match change {
        Change::Closes(_) => Ok(Some(entry(0, Id::NoId, Act::Closing))),
        Change::Ends(_) => Ok(Some(entry(1, Id::NoId, Act::Ended))),
        Change::Acks(_, rev) => Ok(Some(entry(1, Id::NoId, Act::Ack { view, rev }))),
        Change::Edits(_, base_len) => {
            let mut els = Vec::new(alloc);
            els.push(El::Copy { a: 0, b: base_len })?;
            els.push(El::Insert {
                text: Text::from_str(alloc, "x")?,
            })?;
            let act = Act::PluginEdit {
                view,
                rev: 1,
                delta: Delta {
                    els: List::from_vec(els),
                    base_len,
                },
                priority: 7,
                after_cursor: false,
                author: Text::from_str(alloc, "p")?,
                named: None,
            };
            Ok(Some(entry(1, Id::Num(4), act)))
        }
        _ => Ok(None),
    }
}

// Before which entry a change puts one in, or the entry that it changes.
fn place_of(change: Change) -> usize {
    match change {
        Change::Nothing => 0,
        Change::Inserts(at)
        | Change::Caller(at, _)
        | Change::Unsent(at)
        | Change::Held(at)
        | Change::Twice(at)
        | Change::Closes(at)
        | Change::Ends(at)
        | Change::Edits(at, _)
        | Change::Acks(at, _)
        | Change::Cut(at) => at,
    }
}

// A copy of the entry, changed.
fn with_change(alloc: Global, old: &Entry, change: Change) -> Result<Entry, NoMemory> {
    let mut made = old.copy(alloc)?;
    match change {
        Change::Inserts(_) => {
            let view = Text::from_str(alloc, "view-id-1")?;
            let chars = Text::from_str(alloc, "b")?;
            made.command.act = Act::Edit {
                view,
                act: EditAct::Insert { chars },
            };
        }
        Change::Caller(_, caller) => made.caller = caller,
        Change::Unsent(_) => made.sent = false,
        Change::Held(_) => made.shelf = ShelfNote::Held(Bytes::new(alloc)),
        _ => {}
    }
    Ok(made)
}

// The journal with a change.
fn changed(alloc: Global, journal: &[Entry], change: Change) -> Result<Vec<Entry>, NoMemory> {
    let place = place_of(change);
    let mut made = Vec::new(alloc);
    for (at, old) in journal.iter().enumerate() {
        if at != place {
            made.push(old.copy(alloc)?)?;
            continue;
        }
        if let Change::Cut(_) = change {
            return Ok(made);
        }
        if let Change::Twice(_) = change {
            made.push(old.copy(alloc)?)?;
        }
        if let Some(entry) = put_in(alloc, change)? {
            made.push(entry)?;
        }
        made.push(with_change(alloc, old, change)?)?;
    }
    Ok(made)
}

fn joined(alloc: Global, pieces: usize) -> Result<Vec<u8>, NoMemory> {
    let mut bytes = Vec::new(alloc);
    for piece in PIECES.iter().take(pieces) {
        bytes.extend_from_slice(piece.as_bytes())?;
    }
    Ok(bytes)
}

fn five_lines(alloc: Global) -> Result<Option<Ran>, NoMemory> {
    let mut lines = Text::new(alloc);
    for line in LINES {
        lines.push_str(line)?;
    }
    alone(alloc, lines.as_str(), &[], &[])
}

// Whether the journal with a change comes to this for one plugin, in a sink whose writes with these numbers fail, and writes so many pieces first.
fn comes_to(
    alloc: Global,
    ran: &Ran,
    change: Change,
    failing: &[u64],
    came: Came,
    pieces: usize,
) -> Result<bool, NoMemory> {
    let journal = changed(alloc, &ran.journal, change)?;
    let (comes, bytes) = played(alloc, &ran.tape, &journal, 1, failing)?;
    Ok(comes == came && bytes.as_slice() == joined(alloc, pieces)?.as_slice())
}

const fn differs(at: u64) -> Came {
    Came::Stopped(ReplayFault::Differs(at))
}

#[test]
fn the_first_entry_that_differs_is_named(rt: HostRuntime) -> Result<(), Fail> {
    let alloc = rt.alloc();
    let Some(ran) = five_lines(alloc)? else {
        assert!(rt; false, "the run ends well");
        return Ok(());
    };
    for (what, change, came, pieces) in [
        ("the journal of the run", Change::Nothing, Came::Through, 5),
        ("another insertion", Change::Inserts(1), differs(1), 1),
        (
            "a caller above the plugins",
            Change::Caller(2, 2),
            differs(2),
            2,
        ),
        (
            "a plugin asks what a front end asks",
            Change::Caller(2, 1),
            differs(2),
            2,
        ),
        ("one that was not sent", Change::Unsent(2), Came::Through, 5),
        ("a file for an edit", Change::Held(3), differs(3), 3),
        ("one entry more than lines", Change::Twice(4), differs(5), 5),
        ("an entry twice", Change::Twice(1), differs(2), 2),
        (
            "a closing entry in the middle",
            Change::Closes(1),
            differs(2),
            1,
        ),
        ("a closing entry twice", Change::Closes(5), differs(6), 5),
        ("a plugin ends", Change::Ends(2), Came::Through, 5),
        ("a misfit of a plugin", Change::Edits(2, 99), differs(2), 2),
        (
            "a revision that is not there",
            Change::Acks(2, 9),
            differs(2),
            2,
        ),
        (
            "a number that no line has",
            Change::Acks(2, 1 << 63),
            differs(2),
            2,
        ),
        ("an acknowledgement", Change::Acks(2, 1), Came::Through, 5),
        ("more lines than entries", Change::Cut(3), Came::Through, 3),
        ("no entry", Change::Cut(0), Came::Through, 0),
    ] {
        assert!(rt; comes_to(alloc, &ran, change, &[], came, pieces)?, "{what}");
    }
    Ok(())
}

#[test]
fn a_sink_that_fails_ends_it(rt: HostRuntime) -> Result<(), Fail> {
    let alloc = rt.alloc();
    let Some(ran) = five_lines(alloc)? else {
        assert!(rt; false, "the run ends well");
        return Ok(());
    };
    let fault = Came::Stopped(ReplayFault::SinkFault);
    for failing in 1..6 {
        assert!(rt;
            comes_to(
                alloc,
                &ran,
                Change::Nothing,
                &[failing],
                fault,
                failing as usize - 1
            )?,
            "write {failing} fails"
        );
    }
    assert!(rt;
        comes_to(alloc, &ran, Change::Nothing, &[6], Came::Through, 5)?,
        "no write fails"
    );
    assert!(rt;
        comes_to(alloc, &ran, Change::Inserts(1), &[2], differs(1), 1)?,
        "it differs first"
    );
    assert!(rt;
        comes_to(alloc, &ran, Change::Inserts(2), &[2], fault, 1)?,
        "it fails first"
    );
    Ok(())
}

#[test]
fn a_session_ends_twice(rt: HostRuntime) -> Result<(), Fail> {
    let alloc = rt.alloc();
    let Some(ran) = five_lines(alloc)? else {
        assert!(rt; false, "the run ends well");
        return Ok(());
    };
    let once = changed(alloc, &ran.journal, Change::Ends(2))?;
    let twice = changed(alloc, &once, Change::Ends(4))?;
    let (came, bytes) = played(alloc, &ran.tape, &twice, 1, &[])?;
    assert!(rt;
        came == Came::Through && bytes.as_slice() == ran.bytes.as_slice(),
        "both are entries"
    );
    let (came, bytes) = played(alloc, &Bytes::new(alloc), &[], 0, &[])?;
    assert!(rt;
        came == Came::Through && bytes.is_empty(),
        "nothing is played"
    );
    Ok(())
}
