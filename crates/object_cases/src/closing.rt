//! Sessions that are closed, and one whose sink failed: what they take then.

use case_runs::{FIVE_LINES, FIVE_PIECES, joined};
use core_session::{Core, Reply};
use outside::{CalmShelf, MemSink};
use plain_text::Text;
use std::alloc::Global;

type Session = Core<MemSink, CalmShelf>;

// A session whose write of this number fails, and none where it is 0.
fn session(alloc: Global, write: u64) -> Option<Session> {
    let writes = Vec::from_slice(alloc, &[write]).ok()?;
    let sink = MemSink::new(alloc, 4096, writes);
    Core::make(alloc, sink, CalmShelf::new(alloc), 0, 100).ok()
}

// How many of these of the five lines the session takes, and how many it does not, since it is over.
fn answered(core: &mut Session, first: usize, count: usize) -> (usize, usize) {
    let mut taken = 0usize;
    let mut closed = 0usize;
    for line in FIVE_LINES.iter().skip(first).take(count) {
        match core.front_line(line.as_bytes()) {
            Reply::Taken(_) => taken = taken.saturating_add(1),
            Reply::Closed => closed = closed.saturating_add(1),
            Reply::Refused(_) | Reply::SinkFault | Reply::NoMemory => {}
        }
    }
    (taken, closed)
}

// Whether the session takes its closing entry.
fn closes(core: &mut Session) -> bool {
    match core.close_down() {
        Reply::Taken(_) => true,
        Reply::Refused(_) | Reply::SinkFault | Reply::Closed | Reply::NoMemory => false,
    }
}

// Whether the session has so many entries, and wrote the first of the five pieces, so many.
fn leaves(alloc: Global, core: Session, entries: usize, pieces: usize) -> Option<bool> {
    let wanted = joined(alloc, &FIVE_PIECES, pieces).ok()?;
    let (journal, sink, _shelf) = core.into_parts();
    Some(journal.len() == entries && sink.bytes() == Some(wanted.as_slice()))
}

// Whether the session takes the lines before this one, closes once, and takes none after.
fn closes_before(core: &mut Session, line: usize) -> bool {
    answered(core, 0, line) == (line, 0)
        && closes(core)
        && answered(core, line, 5) == (0, 5usize.saturating_sub(line))
        && !closes(core)
}

// Whether a session is closed before this line: its entries are those of the lines before, and the closing one.
fn is_closed_before(alloc: Global, line: usize) -> Option<bool> {
    let mut core = session(alloc, 0)?;
    let closed = closes_before(&mut core, line);
    let left = leaves(alloc, core, line.saturating_add(1), line)?;
    Some(closed && left)
}

// The head text of the view with this id.
fn text_of(alloc: Global, core: &Session, view: &str) -> Option<Text> {
    let id = Text::from_str(alloc, view).ok()?;
    core.doc(&id)?.head_text(alloc).ok()
}

// Whether the view has the text.
fn shows(alloc: Global, core: &Session, view: &str, text: &str) -> bool {
    match text_of(alloc, core, view) {
        Some(found) => found.as_str() == text,
        None => false,
    }
}

#[test]
fn a_session_is_closed_before_each_line(rt: HostRuntime) {
    let alloc = rt.alloc();
    assert!(rt; is_closed_before(alloc, 0) == Some(true));
    assert!(rt; is_closed_before(alloc, 1) == Some(true));
    assert!(rt; is_closed_before(alloc, 2) == Some(true));
    assert!(rt; is_closed_before(alloc, 3) == Some(true));
    assert!(rt; is_closed_before(alloc, 4) == Some(true));
    assert!(rt; is_closed_before(alloc, 5) == Some(true));
}

// Whether the insertion of `a` is the last line that the session takes: its document has it, and the session closes once.
fn ends_unsent(alloc: Global, core: &mut Session) -> bool {
    answered(core, 0, 2) == (1, 0)
        && shows(alloc, core, "view-id-1", "a")
        && !shows(alloc, core, "view-id-2", "")
        && answered(core, 2, 3) == (0, 3)
        && shows(alloc, core, "view-id-1", "a")
        && closes(core)
        && !closes(core)
}

// Whether a session whose second write fails ends so, with one piece written.
fn is_unsent_the_last(alloc: Global) -> Option<bool> {
    let mut core = session(alloc, 2)?;
    let ended = ends_unsent(alloc, &mut core);
    let left = leaves(alloc, core, 3, 1)?;
    Some(ended && left)
}

#[test]
fn an_entry_that_was_not_sent_is_the_last(rt: HostRuntime) {
    assert!(rt; is_unsent_the_last(rt.alloc()) == Some(true));
}
