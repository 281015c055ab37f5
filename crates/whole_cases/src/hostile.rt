//! Long lines that no front end would send: each gets one answer, and the next line is served as if it had not come.

use crate::none::no_plugins;
use case_runs::{FIVE_LINES, FIVE_PIECES, is_so};
use outside::{CalmShelf, MemSink, MemSource};
use std::alloc::{AllocError, Global};
use xi_top::run_alone;

// Bytes with a part that stands many times between them.
#[derive(Clone, Copy)]
struct Long {
    front: &'static str,
    part: &'static str,
    times: usize,
    back: &'static str,
}

fn push_long(bytes: &mut Vec<u8>, long: Long) -> Result<(), AllocError> {
    bytes.extend_from_slice(long.front.as_bytes())?;
    for _ in 0..long.times {
        bytes.extend_from_slice(long.part.as_bytes())?;
    }
    bytes.extend_from_slice(long.back.as_bytes())?;
    bytes.push(b'\n')?;
    Ok(())
}

// Whether a run answers the line by this one, and serves an opening behind it.
fn answers(alloc: Global, line: Long, answer: Long) -> Result<bool, AllocError> {
    let mut input = Vec::new(alloc);
    push_long(&mut input, line)?;
    input.extend_from_slice(FIVE_LINES[0].as_bytes())?;
    let mut wanted = Vec::new(alloc);
    push_long(&mut wanted, answer)?;
    wanted.extend_from_slice(FIVE_PIECES[0].as_bytes())?;
    let mut source = MemSource::new(input, 4096, Vec::new(alloc));
    let sink = MemSink::new(alloc, 4096, Vec::new(alloc));
    let report = run_alone(
        alloc,
        &mut source,
        sink,
        CalmShelf::new(alloc),
        no_plugins(alloc),
    );
    Ok(report.status == 0 && report.journal.len() == 3 && report.sink.into_bytes() == Some(wanted))
}

// Members that nobody asked for, and then a method that there is not.
const MANY_MEMBERS: Long = Long {
    front: "{\"id\":1,",
    part: "\"m\":0,",
    times: 100000,
    back: "\"method\":\"no_such\"}",
};

const NO_SUCH: Long = Long {
    front: "{\"error\":{\"code\":-32601,\"message\":\"method not found: no_such\"},\"id\":1}",
    part: "",
    times: 0,
    back: "",
};

const LONG_NAME: Long = Long {
    front: "{\"id\":1,\"method\":\"",
    part: "n",
    times: 1000000,
    back: "\"}",
};

// The message has the name whole.
const LONG_NAME_TOLD: Long = Long {
    front: "{\"error\":{\"code\":-32601,\"message\":\"method not found: ",
    part: "n",
    times: 1000000,
    back: "\"},\"id\":1}",
};

#[test]
fn a_long_line_is_answered_once(rt: HostRuntime) {
    let alloc = rt.alloc();
    assert!(rt; is_so(answers(alloc, MANY_MEMBERS, NO_SUCH)));
    assert!(rt; is_so(answers(alloc, LONG_NAME, LONG_NAME_TOLD)));
}
