//! Tapes of what a source gave, and lines of them played.

ghost use Rattle.std.specs.Prelude.{◌<◌};

use crate::none::no_plugins;
use case_runs::{FIVE_LINES, FIVE_PIECES, is_so, joined};
use macro_record::{TapeSource, line_count, played};
use outside::{CalmShelf, MemSink, MemSource, Pulled, Source};
use plain_text::{Bytes, NoMemory};
use std::alloc::{AllocError, Global};
use xi_top::run_alone;

// A tape over these bytes, of which at most `piece` are given at a time, and whose reads of these numbers fail.
fn tape_over(
    alloc: Global,
    bytes: Vec<u8>,
    piece: usize,
    failing: &[u64],
) -> Result<TapeSource<MemSource>, AllocError>
    requires { 0 < piece }
{
    let failing = Vec::from_slice(alloc, failing)?;
    Ok(TapeSource::new(alloc, MemSource::new(bytes, piece, failing)))
}

// What so many reads into a buffer of this length give, how often they met the end, and how often they failed.
fn reads(
    alloc: Global,
    source: &mut TapeSource<MemSource>,
    room: usize,
    count: usize,
) -> Result<(Vec<u8>, usize, usize), AllocError>
    requires { 0 < room }
{
    let mut given = Vec::new(alloc);
    let mut buf = Vec::from_elem(alloc, 0, room)?;
    let mut ends = 0usize;
    let mut failures = 0usize;
    for _ in 0..count {
        match source.read(&mut buf) {
            Pulled::Got(len) => given.extend_from_slice(&buf[..len])?,
            Pulled::End => ends = ends.saturating_add(1),
            Pulled::Failed => failures = failures.saturating_add(1),
        }
    }
    Ok((given, ends, failures))
}

// Whether the tape is whole, and has these bytes.
fn keeps(source: &TapeSource<MemSource>, bytes: &[u8]) -> bool {
    source.whole() && source.tape().as_slice() == bytes
}

// Whether a tape gives these bytes, keeps them, and has so many lines.
fn is_kept(
    alloc: Global,
    bytes: &str,
    piece: usize,
    room: usize,
    lines: u64,
) -> Result<bool, AllocError>
    requires piece { 0 < piece }
    requires room { 0 < room }
{
    let input = Vec::from_slice(alloc, bytes.as_bytes())?;
    let mut source = tape_over(alloc, input, piece, &[])?;
    // Read behind the end too, twice at least.
    let count = bytes.len().saturating_add(2);
    let (given, ends, failures) = reads(alloc, &mut source, room, count)?;
    Ok(
        given.as_slice() == bytes.as_bytes()
            && ends >= 2
            && failures == 0
            && keeps(&source, bytes.as_bytes())
            && line_count(source.tape()) == lines,
    )
}

// The bytes, the greatest piece that one read gives, the length of the buffer, and how many lines there are.
#[test]
fn a_tape_has_what_was_given(rt: HostRuntime) {
    let alloc = rt.alloc();
    assert!(rt; is_so(is_kept(alloc, "ab\nc", 1, 1, 2)));
    assert!(rt; is_so(is_kept(alloc, "ab\nc", 2, 4096, 2)));
    assert!(rt; is_so(is_kept(alloc, "ab\nc", 4096, 3, 2)));
    assert!(rt; is_so(is_kept(alloc, "ab\nc", 4096, 4096, 2)));
    assert!(rt; is_so(is_kept(alloc, "a\n\n", 2, 2, 2)));
    assert!(rt; is_so(is_kept(alloc, "", 1, 1, 0)));
}

// Whether a tape over `ab`, LF and `c`, two bytes at a time, whose read of this number fails, is told of it, and keeps what was given.
fn skips_a_failure(alloc: Global, failing: u64) -> Result<bool, AllocError> {
    let input = Vec::from_slice(alloc, "ab\nc".as_bytes())?;
    let mut source = tape_over(alloc, input, 2, &[failing])?;
    let (given, _ends, failures) = reads(alloc, &mut source, 8, 4)?;
    let kept = keeps(&source, "ab\nc".as_bytes());
    let (tape, inner) = source.into_parts();
    Ok(
        kept && failures == 1
            && given.as_slice() == "ab\nc".as_bytes()
            && tape.as_slice() == "ab\nc".as_bytes()
            && inner.faults() == 1
            && inner.left().is_empty(),
    )
}

#[test]
fn a_failed_read_is_counted_and_not_kept(rt: HostRuntime) {
    let alloc = rt.alloc();
    assert!(rt; is_so(skips_a_failure(alloc, 1)));
    assert!(rt; is_so(skips_a_failure(alloc, 2)));
    assert!(rt; is_so(skips_a_failure(alloc, 3)));
}

// Whether these lines of a tape, played so often, are the bytes that are wanted.
fn plays(
    alloc: Global,
    tape: Vec<u8>,
    lines: (u64, u64),
    times: u32,
    wanted: &[u8],
) -> Result<bool, NoMemory> {
    let (from, to) = lines;
    let tape = Bytes::from_vec(tape);
    if from > to || to > line_count(&tape) || tape.len() >= 1024 || times > 1024 {
        return Ok(false);
    }
    let made = played(alloc, &tape, from, to, times)?;
    Ok(made.as_slice() == wanted)
}

// The same of a tape that is a text.
fn plays_text(
    alloc: Global,
    tape: &str,
    lines: (u64, u64),
    times: u32,
    wanted: &str,
) -> Result<bool, NoMemory> {
    let bytes = Vec::from_slice(alloc, tape.as_bytes())?;
    plays(alloc, bytes, lines, times, wanted.as_bytes())
}

#[test]
fn lines_of_a_tape_are_played(rt: HostRuntime) {
    let alloc = rt.alloc();
    assert!(rt; is_so(plays_text(alloc, "a\nb", (1, 2), 2, "b\nb\n")));
    assert!(rt; is_so(plays_text(alloc, "a\nb", (0, 2), 1, "a\nb\n")));
    assert!(rt; is_so(plays_text(alloc, "a\nb\n", (1, 2), 1, "b\n")));
    assert!(rt; is_so(plays_text(alloc, "a\nb\n", (2, 2), 3, "")));
    assert!(rt; is_so(plays_text(alloc, "\n\n", (0, 1), 2, "\n\n")));
    assert!(rt; is_so(plays_text(alloc, "", (0, 0), 3, "")));
}

// Whether these of the five lines, played so often, are these texts.
fn plays_five(
    alloc: Global,
    lines: (u64, u64),
    times: u32,
    wanted: &[&str],
) -> Result<bool, NoMemory> {
    let tape = joined(alloc, &FIVE_LINES, 5)?;
    let bytes = joined(alloc, wanted, wanted.len())?;
    plays(alloc, tape, lines, times, &bytes)
}

#[test]
fn insertions_are_played_again(rt: HostRuntime) {
    let alloc = rt.alloc();
    let three = [FIVE_LINES[1], FIVE_LINES[1], FIVE_LINES[1]];
    // The second line, all lines, and none.
    assert!(rt; is_so(plays_five(alloc, (1, 2), 3, &three)));
    assert!(rt; is_so(plays_five(alloc, (0, 5), 1, &FIVE_LINES)));
    assert!(rt; is_so(plays_five(alloc, (0, 5), 0, &[])));
}

// What a run over a source writes.
fn written<S: Source>(alloc: Global, source: &mut S) -> Option<Vec<u8>> {
    let sink = MemSink::new(alloc, 4096, Vec::new(alloc));
    run_alone(
        alloc,
        source,
        sink,
        CalmShelf::new(alloc),
        no_plugins(alloc),
    )
    .sink
    .into_bytes()
}

// The tape of a run over the five lines, where that writes the five pieces and the tape is whole.
fn tape_of_run(alloc: Global) -> Result<Option<Bytes>, AllocError> {
    let pieces = joined(alloc, &FIVE_PIECES, 5)?;
    let mut source = tape_over(alloc, joined(alloc, &FIVE_LINES, 5)?, 7, &[])?;
    if written(alloc, &mut source) != Some(pieces) || !source.whole() {
        return Ok(None);
    }
    let (tape, _inner) = source.into_parts();
    Ok(Some(tape))
}

// Whether a run over these bytes writes the five pieces.
fn writes_five(alloc: Global, tape: Bytes) -> Result<bool, AllocError> {
    let pieces = joined(alloc, &FIVE_PIECES, 5)?;
    let mut again = tape_over(alloc, tape.into_vec(), 4096, &[])?;
    Ok(written(alloc, &mut again) == Some(pieces))
}

// Whether a run over a tape is the run, and one over what the tape kept too.
fn is_the_run(alloc: Global) -> Result<bool, AllocError> {
    match tape_of_run(alloc)? {
        Some(tape) => writes_five(alloc, tape),
        None => Ok(false),
    }
}

#[test]
fn a_run_over_a_tape_is_the_run(rt: HostRuntime) {
    assert!(rt; is_so(is_the_run(rt.alloc())));
}
