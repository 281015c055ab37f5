//! Sources and sinks.

ghost use Rattle.std.specs.Prelude.{◌≤◌, IfOk};

use outside::{
    CalmSink, CalmSource, MemSink, MemSource, Pulled, Pushed, Sink, Source, StdSink, StdSource,
};
use std::alloc::{AllocError, Global};
use std::io;
use std::io::{ErrorKind, Read, Write};

/// Whether a read gives this much, and the sink that takes what it gave then has these bytes.
fn moves(source: &mut CalmSource, sink: &mut CalmSink, pulled: Pulled, held: &[u8]) -> bool {
    let mut buf = [0; 2];
    let found = source.read(&mut buf);
    if let Pulled::Got(count) = found {
        if count == 0 || buf.len() < count || sink.write(&buf[..count]) != Pushed::Took(count) {
            return false;
        }
    }
    found == pulled && sink.bytes() == Some(held)
}

fn all_moves(source: &mut CalmSource, sink: &mut CalmSink) -> bool {
    moves(source, sink, Pulled::Got(2), b"ab")
        && moves(source, sink, Pulled::Got(1), b"abc")
        && moves(source, sink, Pulled::End, b"abc")
        && sink.refused() == 0
}

fn calm_ones_move(alloc: Global) -> bool {
    let Ok(bytes) = Vec::from_slice(alloc, b"abc") else {
        return false;
    };
    all_moves(&mut CalmSource::new(bytes), &mut CalmSink::new(alloc))
}

#[test]
fn calm_ones_move_all_that_there_is_room_for(rt: HostRuntime) {
    assert!(rt; calm_ones_move(rt.alloc()));
}

/// Whether a read comes to this, and leaves these bytes and so many faults.
fn gives(source: &mut MemSource, pulled: Pulled, left: &[u8], faults: u64) -> bool {
    let found = source.read(&mut [0; 3]);
    found == pulled && source.left() == left && source.faults() == faults
}

/// A source of three bytes, of which two are given at a time, and whose second and fifth read fail.
fn small_source(alloc: Global) -> Result<MemSource, AllocError> {
    let failing = Vec::from_slice(alloc, &[2, 5])?;
    let bytes = Vec::from_slice(alloc, b"abc")?;
    Ok(MemSource::new(bytes, 2, failing))
}

fn gives_by_its_reads(source: &mut MemSource) -> bool {
    gives(source, Pulled::Got(2), b"c", 0)
        && gives(source, Pulled::Failed, b"c", 1)
        && gives(source, Pulled::Got(1), b"", 1)
        && gives(source, Pulled::End, b"", 1)
        && gives(source, Pulled::Failed, b"", 2)
}

fn small_source_gives(alloc: Global) -> bool {
    match small_source(alloc) {
        Ok(mut source) => gives_by_its_reads(&mut source),
        Err(_) => false,
    }
}

#[test]
fn memory_gives_small_pieces_and_fails_when_told(rt: HostRuntime) {
    assert!(rt; small_source_gives(rt.alloc()));
}

/// Whether a write comes to this, and leaves these bytes.
fn takes(sink: &mut MemSink, piece: &[u8], pushed: Pushed, held: &[u8]) -> bool {
    !piece.is_empty() && sink.write(piece) == pushed && sink.bytes() == Some(held)
}

/// A sink that takes three bytes at a time, and whose first and third write fail.
fn small_sink(alloc: Global) -> Result<MemSink, AllocError> {
    let failing = Vec::from_slice(alloc, &[1, 3])?;
    Ok(MemSink::new(alloc, 3, failing))
}

fn takes_by_its_writes(sink: &mut MemSink) -> bool {
    takes(sink, b"ab", Pushed::Failed, b"")
        && takes(sink, b"abcd", Pushed::Took(3), b"abc")
        && takes(sink, b"d", Pushed::Failed, b"abc")
        && takes(sink, b"d", Pushed::Took(1), b"abcd")
        && sink.calls() == 4
        && sink.faults() == 2
        && sink.refused() == 0
}

fn small_sink_takes(alloc: Global) -> bool {
    match small_sink(alloc) {
        Ok(mut sink) => takes_by_its_writes(&mut sink),
        Err(_) => false,
    }
}

#[test]
fn memory_takes_small_pieces_and_fails_when_told(rt: HostRuntime) {
    assert!(rt; small_sink_takes(rt.alloc()));
}

/// A pipe whose calls are interrupted twice, move one byte, break, and then move nothing.
#[derive(Drop)]
struct Unsteady {
    calls: u8,
}

impl Unsteady {
    fn turn(&mut self) -> io::Result<usize>
        ensures { IfOk result (λ n. n ≤ 1) }
    {
        self.calls = self.calls.saturating_add(1);
        match self.calls {
            1 | 2 => Err(io::Error::from(ErrorKind::Interrupted)),
            3 => Ok(1),
            4 => Err(io::Error::from(ErrorKind::BrokenPipe)),
            _ => Ok(0),
        }
    }
}

impl Read for Unsteady {
    fn read(&mut self, buf: &mut [u8]) -> io::Result<usize> {
        let count = self.turn()?;
        Ok(count.min(buf.len()))
    }
}

impl Write for Unsteady {
    fn write(&mut self, buf: &[u8]) -> io::Result<usize> {
        let count = self.turn()?;
        Ok(count.min(buf.len()))
    }

    fn flush(&mut self) -> io::Result<()> {
        Ok(())
    }
}

/// Whether a read comes to this, and leaves so many faults.
fn reads(source: &mut StdSource<Unsteady>, pulled: Pulled, faults: u64) -> bool {
    source.read(&mut [0; 4]) == pulled && source.faults == faults
}

/// Whether a write comes to this, and leaves so many faults.
fn writes(sink: &mut StdSink<Unsteady>, pushed: Pushed, faults: u64) -> bool {
    sink.write(b"abcd") == pushed && sink.faults == faults
}

// To read nothing is the end, and to write nothing is a fault.
#[test]
fn an_interrupted_call_is_made_again(rt: HostRuntime) {
    let mut source = StdSource::new(Unsteady { calls: 0 });
    let mut sink = StdSink::new(Unsteady { calls: 0 });
    assert!(rt; reads(&mut source, Pulled::Got(1), 0));
    assert!(rt; reads(&mut source, Pulled::Failed, 1));
    assert!(rt; reads(&mut source, Pulled::End, 1));
    assert!(rt; writes(&mut sink, Pushed::Took(1), 0));
    assert!(rt; writes(&mut sink, Pushed::Failed, 1));
    assert!(rt; writes(&mut sink, Pushed::Failed, 2));
    assert_eq!(rt; StdSink::new(rt.stdout()).write(b"\n"), Pushed::Took(1));
}
