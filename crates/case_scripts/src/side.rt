ghost use Rattle.std.specs.Prelude.{◌≡◌, Some, [], OnOk};
ghost use Rattle.outside.specs.Schedule.{schedule_of};
ghost use Rattle.case_scripts.specs.Inner.{IsProperPiece, part_view};
ghost use Rattle.case_scripts.specs.Said.{filler};
ghost use Rattle.case_scripts.specs.Script.{silent, with_piece};

use crate::said::Part;
use outside::{MemSink, MemSource};
use plain_text::NoMemory;
use std::alloc::Global;
use std::marker::Model;

/// How many bytes a call moves at most where a script says nothing of it: all that there is room for.
const UNLIMITED: u64 = u64::MAX;

/// What a script says of one end of the run: its bytes, and how its calls go.
#[derive(Drop)]
pub struct Side {
    bytes: Vec<u8>,
    failing: Vec<u64>,
    piece: u64,
}

impl Model for Side {
    ghost use Rattle.std.specs.Prelude.{◌<◌};
    ghost use Rattle.case_scripts.specs.Stream.{Stream};

    ghost Value = { Stream };

    ghost view = { λ s. record { bytes = s.bytes.items; failing = s.failing.items; piece = s.piece } };

    ghost invariant = { λ s. 0 < s.piece };
}

impl Side {
    pub fn new(alloc: Global) -> Side
        ensures { result ≡ silent }
    {
        Side {
            bytes: Vec::new(alloc),
            failing: Vec::new(alloc),
            piece: UNLIMITED,
        }
    }

    /// Takes what a line says of this end.
    pub fn take(&mut self, part: Part<'_>) -> Result<(), NoMemory>
        requires { IsProperPiece (part_view part) }
        ensures { OnOk result (self.new ≡ with_piece self.old (part_view part.entry)) }
    {
        match part {
            Part::Line(text) => {
                self.bytes.extend_from_slice(text)?;
                self.bytes.push(b'\n')?;
            }
            Part::Rest(text) => self.bytes.extend_from_slice(text)?,
            Part::Filler(count) => return self.fill(count),
            Part::Fails(call) => self.failing.push(call)?,
            Part::AtMost(count) => self.piece = count,
        }
        Ok(())
    }

    fn fill(&mut self, count: u64) -> Result<(), NoMemory>
        ensures { OnOk result (self.new ≡ with_piece self.old (filler count)) }
    {
        match self.bytes.len().checked_add(count as usize) {
            Some(length) => Ok(self.bytes.resize(length, b'a')?),
            None => Err(NoMemory),
        }
    }

    /// The source of these bytes.
    pub fn into_source(self) -> MemSource
        ensures left { result.left ≡ self.bytes }
        ensures piece { result.greatest ≡ self.piece }
        ensures schedule { result.schedule ≡ schedule_of self.failing }
    {
        let Side {
            bytes,
            failing,
            piece,
        } = self;
        MemSource::new(bytes, piece as usize, failing)
    }

    /// A sink whose calls go as it is said, and the bytes that it is to take.
    pub fn into_sink(self, alloc: Global) -> (MemSink, Vec<u8>)
        ensures held { result.0.held ≡ Some [] }
        ensures refused { result.0.refused ≡ 0 }
        ensures piece { result.0.greatest ≡ self.piece }
        ensures schedule { result.0.schedule ≡ schedule_of self.failing }
        ensures bytes { result.1.items ≡ self.bytes }
    {
        let Side {
            bytes,
            failing,
            piece,
        } = self;
        (MemSink::new(alloc, piece as usize, failing), bytes)
    }
}
