//! A source that keeps what it gives.

ghost use Rattle.std.specs.Prelude.{◌≡◌, ◌^◌, ◌<◌, ◌≤◌, length, [], true, ◌++◌, IfSome, OnOk, OnErr};
ghost use Rattle.outside.specs.Source.{Gives, IsPiece, pulled, failures_after, reads_after};
ghost use Rattle.outside.specs.Faults.{Rose};
ghost use Rattle.macro_record.specs.Tape.{Keeps};

use outside::{Pulled, Source};
use plain_text::{Bytes, NoMemory};
use std::alloc::Global;
use std::marker::Model;
use std::mem;

/// A source that keeps each byte that it gives, as long as it finds memory for them. Its tape grows before each read.
#[derive(Drop)]
pub struct TapeSource<S> {
    inner: S,
    tape: Bytes,
    whole: bool,
    alloc: Global,
}

impl<S> Model for TapeSource<S> {
    ghost use Rattle.macro_record.specs.Tape.{Taped};

    ghost Value = { Taped S };

    ghost view = { λ s. record { inner = s.inner; tape = record { bytes = s.tape; whole = s.whole } } };
}

impl<S: Drop> TapeSource<S> {
    /// A source with an empty tape, which takes no memory.
    pub fn new(alloc: Global, inner: S) -> TapeSource<S>
        ensures inner { result.inner ≡ inner }
        ensures empty { result.tape.bytes ≡ [] }
        ensures whole { result.tape.whole ≡ true }
    {
        TapeSource {
            inner,
            tape: Bytes::new(alloc),
            whole: true,
            alloc,
        }
    }

    /// The bytes that were kept: all that were given since [`new`](Self::new) while the tape is whole, else the first of them.
    pub fn tape(&self) -> &Bytes
        ensures { result.now ≡ self.now.tape.bytes }
    {
        &self.tape
    }

    /// Whether the tape has all bytes that were given. It is false only after a read that found no memory to keep what it gave, and then
    /// for ever.
    pub fn whole(&self) -> bool
        ensures { result ≡ self.now.tape.whole }
    {
        self.whole
    }

    /// The tape and the source inside, with no copy.
    pub fn into_parts(self) -> (Bytes, S)
        ensures tape { result.0 ≡ self.tape.bytes }
        ensures inner { result.1 ≡ self.inner }
    {
        let TapeSource {
            inner,
            tape,
            whole: _,
            alloc: _,
        } = self;
        (tape, inner)
    }

    /// Takes the memory for so many bytes more, where the tape is whole.
    fn make_room(&mut self, count: usize) -> Result<(), NoMemory>
        ensures { self.new ≡ self.old }
    {
        if self.whole {
            self.tape.reserve(count)?;
        }
        Ok(())
    }

    /// Keeps bytes that were given, or, where there was no room for them or there is none now, nothing more from here on.
    fn keep(&mut self, room: Result<(), NoMemory>, given: &[u8])
        ensures inner { self.new.inner ≡ self.old.inner }
        ensures kept { Keeps self.old.tape self.new.tape given.now }
    {
        if !self.whole || given.is_empty() {
            return;
        }
        self.whole = room.is_ok() && self.push(given).is_ok();
    }

    /// Puts bytes at the end of the tape. After want of memory it is as before.
    fn push(&mut self, given: &[u8]) -> Result<(), NoMemory>
        ensures rest { (self.new.inner ≡ self.old.inner) × (self.new.tape.whole ≡ self.old.tape.whole) }
        ensures pushed { OnOk result (self.new.tape.bytes ≡ self.old.tape.bytes ++ given.now) }
        ensures unchanged { OnErr result (self.new.tape.bytes ≡ self.old.tape.bytes) }
    {
        let mut bytes = mem::replace(&mut self.tape, Bytes::new(self.alloc)).into_vec();
        let pushed = bytes.extend_from_slice(given);
        self.tape = Bytes::from_vec(bytes);
        pushed?;
        Ok(())
    }
}

impl<S: Source + Drop> Source for TapeSource<S> {
    ghost left = { λ s. S.left s.inner };

    ghost faults = { λ s. S.faults s.inner };

    ghost failures = { λ s. S.failures s.inner };

    ghost reads = { λ s. S.reads s.inner };

    /// Reads once from the source inside, into the same buffer, and answers what that does.
    fn read(&mut self, buf: &mut [u8]) -> Pulled
        requires { 0 < length buf.old }
        ensures piece { IsPiece result (length buf.new) }
        ensures gives { Gives (S.left self.old.inner) (S.left self.new.inner) (pulled result buf.new) }
        ensures kept { Keeps self.old.tape self.new.tape (pulled result buf.new) }
        ensures end { result ≡ Pulled.End → IfSome (S.left self.old.inner) (λ bytes. bytes ≡ []) }
        ensures faults_stay { S.faults self.old.inner ≤ S.faults self.new.inner }
        ensures faults_fit { S.faults self.new.inner < 2 ^ 64 }
        ensures failed { result ≡ Pulled.Failed → Rose (S.faults self.old.inner) (S.faults self.new.inner) }
        ensures failures { S.failures self.new.inner ≡ failures_after result (S.failures self.old.inner) }
        ensures failures_fit { S.failures self.new.inner < 2 ^ 64 }
        ensures reads { S.reads self.new.inner ≡ reads_after (S.reads self.old.inner) }
    {
        let room = self.make_room(buf.len());
        let answer = self.inner.read(buf);
        self.keep(room, given(answer, buf));
        answer
    }
}

/// The bytes that an answer gives, at the front of the buffer.
fn given(answer: Pulled, buf: &[u8]) -> &[u8]
    requires { IsPiece answer (length buf.now) }
    ensures { result.now ≡ pulled answer buf.now }
{
    match answer {
        Pulled::Got(count) => &buf[..count],
        Pulled::End | Pulled::Failed => &buf[..0],
    }
}
