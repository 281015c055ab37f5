ghost use Rattle.std.specs.Prelude.{◌≡◌, ℕ, ◌+◌, ◌<◌, ◌≤◌, ◌++◌, List, [], length, OnOk};
ghost use Rattle.xi_top.specs.Ending.{most_lines};
ghost use Rattle.xi_top.specs.Reads.{ReadsLines};

use crate::ending::Ending;
use crate::enter::enter;
use memchr::memchr;
use plugin_crew::LineTaker;
use std::alloc::Global;
use std::mem;
use xi_plain::Bytes;

/// The most lines that a run takes.
pub const MOST_LINES: u64 = 1_099_511_627_776;

/// The bytes without LF at which a line is too long.
pub const TOO_LONG: usize = 16_777_216;

/// What stands after the last LF of the bytes that were taken, and how many lines they had before it.
#[derive(Drop)]
pub struct Intake {
    begun: Vec<u8>,
    taken: u64,
    alloc: Global,
}

impl Intake {
    ghost use Rattle.xi_top.specs.InnerRun.{HasTaken, Finishes, GoesOn, IsFed, IsSmall, EndsLine, HasNoEnd, KeepsBytes, Counts, begun_of};

    /// Nothing was taken.
    pub fn new(alloc: Global) -> Intake
        ensures { begun_of result ≡ record { bytes = []; count = 0 } }
    {
        Intake {
            begun: Vec::new(alloc),
            taken: 0,
            alloc,
        }
    }

    /// Enters each line that LF ends in the chunk, and keeps what stands after the last one. After an `Err` the run ends so.
    pub fn feed<L: LineTaker>(&mut self, taker: &mut L, chunk: &[u8]) -> Result<(), Ending>
        requires ready { L.ready taker.old }
        requires reads { ReadsLines (L.serves taker.old) }
        requires small { IsSmall (begun_of self.old) }
        ensures ready { L.ready taker.new }
        ensures later { L.later taker.old taker.new }
        ensures fed { OnOk result (IsFed (begun_of self.old) (begun_of self.new) chunk.now) }
        ensures goes { (taken : List ℕ) → HasTaken (L.seen taker.old) taken (begun_of self.old)
            → GoesOn (L.seen taker.new) (taken ++ chunk.now) (begun_of self.new) result }
    {
        let mut rest = chunk;
        while let Some(at) = memchr(b'\n', rest) {
            let (line, later) = rest.split_at(at + 1);
            self.end_line(taker, line)?;
            rest = later;
        }
        self.begin(rest)
    }

    /// Enters the line that these bytes end, of which the last is its LF.
    fn end_line<L: LineTaker>(&mut self, taker: &mut L, ending: &[u8]) -> Result<(), Ending>
        requires ready { L.ready taker.old }
        requires reads { ReadsLines (L.serves taker.old) }
        requires small { IsSmall (begun_of self.old) }
        ensures ready { L.ready taker.new }
        ensures later { L.later taker.old taker.new }
        ensures fed { OnOk result (IsFed (begun_of self.old) (begun_of self.new) ending.now) }
        ensures goes { (taken : List ℕ) → EndsLine ending.now → HasTaken (L.seen taker.old) taken (begun_of self.old)
            → GoesOn (L.seen taker.new) (taken ++ ending.now) (begun_of self.new) result }
    {
        if ending.len() > TOO_LONG - self.begun.len() {
            return Err(Ending::TooLong);
        }
        if self.begun.extend_from_slice(ending).is_err() {
            return Err(Ending::NoMemory);
        }
        enter(taker, self.hand_over())?;
        self.next_line()
    }

    /// The bytes of the line that was begun, which are no longer kept.
    fn hand_over(&mut self) -> Bytes
        ensures line { result ≡ self.old.begun.items }
        ensures none { self.new.begun.items ≡ [] }
        ensures taken { self.new.taken ≡ self.old.taken }
    {
        Bytes::from_vec(mem::replace(&mut self.begun, Vec::new(self.alloc)))
    }

    /// Counts a line.
    fn next_line(&mut self) -> Result<(), Ending>
        requires { self.old.taken < most_lines }
        ensures bytes { self.new.begun.items ≡ self.old.begun.items }
        ensures count { self.new.taken ≡ self.old.taken + 1 }
        ensures counts { Counts (self.old.taken + 1) result }
    {
        self.taken += 1;
        if self.taken == MOST_LINES {
            return Err(Ending::TooMany);
        }
        Ok(())
    }

    /// Keeps the bytes of a line that has not ended.
    fn begin(&mut self, bytes: &[u8]) -> Result<(), Ending>
        requires { IsSmall (begun_of self.old) }
        ensures { KeepsBytes (begun_of self.old) (begun_of self.new) bytes.now result }
    {
        if bytes.is_empty() {
            return Ok(());
        }
        if bytes.len() >= TOO_LONG - self.begun.len() {
            return Err(Ending::TooLong);
        }
        if self.begun.extend_from_slice(bytes).is_err() {
            return Err(Ending::NoMemory);
        }
        Ok(())
    }

    /// Enters what stands after the last LF, where it is not empty, at the input's end.
    pub fn finish<L: LineTaker>(&mut self, taker: &mut L) -> Result<(), Ending>
        requires ready { L.ready taker.old }
        requires reads { ReadsLines (L.serves taker.old) }
        requires small { IsSmall (begun_of self.old) }
        ensures ready { L.ready taker.new }
        ensures later { L.later taker.old taker.new }
        ensures none { (begun_of self.new).bytes ≡ [] }
        ensures finishes { (taken : List ℕ) → HasTaken (L.seen taker.old) taken (begun_of self.old)
            → Finishes taken (L.seen taker.new) result }
    {
        if self.begun.is_empty() {
            return Ok(());
        }
        enter(taker, self.hand_over())
    }
}
