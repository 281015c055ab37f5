ghost use Rattle.std.specs.Prelude.{◌≡◌, ◌++◌, [], ℕ, List};
ghost use Rattle.outside.specs.Source.{source_state};
ghost use Rattle.xi_plain.specs.Journal.{front_entries};
ghost use Rattle.xi_top.specs.Reads.{ReadsLines};
ghost use Rattle.xi_top.specs.Step.{HasAnswered, IsSmall, IsStep, begun_of};
ghost use Rattle.xi_top.specs.InnerRun.{IsHeavier, step_after};

use crate::ending::Ending;
use crate::feed::Intake;
use outside::{Pulled, Source};
use plugin_crew::LineTaker;
use std::alloc::Global;

/// How many bytes one read may give.
const MOST_READ: usize = 4096;

/// What a step of a run came to.
#[derive(Clone, Copy)]
pub enum Stepped {
    /// All that is whole was taken, and the run goes on.
    Goes,
    /// The run ended, with its input or before.
    Ends(Result<(), Ending>),
}

/// A run between two reads: who takes its lines, and what it has begun of a line.
#[derive(Drop)]
pub struct Run<L> {
    pub(crate) taker: L,
    pub(crate) intake: Intake,
}

impl<L: LineTaker> Run<L> {
    /// A run before its first read.
    pub fn new(alloc: Global, taker: L) -> Run<L>
        ensures taker { result.taker ≡ taker }
        ensures small { IsSmall (begun_of result.intake) }
        ensures first { front_entries (L.seen taker) ≡ [] → HasAnswered L.seen [] result }
    {
        Run {
            taker,
            intake: Intake::new(alloc),
        }
    }

    /// Reads once from the source, which may wait, and enters each line that is whole by then. After `Ends` there is no next step.
    pub fn step<S: Source>(&mut self, source: &mut S) -> Stepped
        requires ready { L.ready self.old.taker }
        requires reads { ReadsLines (L.serves self.old.taker) }
        requires small { IsSmall (begun_of self.old.intake) }
        ensures ready { L.ready self.new.taker }
        ensures later { L.later self.old.taker self.new.taker }
        ensures small { result ≡ Stepped.Goes → IsSmall (begun_of self.new.intake) }
        ensures heavier { result ≡ Stepped.Goes → IsHeavier self.old.intake self.new.intake }
        ensures step { (taken : List ℕ) → HasAnswered L.seen taken self.old
            → IsStep L.seen taken (source_state S.left S.faults S.failures S.reads source.old)
            (source_state S.left S.faults S.failures S.reads source.new) self.new result }
    {
        let mut buffer = [0; MOST_READ];
        match source.read(&mut buffer) {
            Pulled::Failed => Stepped::Ends(Err(Ending::SourceFault)),
            Pulled::End => Stepped::Ends(self.intake.finish(&mut self.taker)),
            Pulled::Got(n) => step_after(self.intake.feed(&mut self.taker, &buffer[..n])),
        }
    }

    /// Who took the lines.
    pub fn into_taker(self) -> L
        ensures { result ≡ self.taker }
    {
        let Run { taker, intake: _ } = self;
        taker
    }
}

/// What a step came to whose bytes were taken so.
fn step_after(outcome: Result<(), Ending>) -> Stepped
    ensures { result ≡ step_after outcome }
{
    match outcome {
        Ok(()) => Stepped::Goes,
        Err(ending) => Stepped::Ends(Err(ending)),
    }
}
