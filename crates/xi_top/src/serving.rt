ghost use Rattle.std.specs.Prelude.{[]};
ghost use Rattle.outside.specs.Source.{source_state};
ghost use Rattle.xi_top.specs.Reads.{ReadsLines};
ghost use Rattle.xi_top.specs.Step.{HasAnswered, IsSmall, begun_of};
ghost use Rattle.xi_top.specs.Served.{IsServed};

use crate::ending::Ending;
use crate::step::{Run, Stepped};
use outside::Source;
use plugin_crew::LineTaker;

/// Steps until one ends the run.
pub fn serve<S: Source, L: LineTaker>(source: &mut S, run: &mut Run<L>) -> Result<(), Ending>
    requires ready { L.ready run.old.taker }
    requires reads { ReadsLines (L.serves run.old.taker) }
    requires small { IsSmall (begun_of run.old.intake) }
    requires first { HasAnswered L.seen [] run.old }
    ensures ready { L.ready run.new.taker }
    ensures later { L.later run.old.taker run.new.taker }
    ensures served { IsServed L.seen L.later L.ready (source_state S.left S.faults S.failures S.reads source.old)
        (source_state S.left S.faults S.failures S.reads source.new) run.old.taker run.new.taker result }
{
    loop {
        match run.step(source) {
            Stepped::Goes => {}
            Stepped::Ends(outcome) => return outcome,
        }
    }
}
