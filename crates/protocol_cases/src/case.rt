ghost use Rattle.std.specs.Prelude.{◌≤◌, IfOk, length, vec_len};
ghost use Rattle.xi_top.specs.Run.{RunsAlone};
ghost use Rattle.xi_top.specs.Turns.{TakesTurns};
ghost use Rattle.protocol_cases.specs.Case.{IsJudged, IsCaseOutcome, IsVerdictOn, passage_between, told_turns};

use crate::player::{Player, players_of};
use crate::verdict::{Expected, Verdict, judge};
use case_scripts::{MOST_PLUGINS, ReadFault, Script, read_script};
use outside::{MemShelf, MemSink, MemSource};
use plain_text::{List, NoMemory};
use std::alloc::Global;
use xi_top::{Report, run_alone};

/// A run that was made: its source after it, and its report.
#[derive(Drop)]
pub struct Run {
    pub source: MemSource,
    pub report: Report<MemSink, MemShelf, Player>,
}

/// What became of a case: the run, where the script could be read, and the verdict on it.
#[derive(Drop)]
pub struct Outcome {
    pub run: Option<Run>,
    pub verdict: Verdict,
}

/// Runs the case with this script.
pub fn run_case(alloc: Global, text: &[u8]) -> Result<Outcome, NoMemory>
    ensures { IfOk result (λ outcome. IsCaseOutcome text.now outcome) }
{
    match read_script(alloc, text) {
        Ok(script) => run_script(alloc, script),
        Err(ReadFault::BadLine(line)) => Ok(Outcome {
            run: None,
            verdict: Verdict::BadLine(line),
        }),
        Err(ReadFault::NoMemory) => Err(NoMemory),
    }
}

fn run_script(alloc: Global, script: Script) -> Result<Outcome, NoMemory>
    ensures { IfOk result (λ outcome. IsJudged script outcome) }
{
    let Script {
        input,
        output,
        status,
        shelf,
        turns,
    } = script;
    let shelf_before = shelf.shelf(alloc)?;
    let count = turns.count.min(MOST_PLUGINS);
    let players = players_of(alloc, turns.turns.as_slice(), count)?;
    let (sink, bytes) = output.into_sink(alloc);
    let expected = Expected {
        output: List::from_vec(bytes),
        turns: turns.turns,
        files: shelf.into_files(),
        status,
    };
    let run = made(alloc, input.into_source(), sink, shelf_before, players);
    let verdict = run.verdict(alloc, &expected)?;
    Ok(Outcome {
        run: Some(run),
        verdict,
    })
}

fn made(
    alloc: Global,
    source: MemSource,
    sink: MemSink,
    shelf: MemShelf,
    players: Vec<Player>,
) -> Run
    requires { vec_len players ≤ 64 }
    ensures runs { RunsAlone (length players.items) (passage_between source sink shelf result)
        result.report.journal.items result.report.status }
    ensures turns { TakesTurns told_turns players.items result.report.plugins.items result.report.journal.items
        result.report.all_served }
{
    let mut source = source;
    let report = run_alone(alloc, &mut source, sink, shelf, players);
    Run { source, report }
}

impl Run {
    fn verdict(&self, alloc: Global, expected: &Expected) -> Result<Verdict, NoMemory>
        ensures { IfOk result (λ verdict. IsVerdictOn self.now expected.now verdict) }
    {
        let shelf = self.report.shelf.files();
        match self.report.sink.bytes() {
            Some(got) => judge(
                alloc,
                expected,
                got,
                &self.report.plugins,
                shelf,
                self.report.status,
            ),
            None => Err(NoMemory),
        }
    }
}
