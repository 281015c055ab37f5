ghost use Rattle.std.specs.Prelude.{◌≡◌, ◌≤◌, ◌<◌, ◌⊎◌, [], length, vec_len};
ghost use Rattle.outside.specs.Sink.{sink_state};
ghost use Rattle.xi_plain.specs.Journal.{IsLegal};
ghost use Rattle.session_step.specs.Accepted.{AreAccepted};
ghost use Rattle.core_session.specs.Core.{journal_of, sink_of, terms_of};
ghost use Rattle.xi_top.specs.Alone.{terms_for};
ghost use Rattle.xi_top.specs.Turns.{TakesTurns};
ghost use Rattle.xi_forms.specs.InnerStorm.{TellsAs, TellsRun};
ghost use Rattle.xi_forms.specs.Storm.{EndsStorm};

use crate::summary::summary_of;
use crate::write::write_piece;
use outside::{CalmShelf, CalmSink, Shelf, Sink};
use plain_text::NoMemory;
use std::alloc::Global;
use storm_lines::{StormSource, Summary};
use xi_top::{Plugin, Ran, Report, run_core};

/// Runs the storm of so many lines with this seed between calm ends in memory, and tells its summary to the sink as one piece. The shelf comes
/// back as it is. It waits for nobody, and comes back where each turn does. The status is 0; 3 for want of memory, where the sink was told
/// nothing; or 5 where the sink failed.
pub fn run_storm<K: Sink, H: Shelf, P: Plugin>(
    alloc: Global,
    count: u32,
    seed: u64,
    sink: K,
    shelf: H,
    plugins: Vec<P>,
) -> Report<K, H, P>
    requires few { vec_len plugins ≤ 64 }
    ensures ends { EndsStorm count seed (length plugins.items) (sink_state K.held K.faults K.failures sink)
        (sink_state K.held K.faults K.failures result.sink) result.journal.items result.status }
    ensures legal { (result.journal.items ≡ []) ⊎ IsLegal (length plugins.items) result.journal.items }
    ensures accepted { ∥ AreAccepted (terms_for (length plugins.items)) result.journal.items ∥₁ }
    ensures turns { TakesTurns P.told plugins.items result.plugins.items result.journal.items result.all_served }
    ensures shelf { result.shelf ≡ shelf }
{
    let mut source = StormSource::new(count, seed);
    let inner = CalmSink::new(alloc);
    match run_core(alloc, &mut source, inner, CalmShelf::new(alloc), plugins) {
        Ok(ran) => told(alloc, ran, sink, shelf),
        Err(report) => untold(report, sink, shelf),
    }
}

/// The report of a storm that was run.
fn told<K: Sink, H, P: Plugin>(
    alloc: Global,
    ran: Ran<CalmSink, CalmShelf, P>,
    sink: K,
    shelf: H,
) -> Report<K, H, P>
    ensures tells { TellsRun (terms_of ran.core) (journal_of ran.core) (sink_of ran.core).held ran.status
        (sink_state K.held K.faults K.failures sink) (sink_state K.held K.faults K.failures result.sink) result.status }
    ensures journal { result.journal.items ≡ journal_of ran.core }
    ensures plugins { (result.plugins ≡ ran.plugins) × (result.all_served ≡ ran.all_served) }
    ensures shelf { result.shelf ≡ shelf }
{
    let mut sink = sink;
    let status = tell(alloc, &ran, &mut sink);
    let report = ran.into_report();
    Report {
        status,
        journal: report.journal,
        sink,
        shelf,
        plugins: report.plugins,
        all_served: report.all_served,
    }
}

/// The report of a storm that never began.
fn untold<K, H, P>(report: Report<CalmSink, CalmShelf, P>, sink: K, shelf: H) -> Report<K, H, P>
    ensures status { result.status ≡ report.status }
    ensures journal { result.journal ≡ report.journal }
    ensures sink { result.sink ≡ sink }
    ensures shelf { result.shelf ≡ shelf }
    ensures plugins { (result.plugins ≡ report.plugins) × (result.all_served ≡ report.all_served) }
{
    Report {
        status: report.status,
        journal: report.journal,
        sink,
        shelf,
        plugins: report.plugins,
        all_served: report.all_served,
    }
}

/// Tells the summary of a run, and gives the status of the storm.
fn tell<K: Sink, P>(alloc: Global, ran: &Ran<CalmSink, CalmShelf, P>, sink: &mut K) -> u8
    ensures { TellsRun (terms_of ran.now.core) (journal_of ran.now.core) (sink_of ran.now.core).held ran.now.status
        (sink_state K.held K.faults K.failures sink.old) (sink_state K.held K.faults K.failures sink.new) result }
{
    if ran.status != 0 {
        return 3;
    }
    match summary_of(alloc, &ran.core) {
        Ok(summary) => tell_summary(alloc, &summary, sink),
        Err(NoMemory) => 3,
    }
}

/// Tells a summary as one piece.
fn tell_summary<K: Sink>(alloc: Global, summary: &Summary, sink: &mut K) -> u8
    ensures { TellsAs summary.now (sink_state K.held K.faults K.failures sink.old)
        (sink_state K.held K.faults K.failures sink.new) result }
{
    match summary.text(alloc) {
        Ok(text) => status_of(
            write_piece(sink, text.as_str().as_bytes()),
            text.as_str().len(),
        ),
        Err(NoMemory) => 3,
    }
}

/// The status where so many bytes were taken of so many.
fn status_of(taken: usize, len: usize) -> u8
    requires { taken ≤ len }
    ensures { ((result ≡ 0) × (taken ≡ len)) ⊎ ((result ≡ 5) × (taken < len)) }
{
    if taken == len { 0 } else { 5 }
}
