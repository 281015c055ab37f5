ghost use Rattle.xi_top.specs.Alone.{terms_for};
ghost use Rattle.std.specs.Prelude.{◌≤◌, length, vec_len};
ghost use Rattle.outside.specs.Source.{source_state};
ghost use Rattle.outside.specs.Sink.{sink_state};
ghost use Rattle.core_session.specs.Shelves.{HoldsSaves, shelf_state};
ghost use Rattle.xi_top.specs.Run.{HasCauses, IsReadByCount, RunsAlone, passage_of};
ghost use Rattle.xi_top.specs.InTime.{AnswersInTime};
ghost use Rattle.xi_top.specs.Written.{IsWrittenByCount};
ghost use Rattle.xi_top.specs.Calm.{IsCalm, EndsWell};
ghost use Rattle.xi_top.specs.Turns.{TakesTurns};

use crate::ran::run_core;
use outside::{Shelf, Sink, Source};
use plugin_session::Plugin;
use std::alloc::Global;
use xi_plain::Entry;

/// What a run came to.
#[derive(Drop)]
pub struct Report<K, H, P = Box<dyn Plugin + Send>> {
    /// 0 where the input was read to its end; 2 where the words ask for no run, and nothing was read or written; 3 for want of
    /// memory; 4 where the source failed, and 5 where an entry was not sent, since the sink failed; 6 where 2^40 lines were taken; 7
    /// where a line had 2^24 bytes without LF.
    pub status: u8,
    /// The entries, of which the last is the closing entry; empty with status 2, and where the core was never made.
    pub journal: Vec<Entry>,
    pub sink: K,
    pub shelf: H,
    /// The plugins that were handed in, in their order.
    pub plugins: Vec<P>,
    /// False only where want of memory ended the session of a plugin, or kept it from starting.
    pub all_served: bool,
}

/// Serves one front end on the calling thread, from its first byte to the closing entry, and the plugins between its lines: each has its first
/// turn before the first line; after each line that was taken, and sent, and again after the closing entry, each plugin whose session goes
/// on has a turn, in their order, where there is a line for it. It comes back where each turn does. Where neither count of faults rises, and
/// the input has fewer than 2^40 lines of fewer than 2^24 bytes each, the status is 0, or 3 for want of memory.
pub fn run_alone<S: Source, K: Sink, H: Shelf, P: Plugin>(
    alloc: Global,
    source: &mut S,
    sink: K,
    shelf: H,
    plugins: Vec<P>,
) -> Report<K, H, P>
    requires few { vec_len plugins ≤ 64 }
    ensures headline { RunsAlone (length plugins.items)
        (passage_of (source_state S.left S.faults S.failures S.reads) (sink_state K.held K.faults K.failures)
        (shelf_state H.files H.faults) source.old source.new sink result.sink shelf result.shelf)
        result.journal.items result.status }
    ensures causes { HasCauses
        (passage_of (source_state S.left S.faults S.failures S.reads) (sink_state K.held K.faults K.failures)
        (shelf_state H.files H.faults) source.old source.new sink result.sink shelf result.shelf)
        result.journal.items result.status }
    ensures saves { HoldsSaves (terms_for (length plugins.items))
        (shelf_state H.files H.faults shelf) (shelf_state H.files H.faults result.shelf) result.journal.items }
    ensures writes { IsWrittenByCount (terms_for (length plugins.items))
        (sink_state K.held K.faults K.failures sink) (sink_state K.held K.faults K.failures result.sink)
        result.journal.items result.status }
    ensures reads { IsReadByCount
        (source_state S.left S.faults S.failures S.reads source.old) (source_state S.left S.faults S.failures S.reads source.new)
        result.status }
    ensures in_time { AnswersInTime (length plugins.items)
        (passage_of (source_state S.left S.faults S.failures S.reads) (sink_state K.held K.faults K.failures)
        (shelf_state H.files H.faults) source.old source.new sink result.sink shelf result.shelf)
        result.journal.items }
    ensures turns { TakesTurns P.told plugins.items result.plugins.items result.journal.items result.all_served }
    ensures complete { IsCalm
        (passage_of (source_state S.left S.faults S.failures S.reads) (sink_state K.held K.faults K.failures)
        (shelf_state H.files H.faults) source.old source.new sink result.sink shelf result.shelf)
        → EndsWell result.status }
{
    run(alloc, source, sink, shelf, plugins)
}

fn run<S: Source, K: Sink, H: Shelf, P: Plugin>(
    alloc: Global,
    source: &mut S,
    sink: K,
    shelf: H,
    plugins: Vec<P>,
) -> Report<K, H, P>
    requires few { vec_len plugins ≤ 64 }
    ensures alone { RunsAlone (length plugins.items)
        (passage_of (source_state S.left S.faults S.failures S.reads) (sink_state K.held K.faults K.failures)
        (shelf_state H.files H.faults) source.old source.new sink result.sink shelf result.shelf)
        result.journal.items result.status }
    ensures reads { IsReadByCount
        (source_state S.left S.faults S.failures S.reads source.old) (source_state S.left S.faults S.failures S.reads source.new)
        result.status }
    ensures in_time { AnswersInTime (length plugins.items)
        (passage_of (source_state S.left S.faults S.failures S.reads) (sink_state K.held K.faults K.failures)
        (shelf_state H.files H.faults) source.old source.new sink result.sink shelf result.shelf)
        result.journal.items }
    ensures turns { TakesTurns P.told plugins.items result.plugins.items result.journal.items result.all_served }
{
    match run_core(alloc, source, sink, shelf, plugins) {
        Ok(ran) => ran.into_report(),
        Err(report) => report,
    }
}
