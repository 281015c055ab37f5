ghost use Rattle.std.specs.Prelude.{◌≡◌, ◌≤◌, length, vec_len, IfOk, IfErr};
ghost use Rattle.outside.specs.Source.{source_state};
ghost use Rattle.outside.specs.Sink.{sink_state};
ghost use Rattle.core_session.specs.Core.{journal_of, shelf_of, sink_of};
ghost use Rattle.core_session.specs.Shelves.{HoldsSaves, shelf_state};
ghost use Rattle.xi_top.specs.Alone.{terms_for};
ghost use Rattle.xi_top.specs.Run.{HasCauses, IsReadByCount, RunsAlone, passage_of};
ghost use Rattle.xi_top.specs.Written.{IsWrittenByCount};
ghost use Rattle.xi_top.specs.Calm.{IsCalm, EndsWell};
ghost use Rattle.xi_top.specs.Turns.{ServesPlugins};
ghost use Rattle.xi_top.specs.Unstarted.{IsUnstarted};
ghost use Rattle.xi_forms.specs.InTime.{EntersInTime};

use crate::front::serve_all;
use crate::room::{open_room, words_for};
use outside::{Gate, Shelf, Sink, Source};
use plugin_crew::Back;
use plugin_session::Plugin;
use std::alloc::Global;
use std::sync::Wait;
use std::thread::Threads;
use xi_top::{Ran, Report, status_for, unstarted};

/// Serves one front end on the calling thread, from its first byte to the closing entry, and each plugin on a thread of its own: it has turns
/// while there is something for it, and the last one after the closing entry. A plugin whose thread could not be started is served on the
/// calling thread instead. All enter at one room, one at a time; the output is written by whichever entry comes, on its thread. The gate is
/// passed by each worker before each turn, and before and after each ask.
///
/// It comes back where each turn does, and where each call at the room is served: no clause says that one is. Where neither count of faults
/// rises, and the input has fewer than 2^40 lines of fewer than 2^24 bytes each, the status is 0, or 3 for want of memory.
pub fn run_threads<
    S: Source,
    K: Sink + Send,
    H: Shelf + Send,
    P: Plugin + Send,
    G: Gate + Sync,
    R: Threads + Wait + Sync,
>(
    rt: &R,
    alloc: Global,
    source: &mut S,
    sink: K,
    shelf: H,
    plugins: Vec<P>,
    gate: &G,
) -> Report<K, H, P>
    requires few { vec_len plugins ≤ 64 }
    ensures headline { RunsAlone (length plugins.items)
        (passage_of (source_state S.left S.faults S.failures S.reads) (sink_state K.held K.faults K.failures)
        (shelf_state H.files H.faults) source.old source.new sink result.sink shelf result.shelf)
        result.journal.items result.status }
    ensures causes { HasCauses
        (passage_of (source_state S.left S.faults S.failures S.reads) (sink_state K.held K.faults K.failures)
        (shelf_state H.files H.faults) source.old source.new sink result.sink shelf result.shelf)
        result.journal.items result.status }
    ensures saves { HoldsSaves (terms_for (length plugins.items))
        (shelf_state H.files H.faults shelf) (shelf_state H.files H.faults result.shelf) result.journal.items }
    ensures writes { IsWrittenByCount (terms_for (length plugins.items))
        (sink_state K.held K.faults K.failures sink) (sink_state K.held K.faults K.failures result.sink)
        result.journal.items result.status }
    ensures reads { IsReadByCount
        (source_state S.left S.faults S.failures S.reads source.old) (source_state S.left S.faults S.failures S.reads source.new)
        result.status }
    ensures in_time { EntersInTime
        (source_state S.left S.faults S.failures S.reads source.old) (source_state S.left S.faults S.failures S.reads source.new)
        result.journal.items }
    ensures turns { ServesPlugins P.told plugins.items result.plugins.items result.journal.items result.all_served }
    ensures complete { IsCalm
        (passage_of (source_state S.left S.faults S.failures S.reads) (sink_state K.held K.faults K.failures)
        (shelf_state H.files H.faults) source.old source.new sink result.sink shelf result.shelf)
        → EndsWell result.status }
{
    run(rt, alloc, source, sink, shelf, plugins, gate)
}

// The same, by the clauses that the others follow from.
fn run<
    S: Source,
    K: Sink + Send,
    H: Shelf + Send,
    P: Plugin + Send,
    G: Gate + Sync,
    R: Threads + Wait + Sync,
>(
    rt: &R,
    alloc: Global,
    source: &mut S,
    sink: K,
    shelf: H,
    plugins: Vec<P>,
    gate: &G,
) -> Report<K, H, P>
    requires few { vec_len plugins ≤ 64 }
    ensures ran { RunsAlone (length plugins.items)
        (passage_of (source_state S.left S.faults S.failures S.reads) (sink_state K.held K.faults K.failures)
        (shelf_state H.files H.faults) source.old source.new sink result.sink shelf result.shelf)
        result.journal.items result.status }
    ensures reads { IsReadByCount
        (source_state S.left S.faults S.failures S.reads source.old) (source_state S.left S.faults S.failures S.reads source.new)
        result.status }
    ensures in_time { EntersInTime
        (source_state S.left S.faults S.failures S.reads source.old) (source_state S.left S.faults S.failures S.reads source.new)
        result.journal.items }
    ensures turns { ServesPlugins P.told plugins.items result.plugins.items result.journal.items result.all_served }
{
    match run_core(rt, alloc, source, sink, shelf, plugins, gate) {
        Ok(ran) => ran.into_report(),
        Err(report) => report,
    }
}

// The same, with the session as it is at the end. All memory for the workers is taken before the room is made; where it is wanting, it is the
// report of a run that never began.
fn run_core<
    S: Source,
    K: Sink + Send,
    H: Shelf + Send,
    P: Plugin + Send,
    G: Gate + Sync,
    R: Threads + Wait + Sync,
>(
    rt: &R,
    alloc: Global,
    source: &mut S,
    sink: K,
    shelf: H,
    plugins: Vec<P>,
    gate: &G,
) -> Result<Ran<K, H, P>, Report<K, H, P>>
    requires few { vec_len plugins ≤ 64 }
    ensures ran { IfOk result (λ ran. RunsAlone (length plugins.items)
        (passage_of (source_state S.left S.faults S.failures S.reads) (sink_state K.held K.faults K.failures)
        (shelf_state H.files H.faults) source.old source.new sink (sink_of ran.core) shelf (shelf_of ran.core))
        (journal_of ran.core) ran.status) }
    ensures reads { IfOk result (λ ran. IsReadByCount (source_state S.left S.faults S.failures S.reads source.old)
        (source_state S.left S.faults S.failures S.reads source.new) ran.status) }
    ensures in_time { IfOk result (λ ran. EntersInTime (source_state S.left S.faults S.failures S.reads source.old)
        (source_state S.left S.faults S.failures S.reads source.new) (journal_of ran.core)) }
    ensures turns { IfOk result (λ ran. ServesPlugins P.told plugins.items ran.plugins.items (journal_of ran.core) ran.all_served) }
    ensures unstarted { IfErr result (λ report. IsUnstarted sink shelf plugins.items report × (source.new ≡ source.old)) }
{
    let count = plugins.len();
    let Ok(said) = words_for(alloc, count) else {
        return Err(unstarted(alloc, sink, shelf, plugins));
    };
    let Ok(back) = Back::with_room(alloc, count) else {
        return Err(unstarted(alloc, sink, shelf, plugins));
    };
    let Ok(posts) = Vec::with_capacity(alloc, count) else {
        return Err(unstarted(alloc, sink, shelf, plugins));
    };
    match open_room(alloc, sink, shelf, count as u32) {
        Ok((room, front)) => {
            let (outcome, back) = serve_all(
                rt, alloc, source, &room, front, plugins, &said, posts, back, gate,
            );
            let done = back.finish(room);
            Ok(Ran {
                status: status_for(outcome, done.object.journal()),
                core: done.object,
                plugins: done.plugins,
                all_served: done.all_served,
            })
        }
        Err((sink, shelf)) => Err(unstarted(alloc, sink, shelf, plugins)),
    }
}
