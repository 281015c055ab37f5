ghost use Rattle.std.specs.Prelude.{◌≡◌, ◌≤◌, [], List, length, vec_len, IfOk, IfErr};
ghost use Rattle.outside.specs.Source.{source_state};
ghost use Rattle.outside.specs.Sink.{sink_state};
ghost use Rattle.core_session.specs.Core.{journal_of, shelf_of, sink_of, terms_of};
ghost use Rattle.core_session.specs.Shelves.{shelf_state};
ghost use Rattle.plugin_crew.specs.Member.{AreNew, begun_of};
ghost use Rattle.xi_top.specs.Alone.{terms_for};
ghost use Rattle.xi_top.specs.Run.{IsReadByCount, RunsAlone, passage_of};
ghost use Rattle.xi_top.specs.InTime.{AnswersInTime};
ghost use Rattle.xi_top.specs.Turns.{TakesTurns};
ghost use Rattle.xi_top.specs.Unstarted.{IsUnstarted};

use crate::run::Report;
use crate::serving::serve;
use crate::status::status_for;
use crate::step::Run;
use core_session::Core;
use outside::{Shelf, Sink, Source};
use plugin_crew::{AloneFront, Crew};
use plugin_session::Plugin;
use std::alloc::Global;

/// The most characters that may be inserted into a document.
pub const TEXT_LIMIT: u64 = 1 << 40;

/// A run that has ended, with its session as it is then.
#[derive(Drop)]
pub struct Ran<K, H, P> {
    pub core: Core<K, H>,
    /// That of a [`Report`].
    pub status: u8,
    /// The plugins that were handed in, in their order.
    pub plugins: Vec<P>,
    /// Whether memory was wanting for none of them.
    pub all_served: bool,
}

impl<K: Sink, H: Shelf, P: Plugin> Ran<K, H, P> {
    /// The same, with the session taken apart.
    pub fn into_report(self) -> Report<K, H, P>
        ensures status { result.status ≡ self.status }
        ensures journal { result.journal.items ≡ journal_of self.core }
        ensures sink { result.sink ≡ sink_of self.core }
        ensures shelf { result.shelf ≡ shelf_of self.core }
        ensures plugins { (result.plugins ≡ self.plugins) × (result.all_served ≡ self.all_served) }
    {
        let Ran {
            core,
            status,
            plugins,
            all_served,
        } = self;
        let (journal, sink, shelf) = core.into_parts();
        Report {
            status,
            journal,
            sink,
            shelf,
            plugins,
            all_served,
        }
    }
}

/// Does what [`run_alone`](crate::run_alone) does, and keeps the session. Where there was no memory to begin, it is the report of that.
pub fn run_core<S: Source, K: Sink, H: Shelf, P: Plugin>(
    alloc: Global,
    source: &mut S,
    sink: K,
    shelf: H,
    plugins: Vec<P>,
) -> Result<Ran<K, H, P>, Report<K, H, P>>
    requires few { vec_len plugins ≤ 64 }
    ensures ran { IfOk result (λ ran. RunsAlone (length plugins.items)
        (passage_of (source_state S.left S.faults S.failures S.reads) (sink_state K.held K.faults K.failures)
        (shelf_state H.files H.faults) source.old source.new sink (sink_of ran.core) shelf (shelf_of ran.core))
        (journal_of ran.core) ran.status) }
    ensures reads { IfOk result (λ ran. IsReadByCount (source_state S.left S.faults S.failures S.reads source.old)
        (source_state S.left S.faults S.failures S.reads source.new) ran.status) }
    ensures in_time { IfOk result (λ ran. AnswersInTime (length plugins.items)
        (passage_of (source_state S.left S.faults S.failures S.reads) (sink_state K.held K.faults K.failures)
        (shelf_state H.files H.faults) source.old source.new sink (sink_of ran.core) shelf (shelf_of ran.core))
        (journal_of ran.core)) }
    ensures turns { IfOk result (λ ran. TakesTurns P.told plugins.items ran.plugins.items (journal_of ran.core) ran.all_served) }
    ensures terms { IfOk result (λ ran. terms_of ran.core ≡ terms_for (length plugins.items)) }
    ensures unstarted { IfErr result (λ report. IsUnstarted sink shelf plugins.items report × (source.new ≡ source.old)) }
{
    let count = plugins.len() as u32;
    let crew = match Crew::of(alloc, plugins) {
        Ok(crew) => crew,
        Err(plugins) => return Err(unstarted(alloc, sink, shelf, plugins)),
    };
    match Core::make(alloc, sink, shelf, count, TEXT_LIMIT) {
        Ok(core) => Ok(serve_all(alloc, source, core, crew)),
        Err((sink, shelf)) => Err(unstarted(alloc, sink, shelf, crew.into_plugins())),
    }
}

/// The report of a run that never began, for want of memory.
pub fn unstarted<K, H, P>(alloc: Global, sink: K, shelf: H, plugins: Vec<P>) -> Report<K, H, P>
    ensures { IsUnstarted sink shelf plugins.items result }
{
    Report {
        status: 3,
        journal: Vec::new(alloc),
        sink,
        shelf,
        all_served: plugins.is_empty(),
        plugins,
    }
}

/// Serves the front end and the plugins, from the first turns to the last ones.
fn serve_all<S: Source, K: Sink, H: Shelf, P: Plugin>(
    alloc: Global,
    source: &mut S,
    core: Core<K, H>,
    crew: Crew<P>,
) -> Ran<K, H, P>
    requires made { terms_of core ≡ terms_for (length crew.members.items) }
    requires empty { journal_of core ≡ [] }
    requires new { (plugins : List P) × AreNew 1 plugins crew.members.items }
    ensures ran { RunsAlone (length crew.members.items)
        (passage_of (source_state S.left S.faults S.failures S.reads) (sink_state K.held K.faults K.failures)
        (shelf_state H.files H.faults) source.old source.new (sink_of core) (sink_of result.core) (shelf_of core) (shelf_of result.core))
        (journal_of result.core) result.status }
    ensures reads { IsReadByCount (source_state S.left S.faults S.failures S.reads source.old)
        (source_state S.left S.faults S.failures S.reads source.new) result.status }
    ensures in_time { AnswersInTime (length crew.members.items)
        (passage_of (source_state S.left S.faults S.failures S.reads) (sink_state K.held K.faults K.failures)
        (shelf_state H.files H.faults) source.old source.new (sink_of core) (sink_of result.core) (shelf_of core) (shelf_of result.core))
        (journal_of result.core) }
    ensures turns { TakesTurns P.told (begun_of crew.members.items) result.plugins.items (journal_of result.core) result.all_served }
    ensures terms { terms_of result.core ≡ terms_of core }
{
    let front = AloneFront::start(alloc, core, crew);
    let mut run = Run::new(alloc, front);
    let outcome = serve(source, &mut run);
    let Run { taker, intake: _ } = run;
    let mut last = taker;
    last.close();
    let (core, crew) = last.into_parts();
    let status = status_for(outcome, core.journal());
    let all_served = crew.all_served();
    Ran {
        core,
        status,
        plugins: crew.into_plugins(),
        all_served,
    }
}
