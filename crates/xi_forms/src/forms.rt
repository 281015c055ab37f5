ghost use Rattle.std.specs.Prelude.{◌≡◌, ◌↔◌, ◌≤◌, ℕ, [], true, vec_len, None, Some};
ghost use Rattle.outside.specs.Source.{source_state};
ghost use Rattle.outside.specs.Sink.{sink_state};
ghost use Rattle.storm_lines.specs.Forms.{form_in};
ghost use Rattle.xi_forms.specs.Runs.{passage_of, shelf_state};
ghost use Rattle.xi_forms.specs.Forms.{RunsStorm, ServesAlone, ServesOnThreads};

use crate::storm::run_storm;
use crate::threads::run_threads;
use outside::{Gate, Shelf, Sink, Source};
use plain_text::Text;
use std::alloc::Global;
use std::sync::Wait;
use std::thread::Threads;
use storm_lines::{Form, form_of};
use xi_top::{Plugin, Report, run_alone};

/// Does what the program does, by its words: [`run_threads`] without words, [`run_alone`] with the one word `alone`, and [`run_storm`] with
/// `storm N SEED`. With all other words the status is 2, nothing is done, and all that was handed in comes back.
pub fn xi_main<
    S: Source,
    K: Sink + Send,
    H: Shelf + Send,
    P: Plugin + Send,
    G: Gate + Sync,
    R: Threads + Wait + Sync,
>(
    rt: &R,
    alloc: Global,
    words: &[Text],
    source: &mut S,
    sink: K,
    shelf: H,
    plugins: Vec<P>,
    gate: &G,
) -> Report<K, H, P>
    requires few { vec_len plugins ≤ 64 }
    ensures threads { form_in words.now ≡ Some Form.Threads → ServesOnThreads P.told plugins.items result
        (passage_of (source_state S.left S.faults S.failures S.reads) (sink_state K.held K.faults K.failures)
        (shelf_state H.files H.faults) source.old source.new sink result.sink shelf result.shelf) }
    ensures alone { form_in words.now ≡ Some Form.Alone → ServesAlone P.told plugins.items result
        (passage_of (source_state S.left S.faults S.failures S.reads) (sink_state K.held K.faults K.failures)
        (shelf_state H.files H.faults) source.old source.new sink result.sink shelf result.shelf) }
    ensures storm { (count seed : ℕ) → form_in words.now ≡ Some (Form.Storm count seed)
        → RunsStorm P.told plugins.items result count seed (sink_state K.held K.faults K.failures sink)
        (sink_state K.held K.faults K.failures result.sink) }
    ensures storm_apart { (count seed : ℕ) → form_in words.now ≡ Some (Form.Storm count seed)
        → (result.shelf ≡ shelf) × (source.new ≡ source.old) }
    ensures other { (result.status ≡ 2) ↔ (form_in words.now ≡ None) }
    ensures nothing { form_in words.now ≡ None → (result.journal.items ≡ []) × (result.sink ≡ sink) × (result.shelf ≡ shelf)
        × (source.new ≡ source.old) × (result.plugins ≡ plugins) × (result.all_served ≡ true) }
{
    match form_of(words) {
        Some(Form::Threads) => run_threads(rt, alloc, source, sink, shelf, plugins, gate),
        Some(Form::Alone) => run_alone(alloc, source, sink, shelf, plugins),
        Some(Form::Storm { count, seed }) => run_storm(alloc, count, seed, sink, shelf, plugins),
        None => refused(alloc, sink, shelf, plugins),
    }
}

/// The report where the words are no form.
fn refused<K, H, P>(alloc: Global, sink: K, shelf: H, plugins: Vec<P>) -> Report<K, H, P>
    ensures status { result.status ≡ 2 }
    ensures empty { result.journal.items ≡ [] }
    ensures same { (result.sink ≡ sink) × (result.shelf ≡ shelf) × (result.plugins ≡ plugins) }
    ensures all { result.all_served ≡ true }
{
    Report {
        status: 2,
        journal: Vec::new(alloc),
        sink,
        shelf,
        plugins,
        all_served: true,
    }
}
