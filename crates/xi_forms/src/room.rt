// What a run on threads takes before it begins: memory for its workers, and a room for its session.
ghost use Rattle.std.specs.Prelude.{◌≡◌, ◌≤◌, ◌+◌, [], IfOk, IfErr, vec_len};
ghost use Rattle.core_session.specs.Core.{journal_of, shelf_of, sink_of, terms_of};
ghost use Rattle.room_lock.specs.Room.{first_pass};
ghost use Rattle.xi_top.specs.Alone.{terms_for};

use core_session::Core;
use outside::{Shelf, Sink};
use plugin_session::Errand;
use room_lock::{Pass, Room};
use std::alloc::Global;
use std::sync::OnceLock;
use xi_plain::NoMemory;
use xi_top::TEXT_LIMIT;

/// A word for each worker's errand.
pub fn words_for(alloc: Global, count: usize) -> Result<Vec<OnceLock<Errand>>, NoMemory>
    ensures { IfOk result (λ said. vec_len said ≡ count) }
{
    let mut said = Vec::with_capacity(alloc, count)?;
    for _ in 0..count {
        said.push_reserved(OnceLock::new());
    }
    Ok(said)
}

/// A new session, in a room for so many plugins, and the pass of caller 0. Without memory sink and shelf come back.
pub fn open_room<K: Sink, H: Shelf>(
    alloc: Global,
    sink: K,
    shelf: H,
    plugins: u32,
) -> Result<(Room<Core<K, H>>, Pass), (K, H)>
    requires few { plugins ≤ 64 }
    ensures terms { IfOk result (λ made. terms_of made.0.table.shared.key.first.value ≡ terms_for plugins) }
    ensures empty { IfOk result (λ made. journal_of made.0.table.shared.key.first.value ≡ []) }
    ensures sink { IfOk result (λ made. sink_of made.0.table.shared.key.first.value ≡ sink) }
    ensures shelf { IfOk result (λ made. shelf_of made.0.table.shared.key.first.value ≡ shelf) }
    ensures most { IfOk result (λ made. made.0.table.shared.key.most ≡ plugins + 1) }
    ensures pass { IfOk result (λ made. made.1 ≡ first_pass made.0.table.shared.table_id) }
    ensures back { IfErr result (λ back. (back.0 ≡ sink) × (back.1 ≡ shelf)) }
{
    let core = match Core::make(alloc, sink, shelf, plugins, TEXT_LIMIT) {
        Ok(core) => core,
        Err(back) => return Err(back),
    };
    match Room::make(alloc, core, plugins + 1) {
        Ok(made) => Ok(made),
        Err(core) => {
            let (_journal, sink, shelf) = core.into_parts();
            Err((sink, shelf))
        }
    }
}
