ghost use Rattle.std.specs.Prelude.{◌≡◌, ℕ, ◌≤◌, None, Some, [], IfOk, IfErr, length};
ghost use Rattle.outside.specs.Sink.{sink_state};
ghost use Rattle.plain_text.specs.InputLines.{lines_of};
ghost use Rattle.session_step.specs.Session.{first_session, written};
ghost use Rattle.core_session.specs.Core.{journal_of, terms_of};
ghost use Rattle.core_session.specs.Grown.{IsGrown};
ghost use Rattle.core_session.specs.Object.{state_of};
ghost use Rattle.core_session.specs.Serves.{IsSessionJournal};
ghost use Rattle.core_session.specs.Shows.{Shows};
ghost use Rattle.journal_replay.specs.Follow.{first_point};
ghost use Rattle.journal_replay.specs.Inner.{IsPlayed};
ghost use Rattle.journal_replay.specs.Replay.{Replays, replay_terms};

use crate::entering::{Entered, enter, is_closing, lines_left};
use crate::note_shelf::NoteShelf;
use core_session::Core;
use outside::{Shelf, Sink};
use plain_text::Bytes;
use std::alloc::Global;
use xi_plain::Entry;

/// The most characters that may be inserted into a document.
const TEXT_LIMIT: u64 = 1 << 40;

/// Why a replay stopped.
#[derive(Clone, Copy, Debug, PartialEq, Eq)]
pub enum ReplayFault {
    /// The entry with this index, counted from 0, is the first that does not follow.
    Differs(u64),
    /// The sink failed.
    SinkFault,
    /// Memory ran out.
    NoMemory,
}

/// Plays a journal again, of so many plugins: the front end's entries are the lines of the tape, one after the other, and the plugins' are
/// written and read again; all are entered on this thread, in the order of the journal, and the shelf answers what the notes say. Whether an
/// entry was sent is passed over, and what the tape has behind the last line that is needed too. The sink is given back. The cost is that of
/// the run, and one copy of the line of each command of a plugin.
pub fn replay<K: Sink>(
    alloc: Global,
    tape: &Bytes,
    journal: &[Entry],
    plugins: u32,
    sink: K,
) -> Result<K, (ReplayFault, K)>
    ensures ok { IfOk result (λ after. Replays plugins tape.now journal.now
        (sink_state K.held K.faults K.failures sink) (sink_state K.held K.faults K.failures after) None) }
    ensures shows { IfOk result (λ _. ∥ Shows (replay_terms plugins) journal.now (written (first_session (replay_terms plugins)) journal.now) ∥₁) }
    ensures err { IfErr result (λ back. Replays plugins tape.now journal.now
        (sink_state K.held K.faults K.failures sink) (sink_state K.held K.faults K.failures back.1) (Some back.0)) }
{
    let mut core = match Core::make(alloc, sink, NoteShelf::new(journal), plugins, TEXT_LIMIT) {
        Ok(core) => core,
        Err((sink, _shelf)) => return Err((ReplayFault::NoMemory, sink)),
    };
    let stopped = play(alloc, &mut core, plugins, tape.as_slice(), journal);
    let (_journal, sink, _shelf) = core.into_parts();
    match stopped {
        None => Ok(sink),
        Some(fault) => Err((fault, sink)),
    }
}

/// Enters the entries into a session that has none, up to the first that stops this.
fn play<K: Sink, H: Shelf>(
    alloc: Global,
    core: &mut Core<K, H>,
    plugins: u32,
    tape: &[u8],
    journal: &[Entry],
) -> Option<ReplayFault>
    requires plugins { plugins ≡ (terms_of core.old).plugins }
    requires empty { journal_of core.old ≡ [] }
    ensures played { IsPlayed plugins (first_point (terms_of core.old) tape.now) journal.now result (journal_of core.new) }
    ensures terms { terms_of core.new ≡ terms_of core.old }
    ensures lawful { ∥ IsSessionJournal (terms_of core.new) (journal_of core.new) ∥₁ }
    ensures grown { IsGrown (state_of K.held K.faults K.failures H.files H.faults core.old) (state_of K.held K.faults K.failures H.files H.faults core.new) }
{
    let mut lines = tape;
    let mut closed = false;
    for at in 0..journal.len() {
        let entry = &journal[at];
        if closed {
            return Some(ReplayFault::Differs(at as u64));
        }
        match enter(alloc, core, plugins, lines, entry) {
            Entered::Taken => {
                lines = lines_left(lines, entry);
                closed = is_closing(entry);
            }
            Entered::Differs => return Some(ReplayFault::Differs(at as u64)),
            Entered::SinkFault => return Some(ReplayFault::SinkFault),
            Entered::NoMemory => return Some(ReplayFault::NoMemory),
        }
    }
    None
}
