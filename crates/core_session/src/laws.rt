//! Laws of a session. Each is the type of a function that does nothing.

ghost use Rattle.std.specs.Prelude.{◌≡◌, ◌++◌, List};
ghost use Rattle.session_step.specs.Session.{session_of};
ghost use Rattle.core_session.specs.Core.{journal_of, shelf_of, terms_of};
ghost use Rattle.core_session.specs.Grown.{files_left};
ghost use Rattle.core_session.specs.ObjectLaws.{NothingStopsIt, RefusedExactly};
ghost use Rattle.xi_plain.specs.declared.entry.Entry.{Entry};

use crate::session::Core;
use outside::{Shelf, Sink};
use xi_plain::Object;

/// A line of a plugin is refused exactly where the session before it refuses it, no ask comes too late, and memory does not want.
pub fn refused_exactly()
    ensures { RefusedExactly }
{}

/// An ask that is not refused and does not come too late is an entry that was sent, or lacks memory, where no fault of the sink was counted.
pub fn nothing_stops_it()
    ensures { NothingStopsIt }
{}

/// Where a session is another one after some calls, the files of its shelf are those that the new entries leave of the other's.
pub fn shelf_follows<K: Sink, H: Shelf>(old: &Core<K, H>, new: &Core<K, H>)
    requires { ⟦<Core<K, H> as Object>⟧.grown old.now new.now }
    ensures { (more : List Entry) × (journal_of new.now ≡ journal_of old.now ++ more)
        × (H.files (shelf_of new.now) ≡ files_left (session_of (terms_of old.now) (journal_of old.now)) more (H.files (shelf_of old.now))) }
{}
