//! A journal that is played again: the same screens on one thread, from the tape of what the front end sent and the journal of the run.
//!
//! `specs/Follow.antt` says which entries follow on a tape, and `specs/Replay.antt` what a replay comes to by its answer. [`replay`] enters the
//! lines of the tape and what the plugins asked into a session, in the order of the journal; its files are a [`NoteShelf`], which answers what
//! the journal's notes say. The [`laws`] say that each answer has its cause, and that the journal of a run follows on the run's own tape.
#![tactic(auto)]

mod entering;
pub mod laws;
mod note_shelf;
mod replaying;

pub use note_shelf::NoteShelf;
pub use replaying::{ReplayFault, replay};
pub use xi_plain::Entry;
