//! The revision engine: one text that many edit, each against the revision that it knows.
//!
//! To a contract an [`Engine`] is a record: the characters that were ever inserted and are kept, in order, the revisions over their
//! positions, the limit, and how many characters were inserted after loading. It *stands for* a history (`StandsFor`), of which it holds
//! what is left, and every contract reads: for every history that the engine stands for before the call, it stands for this one after it.
//! A history forgets nothing, so a collection can't be seen from the floor on. The histories that the calls give are those of
//! `IsGiven`: a loaded text, and steps that were each taken in their turn, edits, sets of groups that were undone, and collections.
//! [`laws::edits_commute`] says that edits of one text may come in any order, and [`laws::undo_is_selective`] that any groups may be undone.
//!
//! An engine keeps its union and its head text as ropes, so that a copy is a few pointers, and an edit against the head walks over
//! neither.
#![tactic(auto)]

mod edit;
mod engine;
mod flat;
pub mod laws;
mod short;
mod step;
mod undo;

pub use edit::{Change, Edit, UnitEdit};
pub use engine::Engine;
pub use plain_edits::EditFault;
pub use undo::UndoFault;
