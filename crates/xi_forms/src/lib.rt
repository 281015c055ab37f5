//! What the program does, by the form of its words: a run on threads, a run alone, a storm, or nothing.
//!
//! To a contract words are a list of texts, and `form_in` says which form they are. [`xi_main`] does what the form asks; `specs/Forms.antt` says
//! what each comes to.
//!
//! [`run_threads`] serves the front end on the calling thread, and each plugin on one of its own. All enter at one room, so there is one
//! journal. The headline stands as its contract, with the definitions of a run in turns (`specs/Run.antt` and `specs/Turns.antt` of `xi_top`)
//! but those of the order of turns. `specs/InTime.antt` says that each line is entered before the next read.
//!
//! [`run_storm`] runs the lines of a storm as those of a front end are, between calm ends in memory; what is told of it is read off the
//! document and the bytes that were written. `specs/Summary.antt` says what the six numbers are, and `specs/Storm.antt` what the run comes
//! to. The runs of `xi_top`, and what they come to (`specs/Runs.antt`), are handed on.
#![tactic(auto)]

mod forms;
mod front;
mod room;
mod storm;
mod summary;
mod threads;
mod write;

pub use forms::xi_main;
pub use storm::run_storm;
pub use storm_lines::{Form, form_of};
pub use threads::run_threads;
pub use xi_top::{Entry, Plugin, Report};
