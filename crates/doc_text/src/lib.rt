//! The text of a document: what the edits of a front end and of plugins make of it, of its undo groups and its run of typing, what the
//! sessions of plugins acknowledge, which old groups are collected, and what is read of it. No view of it is here.
//!
//! A contract says of a [`TextState`] which plain texts it stands for: `specs/Writing.antt` has the plain text, with its history, groups and
//! sessions; `specs/Asking.antt` has what is asked of it and why that is refused, `specs/Revisions.antt` what an edit, an undo, a redo or
//! a save leaves of it, `specs/Collecting.antt` what sessions and collections leave, and `specs/Notices.antt` what plugins are told.
#![tactic(auto)]

mod chunk;
mod collecting;
mod engine_step;
mod fault;
pub mod laws;
mod reading;
mod revised;
mod text;

pub use edit_groups::{Kind, Typing};
pub use fault::DocFault;
pub use revised::Revised;
pub use stale_spans::Misplaced;
pub use text::TextState;
