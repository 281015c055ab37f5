//! A session: its journal, the views that are open, its styles and its configuration, its shelf and its sink.
//!
//! [`Core::front_line`] makes each line of the front end one entry of the journal and one piece of bytes, which is written before the entry
//! stands; [`Core::plugin_line`] does so with each line of a plugin that is not refused, and [`Core::notices`] tells plugins of all entries. The
//! plain session, which is a fold over the journal, is that of `session_step`; `specs/Shows.antt` says what a front end can make of the bytes
//! that were written, `specs/Kept.antt` what a session in memory keeps, `specs/Serves.antt` what a call does, and `specs/Grown.antt` how it grows.
#![tactic(auto)]

mod ask;
pub mod laws;
mod made;
mod object;
mod plugin_made;
mod prepare;
mod session;
mod stage;
mod telling;
mod write;

pub use session::Core;
pub use xi_plain::{Answer, Entry, Reply, ShelfNote};
