//! A room: one object, many callers, and receipts of one history.
//!
//! A room has an object that keeps a journal. Each caller enters by a pass, in the order of tickets, so that one at a time has the object. To
//! a contract a pass is its room, its caller, the journal that it has seen, and for caller 0 how many passes were made; a room is the object
//! that it was made with. All is safe code over the words and the slot of a table.
#![tactic(auto)]

mod close;
mod enter;
pub mod laws;
mod lock;
mod pass;
mod room;
mod rule;
mod split;
mod view;

pub use pass::Pass;
pub use room::Room;
pub use xi_plain::{Answer, Ask, Object, Query, Receipt, Reply};
