//! The law of served turns over a session: what a visit of a plugin comes to, where the session is its caller's alone, and in a room.
//!
//! What `plugin_session` says of any door is said here of a session by the words of the session: which journals serve the visits of a plugin is
//! said by what one call of a session does, and by what a look is answered.
#![tactic(auto)]

mod alone;
mod room;

pub use alone::visit_alone;
pub use room::visit_in_room;
