//! What an entry says: the lines that a front end is written of it, what a plugin is answered, and what plugins are told.
//!
//! It knows no document in memory: what a document answered, or why it refused, is handed in as plain data. `specs/Answer.antt` and
//! `specs/Piece.antt` say which messages the front end gets, in which order; `specs/PluginAnswer.antt` what a line of a plugin is
//! answered, and `specs/Notices.antt` what plugins are told. The [`laws`] say of data alone that a piece says its updates and no others,
//! that a result has the id of its request, and that two views have two ids.
#![tactic(auto)]

mod answer;
mod cut;
pub mod laws;
mod notice;
mod numbered;
mod piece;
mod plugin_answer;
mod reply;

pub use notice::{PluginNews, notices_of};
pub use numbered::view_id_of;
pub use piece::{FrontNews, piece_of};
pub use plugin_answer::answer_of;
pub use reply::{FrontReply, PluginReply};
