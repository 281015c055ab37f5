//! The lines of plugins: what a line of a plugin asks, and the lines that tell a plugin what happened.
//!
//! A line is bytes to a contract, and what it says is data. `specs/Told.antt` says which value of JSON a notice is, and
//! `specs/Hearing.antt` says on its own what a plugin takes from a line; the [`laws`] say of data alone that each notice reads back as
//! the same, and that no notice is an answer and no answer a notice.
#![tactic(auto)]

mod acts;
mod ask;
mod delta_value;
pub mod laws;
mod member;
mod method;
mod read_delta;
mod read_spans;
mod values;
mod write;

pub use ask::ask_of;
pub use write::{buffer_line, close_line, notice_line, start_line, stop_line};
