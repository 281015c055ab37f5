//! A plugin's side of the wire: the lines that it writes, and what it hears in a line.
//!
//! A line is bytes to a contract. `specs/Asking.antt` says which value of JSON a command is, and [`ask_line`] writes its line, which
//! the core reads as the same command; `specs/Heard.antt` says what a plugin takes from a line, by the readings that the core's own
//! lines are proved against, and [`hear`] gives that. The [`laws`] say of data alone that each command reads back, that each notice
//! and each answer is heard as what it is, and that no line is both.
#![tactic(auto)]

mod answer;
mod ask;
mod ask_value;
mod delta_value;
mod heard;
mod hearing;
pub mod laws;
mod line;
mod members;
mod notice;
mod read_delta;
mod span_value;
mod values;

pub use ask::{ask_line, turn_line};
pub use heard::{Answered, Heard, Told};
pub use hearing::hear;
pub use line::is_line;
