//! The notes that tell a front end what its view shows: updates, asked places, alerts and styles, written and read back.
//!
//! An update of a view is one line of JSON. `specs/Written.antt` says which value of JSON an update is, member for member, and
//! `specs/Reading.antt` says on its own what a front end takes from a line. [`write_update`] writes exactly the first, and its line
//! reads back by the second as the same view and the same update, whatever their characters and numbers. The [`laws`] say this of
//! data alone, and that no response and no other note is read as an update.
#![tactic(auto)]

pub mod laws;
mod note;
mod parts;
mod write;

pub use note::{NumberedStyle, Scroll, ViewUpdate};
pub use write::{write_alert, write_scroll, write_style, write_update};
