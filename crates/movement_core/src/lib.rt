//! Motions: where the carets of a selection go, in any view of a text.
//!
//! A contract sees a view as its text and the list of its pieces, and a selection as the list of its regions. A target is the least or
//! the greatest boundary of the whole text that passes a test: [`laws`] says what that comes to, and [`rows`] gives it in small cases.
//! [`moved`] gives exactly the selection of the definition, and [`moved_region`] the region. What other commands ask of a view is handed
//! out too: [`text_end`], [`piece_at`], [`last_gap`], [`line_text`], [`column_of`], [`outward_left`], [`run_left`] and
//! [`run_right`].
//!
//! For each region a motion asks the view for the lines of a gap, and reads a stretch of the logical line around the gap, or around the
//! layout line to which it goes: it begins and ends where two plain characters stand side by side, since a cluster ends between them
//! whatever stands beside them, and is sought in steps of 256 characters. A motion by words reads at most twice the characters that it
//! passes over, and one such stretch. Nothing walks over pieces, and nothing asks a view for its whole text.
#![tactic(auto)]

mod columns;
pub mod laws;
mod lines;
mod moves;
mod nearby;
mod places;
pub mod rows;
mod words;

pub use columns::column_of;
pub use lines::{LineText, last_gap, line_text, piece_at, text_end};
pub use moves::{moved, moved_region};
pub use places::outward_left;
pub use words::{run_left, run_right};
