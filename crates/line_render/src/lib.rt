//! Rendered lines: what a front end is shown of one piece of a text.
//!
//! To a contract a line is its characters, its number, the byte offsets of its carets, and its triples. It is made from the characters
//! of its piece alone, with the regions and the spans of the whole text, of which only those that touch the piece cost anything.
//! [`laws::pieces_render_alike`] says that it is the line that the whole text gives, and [`laws::carets_stand_in_their_lines`] that each
//! caret is shown in its layout line alone.
#![tactic(auto)]

mod carets;
mod cuts;
pub mod laws;
mod lines;
mod selected;
mod touching;

pub use lines::{render, render_piece};
