//! What a front end shows: lines, the operations of an update, the definitions of screens and update plans, and texts cut into pieces.
//!
//! A contract sees every type here as the record or the variants that its declaration shows, and a screen as a list of lines of which
//! each is there or is not valid. A [`TextView`] is a text and the list of its pieces.
#![tactic(auto)]

mod piece;
mod screen;
mod view;

pub use piece::Piece;
pub use screen::{Line, Lines, Op, Ops, Restyle, Restyles, Triple, Triples, Update};
pub use view::TextView;
