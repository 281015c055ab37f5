//! What front ends and plugins are told of a text: the layout of its pieces with the carets of regions and the styles of its characters, the
//! update that sends the lines that they ask for, and a change of a rope, as the notices have it.
//!
//! To a contract a rope is its characters; `specs/Layout.antt` has the layout of a text, and `specs/Told.antt` what a front end is told.
#![tactic(auto)]

mod asked;
mod found;
pub mod laws;
mod layout;
mod plan;
pub mod rows;
mod same;
mod texts;
mod wire;
mod wire_builder;

pub use asked::Asked;
pub use layout::{Shown, line_at};
pub use plan::{scroll_of, update_of};
pub use same::{are_alike, is_same_layout};
pub use wire::to_wire;
