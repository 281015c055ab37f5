//! Deltas: what an edit is, in bytes and in characters.
//!
//! A delta on the wire and a unit delta are the plain types of `plain_edits`, and mean what its definitions say. A contract sees a
//! text as its list of characters, and a subset as its list of flags. The calls go from the one form to the other and back, apply
//! a unit delta to a text, take it apart into two subsets, make it from two subsets, and carry insertions over other ones. A
//! [`UnitWalk`] goes over a unit delta part by part.
#![tactic(auto)]

mod application;
mod carry;
mod delta_builder;
mod delta_form;
mod factoring;
mod misfits;
mod part;
mod rows;
mod synthesis;
mod unit_builder;
mod unit_form;
mod unit_walk;
mod wire_builder;
mod wire_form;

pub use application::apply;
pub use carry::carry_ins;
pub use delta_form::to_delta;
pub use factoring::factor;
pub use misfits::fits;
pub use part::Part;
pub use synthesis::{synthesize, synthesize_of};
pub use unit_form::to_units;
pub use unit_walk::UnitWalk;
pub use wire_form::to_wire;
