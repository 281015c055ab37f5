//! Where a pattern matches in a text, and one edit that replaces all those places.
//!
//! To a contract what looks for spots is a function from texts to runs of characters, which rise, do not overlap and are not empty. A
//! [`RegexSpot`] is its pattern, a [`LiteralSpot`] the characters that it looks for.
#![tactic(auto)]

mod literal;
mod pattern;
mod replacement;
mod spot;

pub use literal::LiteralSpot;
pub use pattern::RegexSpot;
pub use replacement::replace_units;
pub use spot::Spot;
