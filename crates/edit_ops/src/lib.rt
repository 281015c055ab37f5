//! Editing commands: what each one does to a text and its selection.
//!
//! All that edits is a list of [`Replacement`]s, one a region. A definition says which they are for each command, or which regions it
//! leaves; [`laws`] says what replacements come to, and [`rows`] gives it in small cases. [`edit_of`] gives exactly the edit and the
//! regions of the definition, and [`copied`] the text of a copy. [`replace`] makes the edit of replacements and the carets after it,
//! [`replace_regions`] where each region gets one text, [`delete`] where ranges go that may overlap, and [`delete_to`] where each caret
//! deletes up to where a motion takes it. [`drag`], [`range_to`] and [`toggle`] are what gestures make of a selection.
#![tactic(auto)]

mod commands;
mod copying;
mod deleting;
mod deletions;
mod editing;
mod gestures;
pub mod laws;
mod numbered;
mod pointing;
mod points;
mod regions;
mod replacement;
pub mod rows;
mod tabs;

pub use commands::edit_of;
pub use copying::copied;
pub use deleting::delete;
pub use deletions::delete_to;
pub use editing::replace;
pub use gestures::{drag, range_to, toggle};
pub use regions::replace_regions;
pub use replacement::Replacement;
