//! Styles of a text: layers that give each character at most one style, what new spans and an edit make of them, and the table of the
//! styles of a session.
//!
//! To a contract [`Layers`] is a list of layers, one for each caller that styles, and each is a list of one optional id for each
//! character. A [`StyleTable`] is the list of its styles in the order in which they were defined. [`laws::styles_follow_characters`]
//! says that an edit leaves each character its style, and gives no other character any.
#![tactic(auto)]

mod apart;
mod key;
pub mod laws;
mod layer;
mod layers;
mod overlay;
pub mod rows;
mod run;
mod spanned;
mod table;
mod walk;

pub use layers::Layers;
pub use spanned::SpannedRange;
pub use table::StyleTable;
