//! A document with one view, which a front end and plugins edit.
//!
//! A contract says of a `Doc` which plain documents it stands for: `specs/Document.antt` has the plain document, the text of `doc_text` and a
//! view of it; `specs/Looking.antt` has what a line makes of the view alone, `specs/Step.antt` what each event comes to in the document, or
//! why it is refused, and `specs/Effects.antt` what the front end is told.
#![tactic(auto)]

mod doc;
mod event;
pub mod laws;
mod reading;
mod said;
mod styles;

pub use doc::Doc;
pub use doc_text::{DocFault, Kind, Misplaced, Typing};
pub use event::{Body, Effects, Event};
