//! A view on the head text of a document: its pieces, regions, styles, layout and search, what commands make of them, and what its front
//! end lacks.
//!
//! To a contract a [`ViewState`] is a text with regions and the styles of plugins, the lines that are shown, what is looked for, and which
//! lines the front end has; pieces and layout are those of `specs/View.antt`, `specs/Search.antt` has which match a command selects, and
//! `specs/Looking.antt` what a line makes of a view that leaves its text as it is.
#![tactic(auto)]

mod anew;
mod front;
mod idle;
mod indexed;
mod looking;
mod moved;
mod same;
mod search;
mod told;
mod view;

pub use front::kept_front;
pub use idle::does_nothing;
pub use looking::{
    NO_REQUEST, Scrolling, Viewing, copies, scrolls, scrolls_at, viewed_lines, viewing_of,
};
pub use moved::Goals;
pub use search::Search;
pub use told::{Pristine, TextLeft};
pub use view::ViewState;
